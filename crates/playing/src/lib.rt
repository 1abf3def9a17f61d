// A session played from a reader: what is read is answered to a writer before the next read.
// The contracts say which bytes the session is fed, in order and once, and that they are all that was read; that every byte it says is handed
// to the writer, and written once with nothing else, or a front of it where a read or a write fails.
#![tactic(auto)]

ghost use Rattle.std.specs.Prelude.{◌≡◌, ℕ, ◌≤◌, length, take, is_ok, IfOk, OnOk, OnErr, IfSome, MatchResult};
ghost use Rattle.std.specs.Str.{IsUtf8};
ghost use Rattle.std.specs.Io.KnownBytes.{Appends};
ghost use Rattle.session.specs.Kept.{said_to_part, at_end};
ghost use Rattle.session.specs.Feeding.{holding};
ghost use Rattle.playing.specs.Turns.{Answers, Ran};
ghost use Rattle.playing.specs.Streams.{AppendsFront, WritesAll, Hears, FedAll, CutOff, fresh, said_to_whole, Played, BrokeOff, unread, unwritten, Tells, what_failed};

use session::LineBuffer;
use std::fmt::InlineText;
use std::fs::Files;
use std::io::{Error, ErrorKind, Read, Write};
use std::{fs, io};

/// Why a session was not played to its end: what was read, or what was said.
#[derive(Clone, Copy, Debug)]
pub enum PlayError {
    Unread(Error),
    Unwritten(Error),
}

/// Reads once: how many bytes stand at the front of the buffer, 0 at the end of the input. On an error nothing is read.
pub fn hear<R: Read>(reader: &mut R, input: &mut [u8]) -> io::Result<usize>
    ensures within { IfOk result (λ n. n ≤ length input.new) }
    ensures hears { Hears result (R.remaining reader.old) (R.remaining reader.new) input.new }
{
    reader.read(input)
}

/// Writes all of what is said, in as many writes as it takes. On an error a front of it is written.
pub fn say<W: Write>(writer: &mut W, said: &[u8]) -> io::Result<()>
    ensures { WritesAll result (W.contents writer.old) (W.contents writer.new) said.now }
{
    let mut written = 0;
    // goes on by what each write took, which nobody knows before
    while written < said.len() {
        let n = writer.write(&said[written..])?;
        if n == 0 {
            return Err(Error::new(ErrorKind::WriteZero, "failed to write whole buffer"));
        }
        written += n;
    }
    Ok(())
}

// A read that failed, as what broke the session off.
fn unread(heard: io::Result<usize>) -> Result<usize, PlayError>
    ensures { result ≡ unread heard }
{
    heard.map_err(PlayError::Unread)
}

// A write that failed, likewise.
fn unwritten(ended: io::Result<()>) -> Result<(), PlayError>
    ensures { result ≡ unwritten ended }
{
    ended.map_err(PlayError::Unwritten)
}

fn say_answers<W: Write>(writer: &mut W, said: &[u8]) -> Result<(), PlayError>
    ensures { WritesAll result (W.contents writer.old) (W.contents writer.new) said.now }
{
    unwritten(say(writer, said))
}

// Feeds the session once, and writes what it says. Returns how many bytes of the input were fed.
fn answer_some<W: Write>(
    writer: &mut W,
    m: &mut [u8],
    line: &mut LineBuffer,
    input: &[u8],
    out: &mut [u8],
) -> Result<usize, PlayError>
    requires { (33 ≤ length out.old) × (1 ≤ length input.now) }
    ensures fed { IfOk result (λ n. (1 ≤ n) × (n ≤ length input.now)
        × FedAll (holding m.old line.old) (take n input.now) (holding m.new line.new) (W.contents writer.old) (W.contents writer.new)) }
    ensures answers { IfOk result (λ n. Answers n (holding m.old line.old) input.now (holding m.new line.new) out.new) }
    ensures cut { OnErr result
        (CutOff (holding m.old line.old) input.now (holding m.new line.new) (W.contents writer.old) (W.contents writer.new)) }
    ensures left { OnErr result ((n : ℕ) × Answers n (holding m.old line.old) input.now (holding m.new line.new) out.new
        × AppendsFront (W.contents writer.old) (W.contents writer.new) (said_to_part (holding m.old line.old) (take n input.now))) }
{
    let fed = session::feed(m, line, input, out);
    say_answers(writer, &out[..fed.written])?;
    Ok(fed.taken)
}

// Answers the whole of a part of the input, in as many turns as the output's room asks.
fn answer_part<W: Write>(
    writer: &mut W,
    m: &mut [u8],
    line: &mut LineBuffer,
    input: &[u8],
    out: &mut [u8],
) -> Result<(), PlayError>
    requires { 33 ≤ length out.old }
    ensures fed { OnOk result
        (FedAll (holding m.old line.old) input.now (holding m.new line.new) (W.contents writer.old) (W.contents writer.new)) }
    ensures cut { OnErr result
        (CutOff (holding m.old line.old) input.now (holding m.new line.new) (W.contents writer.old) (W.contents writer.new)) }
{
    let mut taken = 0;
    // goes on by what each turn took
    while taken < input.len() {
        taken += answer_some(writer, m, line, &input[taken..], out)?;
    }
    Ok(())
}

// The input has ended: a line that has begun is answered.
fn answer_end<W: Write>(writer: &mut W, m: &mut [u8], line: &LineBuffer) -> Result<(), PlayError>
    ensures bytes { m.new ≡ (at_end (holding m.old line.now)).bytes }
    ensures written { WritesAll result (W.contents writer.old) (W.contents writer.new) (at_end (holding m.old line.now)).output }
{
    let mut out = [0u8; 33];
    let n = session::finish(m, line, &mut out);
    say_answers(writer, &out[..n])
}

// Answers what each read gave before the next, so that a person at a terminal is never kept waiting.
// A proved loop has to end, and nothing says that an input does: the reads are counted to a number that no run reaches.
fn answer_all<R: Read, W: Write>(
    reader: &mut R,
    writer: &mut W,
    m: &mut [u8],
    input: &mut [u8],
    out: &mut [u8],
) -> Result<(), PlayError>
    requires { 33 ≤ length out.old }
    ensures ran { Ran m.old (is_ok result) m.new }
    ensures played { 1 ≤ length input.old → OnOk result (Played (R.remaining reader.old) (R.remaining reader.new)
        (W.contents writer.old) (W.contents writer.new) (fresh m.old) m.new) }
    ensures broken { 1 ≤ length input.old → OnErr result (BrokeOff (R.remaining reader.old) (R.remaining reader.new)
        (W.contents writer.old) (W.contents writer.new) (fresh m.old) m.new) }
{
    let mut line = LineBuffer::new();
    for _ in 0..u64::MAX {
        let n = unread(hear(reader, input))?;
        if n == 0 {
            return answer_end(writer, m, &line);
        }
        answer_part(writer, m, &mut line, &input[..n], out)?;
    }
    Err(PlayError::Unread(Error::from(ErrorKind::TimedOut)))
}

/// Plays the whole input from the tables as lent. An error says that it was not read to its end, or not all was written.
pub fn play<R: Read, W: Write>(
    reader: &mut R,
    writer: &mut W,
    m: &mut [u8],
) -> Result<(), PlayError>
    ensures ran { Ran m.old (is_ok result) m.new }
    ensures played { OnOk result (Played (R.remaining reader.old) (R.remaining reader.new)
        (W.contents writer.old) (W.contents writer.new) (fresh m.old) m.new) }
    ensures output { OnOk result (IfSome (R.remaining reader.old) (λ input.
        Appends (W.contents writer.old) (W.contents writer.new) (said_to_whole (fresh m.old) input))) }
    ensures broken { OnErr result (BrokeOff (R.remaining reader.old) (R.remaining reader.new)
        (W.contents writer.old) (W.contents writer.new) (fresh m.old) m.new) }
{
    let mut input = [0u8; 65536];
    let mut out = [0u8; 65536];
    answer_all(reader, writer, m, &mut input, &mut out)
}

// The system's words alone, without the error's number behind them.
fn words_of(text: &str) -> &str {
    text.split_once(" (os error ")
        .map_or(text, |(words, _)| words)
}

/// Says in a line what failed, as the caller names it, and why.
pub fn tell<E: Write>(err: &mut E, what: &[u8], error: Error) -> io::Result<()>
    ensures { OnOk result (Tells (E.contents err.old) (E.contents err.new) what.now) }
{
    let text = InlineText::<128>::of(error);
    err.write_all(what)?;
    err.write_all(b": ")?;
    err.write_all(words_of(text.as_str()).as_bytes())?;
    err.write_all(b"\n")
}

/// Says what kept the session of this name from its end.
pub fn tell_broken<E: Write>(err: &mut E, name: &[u8], error: PlayError) -> io::Result<()>
    ensures { OnOk result (Tells (E.contents err.old) (E.contents err.new) (what_failed error name.now)) }
{
    match error {
        PlayError::Unread(error) => tell(err, name, error),
        PlayError::Unwritten(error) => tell(err, b"standard output", error),
    }
}

/// The text of a file's name, which has to be UTF-8.
pub fn text_of(path: &[u8]) -> io::Result<&str>
    ensures { MatchResult result (λ text. (text.now ≡ path.now) × IsUtf8 path.now) (λ e. ¬ IsUtf8 path.now) }
{
    std::str::from_utf8(path).map_err(|_| Error::from(ErrorKind::InvalidFilename))
}

/// Opens the file of this name for reading.
pub fn open<R: Files>(files: &R, path: &[u8]) -> io::Result<R::File>
    ensures { OnOk result (IsUtf8 path.now) }
{
    fs::open(files, text_of(path)?)
}
