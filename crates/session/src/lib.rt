// A session over the calls. Its input comes in parts of any size, and what it keeps between two is bounded: the tables, and one line's bytes.
#![tactic(auto)]

ghost use Rattle.std.specs.Prelude.{◌≡◌, List, ℕ, ◌+◌, ◌≤◌, length, take, drop, replicate};
ghost use Rattle.manager.specs.Entry.{Replied, reply_to};
ghost use Rattle.session.specs.Kept.{keeps, respond, end_line, lengthen, at_end};
ghost use Rattle.session.specs.Feeding.{holding, Writes, Took, FedIs};

use line::Request;
use rules::Answer;

/// The line that has begun: its bytes, and how many of them it fills, more than 256 where it is longer.
#[derive(Clone, Copy)]
pub struct LineBuffer {
    pub bytes: [u8; 256],
    pub length: usize,
}

/// What feeding a part did: how many of its bytes were taken, and how many of the output written.
#[derive(Clone, Copy)]
pub struct Fed {
    pub taken: usize,
    pub written: usize,
}

impl LineBuffer {
    /// No line has begun.
    pub fn new() -> LineBuffer
        ensures bytes { result.bytes ≡ replicate 256 0 }
        ensures length { result.length ≡ 0 }
    {
        LineBuffer {
            bytes: [0; 256],
            length: 0,
        }
    }
}

// One byte more of a line; beyond 256 only its being too long is kept. Returns how long it is then.
fn lengthened(line: &mut [u8; 256], begun: usize, b: u8) -> usize
    ensures { (bs : List ℕ) → keeps bs line.new result ≡ lengthen (keeps bs line.old begun) b }
{
    if begun < 256 {
        line[begun] = b;
        return begun + 1;
    }
    257
}

// A call with the priorities that stand behind the first of a line's numbers.
fn call_with(m: &mut [u8], request: Request, numbers: &[u32; 128]) -> Answer
    ensures { Replied result m.new (reply_to m.old request.call (take request.count (drop 1 numbers.now))) }
{
    let behind_first = &numbers[1..];
    let count = request.count.min(behind_first.len());
    manager::call(m, request.call, &behind_first[..count])
}

// Answers a line at `at` of the output, and returns the place behind the answer.
fn answer_line(m: &mut [u8], line: &[u8], out: &mut [u8], at: usize) -> usize
    requires { at + 33 ≤ length out.old }
    ensures { Writes (respond m.old line.now) at result m.new out.old out.new }
{
    let mut numbers = [0u32; 128];
    match line::scan(line, &mut numbers) {
        None => at + line::print_bad(&mut out[at..]),
        Some(request) => {
            let answer = call_with(m, request, &numbers);
            at + line::print_answer(&mut out[at..], answer)
        }
    }
}

/// A line that is answered and not told so: what it leaves of the tables.
pub fn take_line(m: &mut [u8], line: &[u8])
    ensures { m.new ≡ (respond m.old line.now).bytes }
{
    let mut out = [0u8; 33];
    answer_line(m, line, &mut out, 0);
}

// A line has ended: too long is bad.
fn end_line(m: &mut [u8], line: &[u8; 256], begun: usize, out: &mut [u8], at: usize) -> usize
    requires { at + 33 ≤ length out.old }
    ensures { Writes (end_line (keeps m.old line.now begun)) at result m.new out.old out.new }
{
    if 256 < begun {
        return at + line::print_bad(&mut out[at..]);
    }
    answer_line(m, &line[..begun], out, at)
}

// A newline ends the line, and any other byte is one more of it. Returns the place behind what is said.
fn take_byte(
    m: &mut [u8],
    line: &mut [u8; 256],
    begun: &mut usize,
    b: u8,
    out: &mut [u8],
    at: usize,
) -> usize
    requires { at + 33 ≤ length out.old }
    ensures { Took (keeps m.old line.old begun.old) b at result
        (keeps m.new line.new begun.new) out.old out.new }
{
    if b == b'\n' {
        let end = end_line(m, line, *begun, out, at);
        *begun = 0;
        return end;
    }
    *begun = lengthened(line, *begun, b);
    at
}

/// Feeds a part of the input: until it is used up, or the output has no room for another answer, which is at most 33 bytes.
pub fn feed(m: &mut [u8], line: &mut LineBuffer, input: &[u8], out: &mut [u8]) -> Fed
    ensures { FedIs result (holding m.old line.old) input.now
        (holding m.new line.new) out.old out.new }
{
    let mut written = 0;
    // counted beside the line's bytes, since a count among them is loaded and stored with each byte
    let mut begun = line.length;
    for (taken, b) in input.iter().enumerate() {
        if out.len() - written < 33 {
            line.length = begun;
            return Fed { taken, written };
        }
        written = take_byte(m, &mut line.bytes, &mut begun, *b, out, written);
    }
    line.length = begun;
    Fed {
        taken: input.len(),
        written,
    }
}

/// The input has ended: a line that has begun counts. Returns the length of what is said.
pub fn finish(m: &mut [u8], line: &LineBuffer, out: &mut [u8; 33]) -> usize
    ensures { Writes (at_end (holding m.old line.now)) 0 result m.new out.old out.new }
{
    if line.length == 0 {
        return 0;
    }
    end_line(m, &line.bytes, line.length, out, 0)
}
