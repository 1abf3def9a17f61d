// A text from a reader: what each read gives is fed before the next, so that no text is too long to be kept.
ghost use Rattle.std.specs.Prelude.{◌≡◌, ◌≤◌, length};
ghost use Rattle.text.specs.Feeding.{lent, room_of};
ghost use Rattle.mast_sections.specs.Taken.{Fresh, unread, Takes, TakesFrom};
ghost use Rattle.mast_sections.specs.declared.reading.TextError.TheVariants.{Faulty as FaultyLine};

use std::io;
use std::io::{Error, Read};
use text::At;
use text::feeding::{self, Faulty, Progress};

/// Why a text was not read to its end.
#[derive(Clone, Copy, Debug)]
pub enum TextError {
    /// Its first line at fault.
    Faulty(Faulty),
    /// A read failed.
    Unread(Error),
    /// It has no end: what is kept.
    Unended(Progress),
}

impl From<Faulty> for TextError {
    ghost from_gives = { λ faulty e. e ≡ FaultyLine faulty };

    fn from(faulty: Faulty) -> TextError {
        TextError::Faulty(faulty)
    }
}

// A read that failed, as why the text was not read.
fn unread(heard: io::Result<usize>) -> Result<usize, TextError>
    ensures { result ≡ unread heard }
{
    heard.map_err(TextError::Unread)
}

/// Reads a text to its end, and answers how much of what is lent it fills.
// A proved loop has to end, and nothing says that an input does: the reads are counted to a number that no run reaches.
pub fn read_text<R: Read>(
    reader: &mut R,
    m: &mut [u8],
    ids: &mut [u32],
    cells: &mut [u32],
    locals: &mut [u32],
    scripts: &mut [u32],
    events: &mut [u32],
    line: &mut [u8],
    input: &mut [u8],
) -> Result<At, TextError>
    requires { Fresh line.old (lent m.old ids.old cells.old locals.old scripts.old events.old) }
    ensures takes { Takes
        (room_of (lent m.old ids.old cells.old locals.old scripts.old events.old)) result
        line.new (lent m.new ids.new cells.new locals.new scripts.new events.new) }
    ensures read { 1 ≤ length input.old → TakesFrom
        (room_of (lent m.old ids.old cells.old locals.old scripts.old events.old)) result
        (R.remaining reader.old) (R.remaining reader.new)
        line.new (lent m.new ids.new cells.new locals.new scripts.new events.new) }
{
    let mut p = Progress::OUTSET;
    for _ in 0..u64::MAX {
        let n = unread(playing::hear(reader, input))?;
        if n == 0 {
            let last = feeding::finish(m, ids, cells, locals, scripts, events, line, p)?;
            return Ok(last.at);
        }
        p = feeding::feed(m, ids, cells, locals, scripts, events, line, p, &input[..n])?;
    }
    Err(TextError::Unended(p))
}
