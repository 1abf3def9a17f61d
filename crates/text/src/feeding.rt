// Bytes of a text as they come, in parts of any size. What is kept between two is bounded: what is read so far, and one line's bytes.
ghost use Rattle.std.specs.Prelude.{◌≡◌, ℕ, ◌≤◌, length};
ghost use Rattle.text.specs.Reading.{Reading};
ghost use Rattle.text.specs.Feeding.{lent, keeping, end_line, lengthen, take_byte, take_bytes, at_end, Ready, Takes};

use super::{At, Fault, Part, reading};

/// How much is read, how long the line is that has begun (257 where it is longer than 256), and how many lines have ended (32 bits count no
/// further).
#[derive(Clone, Copy, Debug, PartialEq, Eq)]
pub struct Progress {
    pub at: At,
    pub begun: usize,
    pub count: u32,
}

impl Progress {
    /// Nothing is read.
    pub const OUTSET: Progress = Progress {
        at: At {
            part: Part::Session as u32,
            cells: 0,
            scripts: 0,
            events: 0,
        },
        begun: 0,
        count: 0,
    };
}

/// The first line at fault, by its number from 1.
#[derive(Clone, Copy, Debug, PartialEq, Eq)]
pub struct Faulty {
    pub line: u32,
    pub fault: Fault,
}

// The line that has begun ends.
fn end_line(
    m: &mut [u8],
    ids: &mut [u32],
    cells: &mut [u32],
    locals: &mut [u32],
    scripts: &mut [u32],
    events: &mut [u32],
    line: &[u8],
    p: Progress,
) -> Result<Progress, Faulty>
    requires { Ready p line.now (lent m.old ids.old cells.old locals.old scripts.old events.old) }
    ensures { Takes end_line p result
        line.now (lent m.old ids.old cells.old locals.old scripts.old events.old)
        line.now (lent m.new ids.new cells.new locals.new scripts.new events.new) }
{
    let count = p.count.saturating_add(1);
    let begun = &line[..p.begun];
    // no `map_err(..)?`: the proof over its closure, which holds `count`, did not close
    match reading::read_line(m, ids, cells, locals, scripts, events, p.at, begun) {
        Ok(at) => Ok(Progress {
            at,
            begun: 0,
            count,
        }),
        Err(fault) => Err(Faulty { line: count, fault }),
    }
}

// One byte more of a line; beyond 256 only its being too long is kept.
fn lengthened(line: &mut [u8], begun: usize, b: u8) -> usize
    requires { (length line.old ≡ 257) × (begun ≤ 257) }
    ensures { ((x : Reading) (count : ℕ) → keeping x line.new result count ≡ lengthen (keeping x line.old begun count) b) × (result ≤ 257) }
{
    if 257 <= begun {
        return begun;
    }
    line[begun] = b;
    begun + 1
}

// A newline ends the line, and any other byte is one more of it.
fn take_byte(
    m: &mut [u8],
    ids: &mut [u32],
    cells: &mut [u32],
    locals: &mut [u32],
    scripts: &mut [u32],
    events: &mut [u32],
    line: &mut [u8],
    p: Progress,
    b: u8,
) -> Result<Progress, Faulty>
    requires { Ready p line.old (lent m.old ids.old cells.old locals.old scripts.old events.old) }
    ensures { Takes (λ room k. take_byte room k b) p result
        line.old (lent m.old ids.old cells.old locals.old scripts.old events.old)
        line.new (lent m.new ids.new cells.new locals.new scripts.new events.new) }
{
    if b == b'\n' {
        return end_line(m, ids, cells, locals, scripts, events, line, p);
    }
    let begun = lengthened(line, p.begun, b);
    Ok(Progress { begun, ..p })
}

/// Feeds a part of the text, up to the first fault.
pub fn feed(
    m: &mut [u8],
    ids: &mut [u32],
    cells: &mut [u32],
    locals: &mut [u32],
    scripts: &mut [u32],
    events: &mut [u32],
    line: &mut [u8],
    p: Progress,
    input: &[u8],
) -> Result<Progress, Faulty>
    requires { Ready p line.old (lent m.old ids.old cells.old locals.old scripts.old events.old) }
    ensures { Takes (λ room k. take_bytes room k input.now) p result
        line.old (lent m.old ids.old cells.old locals.old scripts.old events.old)
        line.new (lent m.new ids.new cells.new locals.new scripts.new events.new) }
{
    let mut kept = p;
    for b in input {
        kept = take_byte(m, ids, cells, locals, scripts, events, line, kept, *b)?;
    }
    Ok(kept)
}

/// The text has ended: a line that has begun counts.
pub fn finish(
    m: &mut [u8],
    ids: &mut [u32],
    cells: &mut [u32],
    locals: &mut [u32],
    scripts: &mut [u32],
    events: &mut [u32],
    line: &[u8],
    p: Progress,
) -> Result<Progress, Faulty>
    requires { Ready p line.now (lent m.old ids.old cells.old locals.old scripts.old events.old) }
    ensures { Takes at_end p result
        line.now (lent m.old ids.old cells.old locals.old scripts.old events.old)
        line.now (lent m.new ids.new cells.new locals.new scripts.new events.new) }
{
    if p.begun == 0 {
        return Ok(p);
    }
    end_line(m, ids, cells, locals, scripts, events, line, p)
}
