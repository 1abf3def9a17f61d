// Lines of a text, each read into the numbers that a run takes.
ghost use Rattle.std.specs.Prelude.{◌≡◌, List, ℕ, ◌++◌, ◌≤◌, length, IfSome};
ghost use Rattle.text.specs.Spoken.{said_of};
ghost use Rattle.text.specs.Words.{said_by};
ghost use Rattle.text.specs.Reading.{cell_line, local_line, row_line, section_begins, script_line, session_line, step_line};
ghost use Rattle.text.specs.Reading.{section_line, event_put, event_line, read_line};
ghost use Rattle.text.specs.Feeding.{lent, Inside, Roomy, Reads, ReadsCells, ReadsLocals, ReadsScripts, ReadsPart, ReadsEvents};

use super::vocabulary::{self, Spoken, Word};
use super::{At, Fault, Part, numbers};

// The next cell: the identifier it belongs to, and its number.
fn cell_line(ids: &mut [u32], cells: &mut [u32], at: At, id: u32, n: u32) -> Result<At, Fault>
    requires { (at.cells ≤ length cells.old) × (length ids.old ≡ length cells.old) }
    ensures { ReadsCells (λ room x. cell_line room x id n) at result ids.old cells.old ids.new cells.new }
{
    let i = at.cells;
    if cells.len() <= i {
        return Err(Fault::NoRoomForCell);
    }
    ids[i] = id;
    cells[i] = n;
    Ok(At { cells: i + 1, ..at })
}

// Task q's local.
fn local_line(locals: &mut [u32], at: At, q: u32, local: u32, n: u32) -> Result<At, Fault>
    requires { length locals.old ≡ 256 }
    ensures { ReadsLocals (λ room x. local_line x q local n) at result locals.old locals.new }
{
    if q < 1 || 32 < q || 8 <= local {
        return Err(Fault::LocalOutOfRange);
    }
    let i = (q as usize - 1) * 8 + local as usize;
    locals[i] = n;
    Ok(at)
}

// One row more of the scripts.
fn row_line(scripts: &mut [u32], at: At, kind: u32, a: u32, b: u32, c: u32) -> Result<At, Fault>
    requires { at.scripts ≤ length scripts.old }
    ensures { ReadsScripts (λ room x. row_line room x kind a b c) at result scripts.old scripts.new }
{
    let from = at.scripts;
    if scripts.len() - from < 4 {
        return Err(Fault::NoRoomForRow);
    }
    let end = line::put(scripts, from, &[kind, a, b, c]);
    Ok(At { scripts: end, ..at })
}

// A section is its script's: there must be one.
fn section_begins(
    scripts: &mut [u32],
    at: At,
    id: u32,
    options: u32,
    timeout: u32,
) -> Result<At, Fault>
    requires { at.scripts ≤ length scripts.old }
    ensures { ReadsScripts (λ room x. section_begins room x id options timeout) at result scripts.old scripts.new }
{
    if at.scripts == 0 {
        return Err(Fault::SectionWithoutScript);
    }
    let inside = At {
        part: Part::Section as u32,
        ..at
    };
    row_line(scripts, inside, 2, id, options, timeout)
}

// A line of cells, locals and scripts.
fn script_line(
    ids: &mut [u32],
    cells: &mut [u32],
    locals: &mut [u32],
    scripts: &mut [u32],
    at: At,
    spoken: Option<Spoken<'_>>,
) -> Result<At, Fault>
    requires { Roomy at ids.old cells.old locals.old scripts.old }
    ensures { ReadsPart (λ room x. script_line room x (said_of spoken.entry)) at result
        ids.old cells.old locals.old scripts.old
        ids.new cells.new locals.new scripts.new }
{
    let Some(Spoken { word, numbers }) = spoken else {
        return Err(Fault::NoLine);
    };
    let a = numbers::number_at(numbers, 0);
    let b = numbers::number_at(numbers, 1);
    let c = numbers::number_at(numbers, 2);
    match word {
        Word::Cell => cell_line(ids, cells, at, a, b),
        Word::Local => local_line(locals, at, a, b, c),
        Word::Script => row_line(scripts, at, 1, a, 0, 0),
        Word::Section => section_begins(scripts, at, a, b, c),
        Word::Load | Word::Store | Word::Set | Word::Add => Err(Fault::StepWithoutSection),
        Word::End => Err(Fault::EndWithoutSection),
        Word::Run => Ok(At {
            part: Part::Events as u32,
            ..at
        }),
        _ => Err(Fault::NoLine),
    }
}

// A step of a section; any other line there is a step of no kind.
fn step_line(scripts: &mut [u32], at: At, spoken: Option<Spoken<'_>>) -> Result<At, Fault>
    requires { at.scripts ≤ length scripts.old }
    ensures { ReadsScripts (λ room x. step_line room x (said_of spoken.entry)) at result scripts.old scripts.new }
{
    match spoken {
        Some(Spoken { word, numbers }) if word.is_step() => {
            let a = numbers::number_at(numbers, 0);
            let b = numbers::number_at(numbers, 1);
            row_line(scripts, at, word.number() - 10, a, b, 0)
        }
        _ => row_line(scripts, at, 0, 0, 0, 0),
    }
}

// A line in a section.
fn section_line(scripts: &mut [u32], at: At, spoken: Option<Spoken<'_>>) -> Result<At, Fault>
    requires { at.scripts ≤ length scripts.old }
    ensures { ReadsScripts (λ room x. section_line room x (said_of spoken.entry)) at result scripts.old scripts.new }
{
    let Some(Spoken { word, .. }) = spoken else {
        return step_line(scripts, at, spoken);
    };
    match word {
        Word::End => Ok(At {
            part: Part::Scripts as u32,
            ..at
        }),
        Word::Script => Err(Fault::ScriptInSection),
        Word::Run => Err(Fault::RunInSection),
        _ => step_line(scripts, at, spoken),
    }
}

// One of the session's lines, unless the second part begins with it.
fn session_line(
    m: &mut [u8],
    ids: &mut [u32],
    cells: &mut [u32],
    locals: &mut [u32],
    scripts: &mut [u32],
    at: At,
    line: &[u8],
    spoken: Option<Spoken<'_>>,
) -> Result<At, Fault>
    requires { Roomy at ids.old cells.old locals.old scripts.old × (said_by line.now ≡ said_of spoken) }
    ensures { (events : List ℕ) → Reads (λ room x. session_line room x line.now) at result
        (lent m.old ids.old cells.old locals.old scripts.old events)
        (lent m.new ids.new cells.new locals.new scripts.new events) }
{
    if let Some(Spoken { word, .. }) = spoken
        && word.opens_scripts()
    {
        let begun = At {
            part: Part::Scripts as u32,
            ..at
        };
        return script_line(ids, cells, locals, scripts, begun, spoken);
    }
    session::take_line(m, line);
    Ok(at)
}

// An event of the numbers in `head`, and those in `rest` behind them.
fn put_event(events: &mut [u32], at: At, head: &[u32], rest: &[u32]) -> Result<At, Fault>
    requires { at.events ≤ length events.old }
    ensures { ReadsEvents (λ room x. event_put room x (head.now ++ rest.now)) at result events.old events.new }
{
    let from = at.events;
    if events.len() - from < head.len() + rest.len() {
        return Err(Fault::NoRoomForEvent);
    }
    let behind = line::put(events, from, head);
    let end = line::put(events, behind, rest);
    Ok(At { events: end, ..at })
}

// An event; any other line is an event of no kind. A start has the count of its priorities before them.
fn event_line(events: &mut [u32], at: At, spoken: Option<Spoken<'_>>) -> Result<At, Fault>
    requires { (at.events ≤ length events.old) × IfSome spoken (λ s. length s.numbers.now ≤ 128) }
    ensures { ReadsEvents (λ room x. event_line room x (said_of spoken.entry)) at result events.old events.new }
{
    let Some(Spoken { word, numbers }) = spoken else {
        return put_event(events, at, &[0], &[]);
    };
    match word {
        Word::Start => {
            let slots = numbers::number_at(numbers, 0);
            let rest = numbers::behind_first(numbers);
            put_event(events, at, &[2, slots, rest.len() as u32], rest)
        }
        _ if word.is_event() => put_event(events, at, &[word.number()], numbers),
        _ => put_event(events, at, &[0], &[]),
    }
}

/// Reads a line by the part of the file that it stands in: how much is read then, or why it is refused.
pub fn read_line(
    m: &mut [u8],
    ids: &mut [u32],
    cells: &mut [u32],
    locals: &mut [u32],
    scripts: &mut [u32],
    events: &mut [u32],
    at: At,
    line: &[u8],
) -> Result<At, Fault>
    requires { Inside at (lent m.old ids.old cells.old locals.old scripts.old events.old) }
    ensures { Reads (λ room x. read_line room x line.now) at result
        (lent m.old ids.old cells.old locals.old scripts.old events.old)
        (lent m.new ids.new cells.new locals.new scripts.new events.new) }
{
    let mut room = [0u32; 128];
    let spoken = vocabulary::said(line, &mut room);
    match Part::from(at.part) {
        Part::Session => session_line(m, ids, cells, locals, scripts, at, line, spoken),
        Part::Scripts => script_line(ids, cells, locals, scripts, at, spoken),
        Part::Section => section_line(scripts, at, spoken),
        Part::Events => event_line(events, at, spoken),
    }
}
