// The run that was read, and its report to a writer.
ghost use Rattle.std.specs.Prelude.{◌≡◌, length, IfOk};
ghost use Rattle.runner.specs.Reply.{run_reply};
ghost use Rattle.report.specs.Report.{report_text};
ghost use Rattle.outcome.specs.Outcome.{report_after, Roomy};
ghost use Rattle.text.specs.Feeding.{lent, reading_of, Inside};
ghost use Rattle.playing.specs.Streams.{WritesAll};
ghost use Rattle.mast_sections.specs.Program.{printed, HasRoom, Shows};

use std::io;
use std::io::Write;
use text::At;

// Runs the events, and hands the report on: how many bytes. On an error a front of it is written.
#[tactic(auto, using(crate::proofs::Printing::report_fits, crate::proofs::Printing::report_long, crate::proofs::Printing::said_shows, crate::proofs::Printing::report_is, crate::proofs::Printing::writes_as))]
fn show_run<W: Write>(
    writer: &mut W,
    m: &mut [u8],
    scripts: &[u32],
    events: &[u32],
    ids: &[u32],
    cells: &mut [u32],
    locals: &mut [u32],
    places: &mut [u32],
    grants: &mut [u32],
    tasks: &mut [u32],
    plaincells: &mut [u32],
    plainlocals: &mut [u32],
    out: &mut [u8],
) -> io::Result<usize>
    requires { Roomy m.old scripts.now cells.old locals.old places.old grants.old tasks.old plaincells.old plainlocals.old out.old }
    ensures shows { IfOk result (λ n. Shows n (report_text (report_after (run_reply m.old scripts.now events.now ids.now
        cells.old locals.old places.old grants.old)
        scripts.now cells.old locals.old)) out.new) }
    ensures written { WritesAll result (W.contents writer.old) (W.contents writer.new)
        (report_text (report_after (run_reply m.old scripts.now events.now ids.now
        cells.old locals.old places.old grants.old)
        scripts.now cells.old locals.old)) }
{
    let n = outcome::answer(
        m,
        scripts,
        events,
        ids,
        cells,
        locals,
        places,
        grants,
        tasks,
        plaincells,
        plainlocals,
        out,
    );
    playing::say(writer, &out[..n])?;
    Ok(n)
}

/// Runs what was read, with room of its own for what that leaves.
pub fn show<W: Write>(
    writer: &mut W,
    m: &mut [u8],
    ids: &[u32],
    cells: &mut [u32],
    locals: &mut [u32],
    scripts: &[u32],
    events: &[u32],
    at: At,
) -> io::Result<usize>
    requires { Inside at (lent m.old ids.now cells.old locals.old scripts.now events.now)
        × HasRoom (lent m.old ids.now cells.old locals.old scripts.now events.now) }
    ensures count { IfOk result (λ n. n ≡ length (printed (reading_of at
        (lent m.old ids.now cells.old locals.old scripts.now events.now)))) }
    ensures written { WritesAll result (W.contents writer.old) (W.contents writer.new)
        (printed (reading_of at (lent m.old ids.now cells.old locals.old scripts.now events.now))) }
{
    let mut places = [0u32; 16384];
    let mut grants = [0u32; 513];
    let mut tasks = [0u32; 8192];
    let mut plaincells = [0u32; 1024];
    let mut plainlocals = [0u32; 256];
    let mut out = [0u8; 524288];
    show_run(
        writer,
        m,
        &scripts[..at.scripts],
        &events[..at.events],
        &ids[..at.cells],
        &mut cells[..at.cells],
        locals,
        &mut places,
        &mut grants,
        &mut tasks,
        &mut plaincells[..at.cells],
        &mut plainlocals,
        &mut out,
    )
}
