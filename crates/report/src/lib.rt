// The text that a run of guarded sections leaves.
#![tactic(auto)]

mod lines;
mod scripts;
mod serial;

ghost use Rattle.std.specs.Prelude.{◌≡◌, ◌*◌, ◌≤◌, length};
ghost use Rattle.report.specs.Report.{Fits, Written, run_text, report_of, Printable, Reported};

use rules::Answer;

// What the run leaves, to its grants.
fn print_run(
    out: &mut [u8],
    a: Answer,
    count: usize,
    cells: &[u32],
    locals: &[u32],
    tasks: &[u32],
    places: &[u32],
    grants: &[u32],
) -> usize
    requires { (count ≤ 32) × (length locals.now ≡ 256) × (2 * length tasks.now ≤ length places.now) × (33 ≤ length out.old)
        × Fits 0 (run_text a count cells.now locals.now tasks.now places.now grants.now) out.old }
    ensures { Written 0 (run_text a count cells.now locals.now tasks.now places.now grants.now)
        out.old out.new result }
{
    let cells_at = line::print_answer(out, a);
    let locals_at = lines::print_line(out, cells_at, b"cells", cells);
    let places_at = scripts::print_locals(out, locals_at, b"locals", count, locals);
    let grants_at = scripts::print_places(out, places_at, tasks, places);
    lines::print_pairs(out, grants_at, b"grants", grants)
}

/// Prints all that a run left, with the plain run beside it, at the front of `out`, and returns the text's length.
pub fn report(
    out: &mut [u8],
    a: Answer,
    count: usize,
    cells: &[u32],
    locals: &[u32],
    tasks: &[u32],
    places: &[u32],
    grants: &[u32],
    plaincells: &[u32],
    plainlocals: &[u32],
) -> usize
    requires { Printable (report_of a count cells.now locals.now tasks.now places.now grants.now plaincells.now plainlocals.now)
        (length out.old) }
    ensures { Reported (report_of a count cells.now locals.now tasks.now places.now grants.now
        plaincells.now plainlocals.now) out.old out.new result }
{
    let open_at = print_run(out, a, count, cells, locals, tasks, places, grants);
    let open = scripts::print_open(out, open_at, tasks, places);
    let end = open.end;
    if open.none {
        return serial::print_plain(out, end, count, cells, locals, plaincells, plainlocals);
    }
    line::put(out, end, b"serial open\n")
}
