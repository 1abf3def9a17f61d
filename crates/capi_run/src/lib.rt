// The runner of guarded sections as a C function, in an object of its own: a firmware that does not call it does not link it.
#![tactic(auto)]

ghost use Rattle.std.specs.Prelude.{◌≡◌};
ghost use Rattle.runner.specs.Reply.{ran, run_reply};

use rules::Answer;

#[unsafe(no_mangle)]
pub extern "C" fn mast_run(
    tables: &mut [u8],
    scripts: &[u32],
    events: &[u32],
    ids: &[u32],
    cells: &mut [u32],
    locals: &mut [u32],
    places: &mut [u32],
    grants: &mut [u32],
) -> Answer
    ensures { ran result tables.new cells.new locals.new places.new grants.new
        ≡ run_reply tables.old scripts.now events.now ids.now cells.old locals.old
        places.old grants.old }
{
    runner::run(tables, scripts, events, ids, cells, locals, places, grants)
}
