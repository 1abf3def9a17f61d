// The runner of guarded sections.
#![tactic(auto)]

mod running;
mod settle;
mod turns;

ghost use Rattle.std.specs.Prelude.{◌≡◌, ℕ, List, [], length, replicate};
ghost use Rattle.rules.specs.Status.{status};
ghost use Rattle.tables.specs.Layout.{model_of};
ghost use Rattle.calls.specs.Agreeing.{Agreeing};
ghost use Rattle.sections.specs.Run.{at};
ghost use Rattle.encoding.specs.Rows.{scripts_of};
ghost use Rattle.encoding.specs.Events.{events_of};
ghost use Rattle.encoding.specs.Laid.{laid_places, laid_grants};
ghost use Rattle.runner.specs.Turns.{Stands};
ghost use Rattle.refusals.specs.Defined.{input_of, refusal_where};
ghost use Rattle.runner.specs.Reply.{ran_from, ran, run_reply};

use rules::{Answer, Refusal};
use tables::View;

// A run on agreeing tables, from places at the start and no grant: where it is not refused, its events are run.
fn run_agreeing(
    m: &mut [u8],
    scripts: &[u32],
    events: &[u32],
    ids: &[u32],
    cells: &mut [u32],
    locals: &mut [u32],
    places: &mut [u32],
    grants: &mut [u32],
) -> Result<(), Refusal>
    requires { Agreeing m.old }
    ensures status { status result ≡ refusal_where (model_of m.old)
        (input_of scripts.now ids.now cells.old locals.old) scripts.now events.now
        places.old }
    ensures done { (places₀ grants₀ : List ℕ) → places.old ≡ laid_places places₀
        (replicate (length (scripts_of scripts.now)) (at 0 0))
        → grants.old ≡ laid_grants grants₀ [] → Stands places₀ grants₀ (ran_from (status result) (model_of m.old)
        (input_of scripts.now ids.now cells.old locals.old) (events_of events.now))
        m.new cells.new locals.new places.new grants.new }
    ensures kept { Agreeing m.new }
{
    refusals::refusal(View::new(m), scripts, events, ids, cells, locals, places)?;
    running::run_events(m, scripts, events, cells, locals, places, grants);
    Ok(())
}

// Runs the events on whatever is lent, or refuses them all before the first. The test for 25 is made once.
pub fn run(
    m: &mut [u8],
    scripts: &[u32],
    events: &[u32],
    ids: &[u32],
    cells: &mut [u32],
    locals: &mut [u32],
    places: &mut [u32],
    grants: &mut [u32],
) -> Answer
    ensures { ran result m.new cells.new locals.new places.new grants.new ≡ run_reply
        m.old scripts.now events.now ids.now cells.old locals.old
        places.old grants.old }
{
    encoding::outset::clear(scripts, places, grants);
    if !agreement::is_agreeing(m) {
        return manager::internal_error();
    }
    let done = run_agreeing(m, scripts, events, ids, cells, locals, places, grants);
    let status = match done {
        Ok(()) => rules::SUCCESSFUL,
        Err(refusal) => refusal.status(),
    };
    Answer {
        status,
        value: 0,
        next: lookup::next_task(View::new(m)),
    }
}
