// What a run on agreeing tables refuses before its first event.
#![tactic(auto)]

mod tests;

ghost use Rattle.std.specs.Prelude.{◌≡◌, true, false, MatchResult};
ghost use Rattle.laws.specs.Choose.{choose};
ghost use Rattle.rules.specs.Status.{status};
ghost use Rattle.tables.specs.View.{seen};
ghost use Rattle.calls.specs.Agreeing.{Agreeing};
ghost use Rattle.encoding.specs.Events.{events_of};
ghost use Rattle.refusals.specs.Tests.{scripts_alone};
ghost use Rattle.refusals.specs.Defined.{input_of, lengths_fit, is_defined, is_permitted, refusal_where};

use encoding::{memory, scripts};
use rules::Refusal;
use tables::View;

const MAX_CELLS: usize = 64;

// What a count of grants can hold.
const MAX_EVENTS: usize = 4294967295;

// What a run demands: what does not hold is refused.
fn demand(holds: bool, refusal: Refusal) -> Result<(), Refusal>
    ensures { MatchResult result (λ x. holds ≡ true) (λ e. (holds ≡ false) × (e ≡ refusal)) }
{
    if holds { Ok(()) } else { Err(refusal) }
}

// The rule for lengths: 11.
fn check_lengths(scripts: &[u32], events: &[u32], places: &[u32]) -> Result<(), Refusal>
    ensures { status result ≡ choose (lengths_fit scripts.now events.now places.now) 0 11 }
{
    demand(tests::are_rows_fit(scripts), Refusal::NotDefined)?;
    demand(
        scripts::script_count(scripts) <= places.len() / 2,
        Refusal::NotDefined,
    )?;
    demand(events.len() <= MAX_EVENTS, Refusal::NotDefined)
}

// Everything else that is refused with 11.
fn check_input(
    v: View<'_>,
    scripts: &[u32],
    events: &[u32],
    ids: &[u32],
    cells: &[u32],
    locals: &[u32],
) -> Result<(), Refusal>
    ensures { status result ≡ choose (is_defined (seen v.entry)
        (input_of scripts.now ids.now cells.now locals.now) (events_of events.now)) 0 11 }
{
    demand(cells.len() <= MAX_CELLS, Refusal::NotDefined)?;
    demand(ids.len() == cells.len(), Refusal::NotDefined)?;
    demand(locals.len() == memory::ALL_LOCALS, Refusal::NotDefined)?;
    demand(tests::are_scripts_short(scripts), Refusal::NotDefined)?;
    demand(
        tests::are_sections_fit(v, scripts, ids),
        Refusal::NotDefined,
    )?;
    demand(tests::is_one_each(scripts), Refusal::NotDefined)?;
    demand(tests::are_events(events), Refusal::NotDefined)
}

// What is refused with 4: a script's task that is not ready, and an event that is not allowed.
fn check_tasks(v: View<'_>, scripts: &[u32], events: &[u32]) -> Result<(), Refusal>
    ensures { status result ≡ choose (is_permitted (seen v.entry) (scripts_alone scripts.now)
        (events_of events.now)) 0 4 }
{
    demand(tests::are_scripts_ready(v, scripts), Refusal::InvalidId)?;
    demand(tests::are_allowed(scripts, events), Refusal::InvalidId)
}

/// Why a run on agreeing tables is refused: 11 over the whole input, then 4.
pub fn refusal(
    v: View<'_>,
    scripts: &[u32],
    events: &[u32],
    ids: &[u32],
    cells: &[u32],
    locals: &[u32],
    places: &[u32],
) -> Result<(), Refusal>
    requires { Agreeing v.bytes.now }
    ensures { status result ≡ refusal_where (seen v.entry)
        (input_of scripts.now ids.now cells.now locals.now) scripts.now events.now
        places.now }
{
    check_lengths(scripts, events, places)?;
    check_input(v, scripts, events, ids, cells, locals)?;
    check_tasks(v, scripts, events)
}
