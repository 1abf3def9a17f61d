// The events of a run, one after another.
ghost use Rattle.std.specs.Prelude.{◌≡◌, ℕ, true, List, length};
ghost use Rattle.calls.specs.Agreeing.{Agreeing};
ghost use Rattle.sections.specs.Run.{State, event_of, run_from};
ghost use Rattle.sections.specs.Refusals.{each_event};
ghost use Rattle.encoding.specs.Rows.{scripts_of};
ghost use Rattle.encoding.specs.Events.{events_of};
ghost use Rattle.encoding.specs.Kinds.{event_from};
ghost use Rattle.runner.specs.State.{Lent};
ghost use Rattle.runner.specs.Turns.{Stepped, Stands, RoomAt, RoomAlong, is_run};

use super::{settle, turns};
use encoding::events::{Event, Events};

// A turn of a task that has a script, or a call by someone else.
fn run_event(
    m: &mut [u8],
    scripts: &[u32],
    event: Option<Event<'_>>,
    cells: &mut [u32],
    locals: &mut [u32],
    places: &mut [u32],
    grants: &mut [u32],
)
    requires { Agreeing m.old × Lent scripts.now places.old grants.old × Stepped scripts.now (length cells.old) ×
        (length locals.old ≡ 256) × (is_run (scripts_of scripts.now) (event_from event) ≡ true) }
    ensures done { (places₀ grants₀ : List ℕ) (s : State) → Stands places₀ grants₀ s m.old cells.old
        locals.old places.old grants.old
        → length s.places ≡ length (scripts_of scripts.now)
        → RoomAt (scripts_of scripts.now) s (event_from event.entry)
        → Stands places₀ grants₀ (event_of (scripts_of scripts.now) s (event_from event.entry)) m.new cells.new
        locals.new places.new grants.new }
    ensures kept { Agreeing m.new }
{
    let Some(event) = event else {
        return;
    };
    match event {
        Event::Turn { task } => turns::turn(m, scripts, cells, locals, task, places, grants),
        Event::Call { call, priorities } => {
            settle::make_call(m, scripts, call, priorities, places, grants)
        }
    }
}

/// All events. Each gets what the one before left.
pub fn run_events(
    m: &mut [u8],
    scripts: &[u32],
    events: &[u32],
    cells: &mut [u32],
    locals: &mut [u32],
    places: &mut [u32],
    grants: &mut [u32],
)
    requires { Agreeing m.old × Lent scripts.now places.old grants.old × Stepped scripts.now (length cells.old) ×
        (length locals.old ≡ 256) × (each_event (events_of events.now) (is_run (scripts_of scripts.now)) ≡ true) }
    ensures done { (places₀ grants₀ : List ℕ) (s : State) → Stands places₀ grants₀ s m.old cells.old
        locals.old places.old grants.old
        → RoomAlong (scripts_of scripts.now) s (events_of events.now)
        → Stands places₀ grants₀ (run_from (scripts_of scripts.now) s (events_of events.now)) m.new cells.new
        locals.new places.new grants.new }
    ensures kept { Agreeing m.new }
{
    for event in Events::new(events) {
        run_event(m, scripts, event, cells, locals, places, grants);
    }
}
