// A task's turn: what it does, by its script, and the place that it leads to.
ghost use Rattle.std.specs.Prelude.{◌≡◌, ℕ, ◌+◌, ◌*◌, ◌<◌, ◌≤◌, true, List, length, Some};
ghost use Rattle.rules.specs.Machine.{Tables};
ghost use Rattle.tables.specs.Layout.{tables_length, laid};
ghost use Rattle.calls.specs.Agreeing.{Agreeing};
ghost use Rattle.sections.specs.Scripts.{script_at, index_of, do_step};
ghost use Rattle.sections.specs.Run.{State, acted, act_of, event_of};
ghost use Rattle.sections.specs.Run.Event.{Turn};
ghost use Rattle.encoding.specs.Rows.{step_of, scripts_of};
ghost use Rattle.encoding.specs.Left.{section_from, script_from};
ghost use Rattle.encoding.specs.Laid.{memory, reaches, place_of, PutsPlace};
ghost use Rattle.runner.specs.State.{Lent};
ghost use Rattle.runner.specs.Turns.{act_from, doing_in, doing_at, act_reaches, Countable, Stepped, CallsAt, Stands, RoomToAct};

use super::settle;
use encoding::memory;
use encoding::places::{self, Place};
use encoding::rows::Step;
use encoding::scripts::{self, Script, Section};
use rules::Call;

/// What a turn does: a call or a step. Then the script stands at the place.
#[derive(Clone, Copy)]
pub enum Act {
    Calls { call: Call, place: Place },
    Steps { step: Option<Step>, place: Place },
}

// In a section: the obtain, one step, or the release.
fn act_in(section: Section<'_>, q: u32, place: Place) -> Act
    ensures { place.section < 4294967295 → length (section_from section.entry).steps < 4294967295
        → act_from (Some result) ≡ doing_in q (section_from section.entry) (place_of place) }
{
    if place.position == 0 {
        let wait = rules::wait_of(section.options, section.timeout);
        let call = Call::Obtain {
            caller: q,
            id: section.id,
            wait,
        };
        return Act::Calls { call, place };
    }
    match section.step(place.position as usize - 1) {
        Some(step) => {
            let position = std::num::wrapping_add_u32(place.position, 1);
            let place = Place { position, ..place };
            Act::Steps { step, place }
        }
        None => {
            let call = Call::Release {
                caller: q,
                id: section.id,
            };
            let section = std::num::wrapping_add_u32(place.section, 1);
            let place = Place {
                section,
                position: 0,
            };
            Act::Calls { call, place }
        }
    }
}

// What a turn of task q does by its script, from a place. Nothing while the task waits, or where its script has ended.
fn act_of(m: &[u8], script: Script<'_>, q: u32, place: Place) -> Option<Act>
    requires { (length m.now ≡ tables_length) × (1 ≤ q) × (q ≤ 32) }
    ensures { (t : Tables) → m.now ≡ laid t → Countable (script_from script.entry).sections
        → act_from result ≡ doing_at t q (script_from script.entry).sections (place_of place) }
{
    let v = tables::load_task(m, q as usize - 1);
    if settle::is_waiting(v) {
        return None;
    }
    let section = script.section(place.section as usize)?;
    Some(act_in(section, q, place))
}

// The script moves on, and its task makes the call.
fn call_at(
    m: &mut [u8],
    scripts: &[u32],
    i: usize,
    call: Call,
    place: Place,
    places: &mut [u32],
    grants: &mut [u32],
)
    requires { Agreeing m.old × Lent scripts.now places.old grants.old × (2 * i + 1 < length places.old) }
    ensures done { CallsAt scripts.now i call (place_of place) m.old places.old grants.old
        m.new places.new grants.new }
    ensures kept { Agreeing m.new }
{
    places::put_place(places, i, place);
    settle::make_call(m, scripts, call, &[], places, grants);
}

// Task q takes a step, and its script moves on.
fn step_at(
    cells: &mut [u32],
    locals: &mut [u32],
    i: usize,
    q: u32,
    step: Option<Step>,
    place: Place,
    places: &mut [u32],
)
    requires { (1 ≤ q) × (q ≤ 32) × (length locals.old ≡ 256) × (reaches (length cells.old) (step_of step) ≡ true) × (2 * i + 1 < length places.old) }
    ensures done { memory cells.new locals.new ≡ do_step q (step_of step) (memory cells.old locals.old) }
    ensures moves { PutsPlace places.old i (place_of place) places.new }
{
    memory::do_step(cells, locals, q, step);
    places::put_place(places, i, place);
}

// Script i of task q does what its turn is to do. What is lent to be written stays apart: a struct of several such slices would not carry its writes back.
fn do_act(
    m: &mut [u8],
    scripts: &[u32],
    cells: &mut [u32],
    locals: &mut [u32],
    i: usize,
    q: u32,
    a: Option<Act>,
    places: &mut [u32],
    grants: &mut [u32],
)
    requires { Agreeing m.old × Lent scripts.now places.old grants.old × (1 ≤ q) × (q ≤ 32) × (length locals.old ≡ 256) ×
        (act_reaches (length cells.old) (act_from a) ≡ true) × (2 * i + 1 < length places.old) }
    ensures done { (places₀ grants₀ : List ℕ) (s : State) → Stands places₀ grants₀ s m.old cells.old
        locals.old places.old grants.old
        → i < length s.places → (script_at (scripts_of scripts.now) i).task ≡ q
        → RoomToAct (scripts_of scripts.now) s i (act_from a) → Stands places₀ grants₀
        (acted (scripts_of scripts.now) s i (act_from a)) m.new cells.new locals.new places.new
        grants.new }
    ensures kept { Agreeing m.new }
{
    let Some(act) = a else {
        return;
    };
    match act {
        Act::Calls { call, place } => call_at(m, scripts, i, call, place, places, grants),
        Act::Steps { step, place } => step_at(cells, locals, i, q, step, place, places),
    }
}

// A turn of task q, which has a script.
pub fn turn(
    m: &mut [u8],
    scripts: &[u32],
    cells: &mut [u32],
    locals: &mut [u32],
    q: u32,
    places: &mut [u32],
    grants: &mut [u32],
)
    requires { Agreeing m.old × Lent scripts.now places.old grants.old × Stepped scripts.now (length cells.old) ×
        (length locals.old ≡ 256) × (index_of q (scripts_of scripts.now) < length (scripts_of scripts.now)) }
    ensures done { (places₀ grants₀ : List ℕ) (s : State) → Stands places₀ grants₀ s m.old cells.old
        locals.old places.old grants.old
        → length s.places ≡ length (scripts_of scripts.now)
        → RoomToAct (scripts_of scripts.now) s (index_of q (scripts_of scripts.now))
        (act_of (scripts_of scripts.now) s (index_of q (scripts_of scripts.now)))
        → Stands places₀ grants₀ (event_of (scripts_of scripts.now) s (Turn q)) m.new cells.new locals.new
        places.new grants.new }
    ensures kept { Agreeing m.new }
{
    let Some((i, script)) = scripts::script_of(scripts, q) else {
        return;
    };
    let a = act_of(m, script, q, places::place_at(places, i));
    do_act(m, scripts, cells, locals, i, q, a, places, grants);
}
