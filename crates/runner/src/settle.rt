// What a call says to the scripts' obtains: the place of each that is answered moves, and a grant is added.
ghost use Rattle.std.specs.Prelude.{◌≡◌, ℕ, ◌<◌, ◌≤◌, false, length, slice_index_or, unwrap_or};
ghost use Rattle.rules.specs.Machine.{Tables, no_task, waits};
ghost use Rattle.tables.specs.Layout.{tables_length, laid};
ghost use Rattle.sections.specs.Scripts.{script_at};
ghost use Rattle.encoding.specs.Rows.{scripts_of};
ghost use Rattle.runner.specs.State.{told, Lent, Settles, Called};
ghost use Rattle.sections.specs.Run.{obtainer_of};
ghost use Rattle.calls.specs.Agreeing.{Agreeing};

use encoding::places;
use encoding::scripts::Scripts;
use rules::{Call, Task};

pub fn is_waiting(v: Task) -> bool
    ensures { result ≡ waits v }
{
    v.answer == rules::WAITING
}

// The flags of the tasks that wait. A place beyond the last task is 0, and no wait: so a layout's bytes say, and no view, which has the tasks alone.
pub fn who_waits(m: &[u8]) -> [bool; 32]
    requires { length m.now ≡ tables_length }
    ensures { (t : Tables) → m.now ≡ laid t → (i : ℕ) → i < 32 → slice_index_or result i false ≡ waits (slice_index_or t.tasks i no_task) }
{
    // written one by one: of array::from_fn a proof knows no element
    let mut flags = [false; 32];
    for i in 0..32 {
        flags[i] = is_waiting(tables::load_task(m, i));
    }
    flags
}

// What a call says to the obtain of task q: the ending of its wait, or the status of the obtain itself; 100 where it says nothing.
fn said(m: &[u8], waited: [bool; 32], obtainer: Option<u32>, status: u32, q: u32) -> u32
    requires { (length m.now ≡ tables_length) × (1 ≤ q) × (q ≤ 32) }
    ensures { (t : Tables) → m.now ≡ laid t → result ≡ told waited t (unwrap_or obtainer 0) status q }
{
    let i = q as usize - 1;
    if waited[i] {
        return tables::load_task(m, i).answer;
    }
    match obtainer {
        Some(caller) if caller == q => status,
        _ => rules::WAITING,
    }
}

// The answers of a call to the obtains of all scripts.
fn settle(
    m: &[u8],
    scripts: &[u32],
    waited: [bool; 32],
    obtainer: Option<u32>,
    status: u32,
    places: &mut [u32],
    grants: &mut [u32],
)
    requires { (length m.now ≡ tables_length) × Lent scripts.now places.old grants.old }
    ensures { (t : Tables) → m.now ≡ laid t → Settles scripts.now places.old grants.old
        (λ i. told waited t (unwrap_or obtainer 0) status (script_at (scripts_of scripts.now) i).task) places.new grants.new }
{
    for (i, script) in Scripts::new(scripts).enumerate() {
        let answer = said(m, waited, obtainer, status, script.task);
        places::answered(places, grants, i, script.task, answer);
    }
}

// The task whose obtain a call is.
fn obtainer_of(call: Call) -> Option<u32>
    ensures { unwrap_or result 0 ≡ obtainer_of call }
{
    match call {
        Call::Obtain { caller, .. } => Some(caller),
        _ => None,
    }
}

/// A call on agreeing tables. What it says to the scripts' obtains is noted at once, whoever makes it.
// On bytes from here up: by `calls::Tables` each clause `kept` would be one on the loan, and `said` reads bytes in any case.
pub fn make_call(
    m: &mut [u8],
    scripts: &[u32],
    call: Call,
    priorities: &[u32],
    places: &mut [u32],
    grants: &mut [u32],
)
    requires { Agreeing m.old × Lent scripts.now places.old grants.old }
    ensures noted { Called scripts.now (record { call = call; priorities = priorities.now }) m.old
        places.old grants.old m.new places.new grants.new }
    ensures kept { Agreeing m.new }
{
    let waited = who_waits(m);
    let obtainer = obtainer_of(call);
    let answer = calls::perform(m, call, priorities);
    settle(m, scripts, waited, obtainer, answer.status, places, grants);
}
