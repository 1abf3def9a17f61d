// What the calls ask of the tables. Nothing here writes.
#![tactic(auto)]

pub mod looks;
pub mod working;

ghost use Rattle.std.specs.Prelude.{◌≡◌, pred, ◌≤◌, ltb, eqb};
ghost use Rattle.laws.specs.Choose.{◌and◌, isnt};
ghost use Rattle.rules.specs.Machine.{next, slot_named};
ghost use Rattle.rules.specs.Calls.{task_only, any_caller, caller_refusal, open_slot};
ghost use Rattle.rules.specs.Status.{status};
ghost use Rattle.rules.specs.Found.{Finds};
ghost use Rattle.tables.specs.View.{seen};

use rules::{Best, Refusal};
use tables::View;

/// The next task, 0 for none: it goes into an answer as it is, and there the C interface has 0.
pub fn next_task(v: View<'_>) -> u32
    ensures { result ≡ next (seen v.entry) }
{
    let tasks = v.task_count() as usize;
    let lenders = working::load_lenders(v);
    // 0 for none, as the rules' `most_urgent` and the answers in C have it
    let mut best = Best {
        task: 0,
        priority: rules::ABOVE_ALL,
    };
    for k in 0..v.ready_count() {
        let q = v.ready_entry(k as usize);
        let p = working::urgency(v, &lenders.to, q, lenders.links);
        best = rules::better(best, tasks, q, p);
    }
    best.task
}

/// Where task q stands in the list of tasks, which is counted from 0.
pub fn index_of(q: u32) -> u32
    ensures { result ≡ pred q }
{
    q.saturating_sub(1)
}

// One of the tasks, and not waiting.
#[tactic(auto, using(crate::proofs::Answers::refusing))]
fn calling_task(v: View<'_>, caller: u32) -> Result<(), Refusal>
    requires { 1 ≤ caller }
    ensures { status result ≡ caller_refusal (seen v.entry) caller }
{
    if v.task_count() < caller {
        return Err(Refusal::InvalidId);
    }
    let task = v.task((caller - 1) as usize);
    if task.answer == rules::WAITING {
        return Err(Refusal::IncorrectState);
    }
    Ok(())
}

/// Whether a caller may create, delete or obtain.
#[tactic(auto, using(laws::proofs::Choose::cases, crate::proofs::CallerAndSlot::task_only_task))]
pub fn task_only(v: View<'_>, caller: u32) -> Result<(), Refusal>
    ensures { status result ≡ task_only (seen v.entry) caller 0 }
{
    if caller == 0 {
        return Err(Refusal::CalledFromIsr);
    }
    calling_task(v, caller)
}

/// Whether a caller may release or flush.
#[tactic(auto, using(laws::proofs::Choose::cases, crate::proofs::CallerAndSlot::any_caller_task))]
pub fn any_caller(v: View<'_>, caller: u32) -> Result<(), Refusal>
    ensures { status result ≡ any_caller (seen v.entry) caller 0 }
{
    if caller == 0 {
        return Ok(());
    }
    calling_task(v, caller)
}

// Whether a slot with these words is free and can be used again.
#[tactic(auto, using(laws::proofs::Choose::cases))]
fn is_open(live: u32, generation: u32) -> bool
    ensures { result ≡ (isnt (eqb live 1) and ltb generation 65535) }
{
    live != 1 && generation < rules::MAX_GENERATION
}

/// The lowest free slot that can be used again.
pub fn open_slot(v: View<'_>) -> Option<u32>
    ensures { Finds result (open_slot (seen v.entry)) }
{
    for i in 0..v.slot_count() {
        let at = i as usize;
        if is_open(v.slot_live(at), v.slot_generation(at)) {
            return Some(i + 1);
        }
    }
    None
}

/// The slot of the live semaphore that an identifier names.
#[tactic(auto, using(crate::proofs::Answers::naming))]
pub fn slot_named(v: View<'_>, id: u32) -> Option<u32>
    ensures { Finds result (slot_named (seen v.entry) id) }
{
    let n = id % rules::GENERATION_UNIT;
    if n == 0 || v.slot_count() < n {
        return None;
    }
    let at = (n - 1) as usize;
    if v.slot_live(at) == 1 && v.slot_generation(at) == id / rules::GENERATION_UNIT {
        Some(n)
    } else {
        None
    }
}
