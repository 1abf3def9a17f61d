// The checks before a call, each with the code of its refusal, and the Classic call that it makes then. Nothing here writes.
ghost use Rattle.std.specs.Prelude.{◌≡◌, ◌≤◌, IfOk, OnOk, IsTrue, nat_abs};
ghost use Rattle.rules.specs.declared.Call.TheVariants.{Create, Delete, Obtain, Release};
ghost use Rattle.laws.specs.Choose.{choose};
ghost use Rattle.rules.specs.Status.{status_of};
ghost use Rattle.tables.specs.View.{seen};
ghost use Rattle.mapping.specs.Mapping.{entry_of};
ghost use Rattle.itron.specs.Codes.{number_of, code_or_ok, Checks};
ghost use Rattle.itron.specs.Calls.{caller_code, any_caller, task_only, in_range, exists, is_free, sematr_allowed, counts_allowed, cre_refusal, attributes_of};
ghost use Rattle.itron.specs.Calls.{del_refusal, sig_refusal, tmout_allowed, twai_refusal, wait_for};

use super::codes::Code;
use rules::{Call, Refusal, Wait};
use tables::View;

// Classic attributes of a counting semaphore.
const FIFO: u32 = 0;

const PRIORITY: u32 = 4;

// Goes on where the test holds.
#[tactic(auto, using(laws::proofs::Choose::cases))]
fn check(test: bool, otherwise: Code) -> Result<(), Code>
    ensures code { Checks result (λ rest. choose test rest (number_of otherwise)) }
    ensures holds { OnOk result (IsTrue test) }
{
    if test { Ok(()) } else { Err(otherwise) }
}

// The manager's refusal of a caller as a code: 4 is above N, 18 an interrupt, 14 a task that waits.
#[tactic(auto, unfolding(laws::specs::Choose::choose, crate::specs::Calls::caller_code))]
fn caller_code(refusal: Refusal) -> Code
    ensures { number_of result ≡ caller_code (status_of refusal) }
{
    match refusal {
        Refusal::InvalidId => Code::Id,
        _ => Code::Ctx,
    }
}

fn any_caller(v: View<'_>, caller: u32) -> Result<(), Code>
    ensures { Checks result (any_caller (seen v.entry) caller) }
{
    lookup::any_caller(v, caller).map_err(caller_code)
}

fn task_only(v: View<'_>, caller: u32) -> Result<(), Code>
    ensures { Checks result (task_only (seen v.entry) caller) }
{
    lookup::task_only(v, caller).map_err(caller_code)
}

#[tactic(auto, using(laws::proofs::Choose::cases, lookup::proofs::Model::length_slots))]
fn in_range(v: View<'_>, semid: u32) -> Result<(), Code>
    ensures { Checks result (in_range (seen v.entry) semid) }
{
    check(1 <= semid && semid <= v.slot_count(), Code::Id)
}

// The identifier that semid stands for.
#[tactic(auto, using(laws::proofs::Choose::cases))]
fn existing(list: &[u32], semid: u32) -> Result<u32, Code>
    ensures code { Checks result (exists list.now semid) }
    ensures id { IfOk result (λ id. (id ≡ entry_of list.now semid) × (1 ≤ id)) }
{
    match mapping::entries::entry_of(list, semid) {
        0 => Err(Code::NoExs),
        id => Ok(id),
    }
}

#[tactic(auto, using(laws::proofs::Choose::cases))]
fn is_free(list: &[u32], semid: u32) -> Result<(), Code>
    ensures { Checks result (is_free list.now semid) }
{
    check(mapping::entries::entry_of(list, semid) == 0, Code::Obj)
}

#[tactic(auto, using(laws::proofs::Choose::cases))]
fn sematr_allowed(sematr: u32) -> Result<(), Code>
    ensures { Checks result (sematr_allowed sematr) }
{
    check(sematr <= 1, Code::RsAtr)
}

#[tactic(auto, using(laws::proofs::Choose::cases, crate::proofs::Signed::read))]
fn are_counts_allowed(isemcnt: i32, maxsem: i32) -> bool
    ensures { result ≡ counts_allowed isemcnt maxsem }
{
    0 <= isemcnt && 1 <= maxsem && isemcnt <= maxsem
}

#[tactic(auto, using(laws::proofs::Choose::cases, crate::proofs::Signed::read))]
fn tmout_allowed(tmout: i32) -> Result<(), Code>
    ensures { Checks result (tmout_allowed tmout) }
{
    if tmout <= -2 { Err(Code::Par) } else { Ok(()) }
}

// The Classic attributes for sematr: FIFO for 0, PRIORITY for 1.
#[tactic(auto, using(laws::proofs::Choose::cases))]
fn attributes_of(sematr: u32) -> u32
    ensures { result ≡ attributes_of sematr }
{
    if sematr == 0 { FIFO } else { PRIORITY }
}

// How twai_sem waits: -1 for ever, 0 not at all, else so many ticks. A number below -1 was refused before.
#[tactic(auto, using(crate::proofs::Signed::waits))]
fn wait_for(tmout: i32) -> Wait
    ensures { result ≡ wait_for tmout }
{
    match tmout {
        ..0 => Wait::Forever,
        0 => Wait::Poll,
        _ => Wait::Ticks(tmout as u32),
    }
}

/// The checks of cre_sem, and the Classic create of a counting semaphore whose name is its semid.
#[tactic(auto, using(crate::proofs::Signed::counts), unfolding(crate::specs::Calls::cre_refusal))]
pub fn cre_sem(
    v: View<'_>,
    list: &[u32],
    caller: u32,
    semid: u32,
    sematr: u32,
    isemcnt: i32,
    maxsem: i32,
) -> Result<Call, Code>
    ensures code { code_or_ok result ≡ cre_refusal (seen v.entry) list.now caller semid sematr isemcnt maxsem }
    ensures call { IfOk result (λ c. c ≡ Create caller semid (nat_abs isemcnt) (attributes_of sematr) (nat_abs maxsem)) }
{
    task_only(v, caller)?;
    in_range(v, semid)?;
    is_free(list, semid)?;
    sematr_allowed(sematr)?;
    check(are_counts_allowed(isemcnt, maxsem), Code::Par)?;
    Ok(Call::Create {
        caller,
        name: semid,
        count: isemcnt as u32,
        attributes: attributes_of(sematr),
        maximum: maxsem as u32,
    })
}

/// The checks of del_sem, and the Classic delete of what semid stands for.
#[tactic(auto, unfolding(crate::specs::Calls::del_refusal))]
pub fn del_sem(v: View<'_>, list: &[u32], caller: u32, semid: u32) -> Result<Call, Code>
    ensures code { code_or_ok result ≡ del_refusal (seen v.entry) list.now caller semid }
    ensures call { IfOk result (λ c. c ≡ Delete caller (entry_of list.now semid)) }
{
    task_only(v, caller)?;
    in_range(v, semid)?;
    let id = existing(list, semid)?;
    Ok(Call::Delete { caller, id })
}

/// The checks of ref_sem, and the identifier that semid stands for.
#[tactic(auto, unfolding(crate::specs::Calls::sig_refusal))]
pub fn ref_sem(v: View<'_>, list: &[u32], caller: u32, semid: u32) -> Result<u32, Code>
    ensures code { code_or_ok result ≡ sig_refusal (seen v.entry) list.now caller semid }
    ensures id { IfOk result (λ id. (id ≡ entry_of list.now semid) × (1 ≤ id)) }
{
    any_caller(v, caller)?;
    in_range(v, semid)?;
    existing(list, semid)
}

/// The checks of sig_sem, which are those of ref_sem, and the Classic release of what semid stands for.
pub fn sig_sem(v: View<'_>, list: &[u32], caller: u32, semid: u32) -> Result<Call, Code>
    ensures code { code_or_ok result ≡ sig_refusal (seen v.entry) list.now caller semid }
    ensures call { IfOk result (λ c. c ≡ Release caller (entry_of list.now semid)) }
{
    let id = ref_sem(v, list, caller, semid)?;
    Ok(Call::Release { caller, id })
}

/// The checks of twai_sem, and the Classic obtain of what semid stands for.
#[tactic(auto, unfolding(crate::specs::Calls::twai_refusal))]
pub fn twai_sem(
    v: View<'_>,
    list: &[u32],
    caller: u32,
    semid: u32,
    tmout: i32,
) -> Result<Call, Code>
    ensures code { code_or_ok result ≡ twai_refusal (seen v.entry) list.now caller semid tmout }
    ensures call { IfOk result (λ c. c ≡ Obtain caller (entry_of list.now semid) (wait_for tmout)) }
{
    task_only(v, caller)?;
    in_range(v, semid)?;
    tmout_allowed(tmout)?;
    let id = existing(list, semid)?;
    Ok(Call::Obtain {
        caller,
        id,
        wait: wait_for(tmout),
    })
}
