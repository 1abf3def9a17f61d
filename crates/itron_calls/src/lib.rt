// The semaphore calls of ITRON 3.0 over the manager's, on lent tables and a lent list of any length and content. Each tests first that both agree.
#![tactic(auto)]

ghost use Rattle.std.specs.Prelude.{◌≡◌, IsTrue};
ghost use Rattle.rules.specs.Machine.{next};
ghost use Rattle.tables.specs.View.{seen};
ghost use Rattle.calls.specs.Agreeing.{Agreeing};
ghost use Rattle.itron.specs.Codes.{number_of};
ghost use Rattle.itron.specs.Calls.{cre_sem, del_sem, sig_sem, twai_sem, wai_sem, preq_sem};
ghost use Rattle.itron_calls.specs.Reply.{both_agree, code_reply, ref_reply, delete_reply, Leaves};

use calls::Tables;
use itron::codes::Code;
use itron::{Coded, Reference, answers, checks, codes};
use rules::{Answer, Call, Refusal};
use tables::View;

#[tactic(auto, using(crate::proofs::Replying::tests))]
fn is_agreeing(m: &[u8], list: &[u32]) -> bool
    ensures both { result ≡ both_agree m.now list.now }
    ensures tables { IsTrue result → Agreeing m.now }
{
    agreement::is_agreeing(m) && mapping::is_agreeing(View::new(m), list)
}

fn refused(v: View<'_>, code: Code) -> Coded
    ensures { result ≡ record { code = number_of code; next = next (seen v.entry) } }
{
    answers::refused(code, lookup::next_task(v))
}

/// Creates a counting semaphore that semid stands for, with the count isemcnt and at most maxsem. sematr is 0 for FIFO, 1 for priority.
/// E_SYS, E_CTX, E_ID, E_OBJ, E_RSATR, E_PAR or E_NOMEM.
#[tactic(auto, using(crate::proofs::Replying::leaves_alone))]
pub fn cre_sem(
    m: &mut [u8],
    list: &mut [u32],
    caller: u32,
    semid: u32,
    sematr: u32,
    isemcnt: i32,
    maxsem: i32,
) -> Coded
    ensures { Leaves result m.new list.new
        (code_reply m.old list.old (λ t l. cre_sem t l caller semid sematr isemcnt maxsem)) }
{
    if !is_agreeing(m, list) {
        return answers::disagreed();
    }
    let mut t = Tables::new(m);
    match checks::cre_sem(t.view(), list, caller, semid, sematr, isemcnt, maxsem) {
        Ok(call) => {
            let a = t.perform(call, &[]);
            mapping::entries::remember(list, semid, a);
            answers::over(a, Refusal::TooMany.status(), Code::NoMem.number())
        }
        Err(code) => refused(t.view(), code),
    }
}

/// Deletes the semaphore that semid stands for. E_SYS, E_CTX, E_ID or E_NOEXS.
#[tactic(auto, using(crate::proofs::Replying::leaves_alone))]
pub fn del_sem(m: &mut [u8], list: &mut [u32], caller: u32, semid: u32) -> Coded
    ensures { Leaves result m.new list.new (code_reply m.old list.old (λ t l. del_sem t l caller semid)) }
{
    if !is_agreeing(m, list) {
        return answers::disagreed();
    }
    let mut t = Tables::new(m);
    match checks::del_sem(t.view(), list, caller, semid) {
        Ok(call) => {
            let deleted = t.perform(call, &[]);
            mapping::entries::remember(list, semid, deleted);
            // Behind its checks no refusal of delete's is left that would have a code of its own.
            answers::plain(deleted)
        }
        Err(code) => refused(t.view(), code),
    }
}

/// Gives one back. E_SYS, E_CTX, E_ID, E_NOEXS, or E_QOVR where the count is at its maximum.
#[tactic(auto, using(crate::proofs::Replying::leaves_alone))]
pub fn sig_sem(m: &mut [u8], list: &[u32], caller: u32, semid: u32) -> Coded
    ensures { Leaves result m.new list.now (code_reply m.old list.now (λ t l. sig_sem t l caller semid)) }
{
    if !is_agreeing(m, list) {
        return answers::disagreed();
    }
    let mut t = Tables::new(m);
    match checks::sig_sem(t.view(), list, caller, semid) {
        Ok(call) => {
            let a = t.perform(call, &[]);
            answers::over(a, Refusal::Unsatisfied.status(), Code::QOvr.number())
        }
        Err(code) => refused(t.view(), code),
    }
}

/// Takes one, or waits: tmout is -1 for ever, 0 not at all, else a number of ticks. 100 where a wait begins.
/// E_SYS, E_CTX, E_ID, E_PAR, E_NOEXS, or E_TMOUT where a poll finds none.
#[tactic(auto, using(crate::proofs::Replying::leaves_alone))]
pub fn twai_sem(m: &mut [u8], list: &[u32], caller: u32, semid: u32, tmout: i32) -> Coded
    ensures { Leaves result m.new list.now (code_reply m.old list.now (λ t l. twai_sem t l caller semid tmout)) }
{
    if !is_agreeing(m, list) {
        return answers::disagreed();
    }
    let mut t = Tables::new(m);
    match checks::twai_sem(t.view(), list, caller, semid, tmout) {
        Ok(call) => {
            let a = t.perform(call, &[]);
            answers::over(a, Refusal::Unsatisfied.status(), Code::TmOut.number())
        }
        Err(code) => refused(t.view(), code),
    }
}

/// As twai_sem, for ever.
pub fn wai_sem(m: &mut [u8], list: &[u32], caller: u32, semid: u32) -> Coded
    ensures { Leaves result m.new list.now (code_reply m.old list.now (λ t l. wai_sem t l caller semid)) }
{
    twai_sem(m, list, caller, semid, codes::TMO_FEVR)
}

/// As twai_sem, not waiting.
pub fn preq_sem(m: &mut [u8], list: &[u32], caller: u32, semid: u32) -> Coded
    ensures { Leaves result m.new list.now (code_reply m.old list.now (λ t l. preq_sem t l caller semid)) }
{
    twai_sem(m, list, caller, semid, codes::TMO_POL)
}

/// Tells the count, and whether a task waits. E_SYS, E_CTX, E_ID or E_NOEXS.
#[tactic(auto, using(laws::proofs::Choose::cases, calls::proofs::Agreeing::sized), unfolding(crate::specs::Reply::ref_reply, itron::specs::Calls::ref_sem))]
pub fn ref_sem(m: &[u8], list: &[u32], caller: u32, semid: u32) -> Reference
    ensures { result ≡ ref_reply m.now list.now caller semid }
{
    if !is_agreeing(m, list) {
        return answers::told_nothing(Code::Sys.number(), 0);
    }
    let v = View::new(m);
    let next = lookup::next_task(v);
    match checks::ref_sem(v, list, caller, semid) {
        Ok(id) => {
            // Never none: an entry of a list that agrees names a slot.
            let Some(n) = lookup::slot_named(v, id) else {
                return answers::told_nothing(Code::NoExs.number(), next);
            };
            let s = v.head(n as usize - 1);
            Reference {
                code: codes::E_OK,
                next,
                exinf: 0,
                wtsk: answers::wtsk_of(s.waiters),
                semcnt: s.count as i32,
            }
        }
        Err(code) => answers::told_nothing(code.number(), next),
    }
}

/// Classic delete for tables that have a list: done, it drops the mapping, if there is one.
#[tactic(auto, using(crate::proofs::Replying::leaves_alone))]
pub fn delete_mapped(m: &mut [u8], list: &mut [u32], caller: u32, id: u32) -> Answer
    ensures { Leaves result m.new list.new (delete_reply m.old list.old caller id) }
{
    if !is_agreeing(m, list) {
        return manager::internal_error();
    }
    let mut t = Tables::new(m);
    let a = t.perform(Call::Delete { caller, id }, &[]);
    if a.status == rules::SUCCESSFUL {
        mapping::forget(list, id);
    }
    a
}
