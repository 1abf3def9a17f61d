// The entry points on lent bytes of any length and content. Each tests first that the bytes are tables that agree.
#![tactic(auto)]

ghost use Rattle.std.specs.Prelude.{◌≡◌, []};
ghost use Rattle.rules.specs.declared.Call.TheVariants.{Start, Create, Ident, Delete, Obtain, Release, Flush, Tick};
ghost use Rattle.manager.specs.Entry.{Replied, no_next, reply_to, looked_in, task_reply};

use calls::Tables;
use calls::ident::Searched;
use rules::{Answer, Call, Wait};

// What tables that do not agree are answered.
pub fn internal_error() -> Answer
    ensures { result ≡ no_next }
{
    Answer {
        status: rules::INTERNAL_ERROR,
        value: 0,
        next: 0,
    }
}

// A call as an enum, with the priorities that a start takes beside it.
#[tactic(auto, using(crate::proofs::Tested::testing))]
pub fn call(m: &mut [u8], c: Call, priorities: &[u32]) -> Answer
    ensures { Replied result m.new (reply_to m.old c priorities.now) }
{
    if !agreement::is_agreeing(m) {
        return internal_error();
    }
    let mut t = Tables::new(m);
    t.perform(c, priorities)
}

pub fn start(m: &mut [u8], slots: u32, priorities: &[u32]) -> Answer
    ensures { Replied result m.new (reply_to m.old (Start slots) priorities.now) }
{
    call(m, Call::Start { slots }, priorities)
}

pub fn create(
    m: &mut [u8],
    caller: u32,
    name: u32,
    count: u32,
    attributes: u32,
    maximum: u32,
) -> Answer
    ensures { Replied result m.new (reply_to m.old (Create caller name count attributes maximum) []) }
{
    let c = Call::Create {
        caller,
        name,
        count,
        attributes,
        maximum,
    };
    call(m, c, &[])
}

pub fn ident(m: &[u8], name: u32) -> Answer
    ensures { Replied result m.now (reply_to m.now (Ident name) []) }
{
    ident_looked(m, name).answer
}

// And how many slots the search looked at.
#[tactic(auto, using(crate::proofs::Tested::testing), unfolding(rules::specs::Calls::perform))]
pub fn ident_looked(m: &[u8], name: u32) -> Searched
    ensures replied { Replied result.answer m.now (reply_to m.now (Ident name) []) }
    ensures looked { result.looked ≡ looked_in m.now name }
{
    if !agreement::is_agreeing(m) {
        return Searched {
            answer: internal_error(),
            looked: 0,
        };
    }
    calls::ident::ident(m, name)
}

pub fn delete(m: &mut [u8], caller: u32, id: u32) -> Answer
    ensures { Replied result m.new (reply_to m.old (Delete caller id) []) }
{
    call(m, Call::Delete { caller, id }, &[])
}

pub fn obtain(m: &mut [u8], caller: u32, id: u32, wait: Wait) -> Answer
    ensures { Replied result m.new (reply_to m.old (Obtain caller id wait) []) }
{
    call(m, Call::Obtain { caller, id, wait }, &[])
}

pub fn release(m: &mut [u8], caller: u32, id: u32) -> Answer
    ensures { Replied result m.new (reply_to m.old (Release caller id) []) }
{
    call(m, Call::Release { caller, id }, &[])
}

pub fn flush(m: &mut [u8], caller: u32, id: u32) -> Answer
    ensures { Replied result m.new (reply_to m.old (Flush caller id) []) }
{
    call(m, Call::Flush { caller, id }, &[])
}

#[tactic(auto, using(crate::proofs::Tested::testing))]
pub fn tick(m: &mut [u8]) -> Answer
    ensures { Replied result m.new (reply_to m.old Tick []) }
{
    if !agreement::is_agreeing(m) {
        return internal_error();
    }
    let mut t = Tables::new(m);
    t.tick()
}

// The latest answer of a task, 100 while it waits: how a woken task learns how its wait ended.
#[tactic(auto, using(crate::proofs::Tested::testing, laws::proofs::Choose::cases), unfolding(crate::specs::Entry::task_reply))]
pub fn task(m: &[u8], q: u32) -> Answer
    ensures { result ≡ task_reply m.now q }
{
    if !agreement::is_agreeing(m) {
        return internal_error();
    }
    calls::task::task(m, q)
}
