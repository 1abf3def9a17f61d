// The calls on agreeing tables, in place on lent bytes: checks that only read, then one step. A module each, in document 01's order. They take the bytes
// themselves, since their steps break agreement and restore it; `Tables`, whose methods keep it, stands above them.
#![tactic(auto)]

mod create;
mod delete;
mod enter;
mod flush;
pub mod ident;
mod lent;
mod obtain;
mod release;
mod start;
pub mod task;
pub mod tick;

ghost use Rattle.std.specs.Prelude.{◌≡◌};
ghost use Rattle.rules.specs.Calls.{answered, perform};
ghost use Rattle.tables.specs.Layout.{model_of};
ghost use Rattle.tables.specs.View.{seen};
ghost use Rattle.calls.specs.Agreeing.{Agreeing};
ghost use Rattle.calls.specs.Reply.{Does, Replied, reply, done_status, done_value};

pub use lent::Tables;
use rules::{Answer, Call, Refusal};
use tables::View;

/// What a call that is not refused has done: it is over, with its value, or its caller waits and has no value yet.
#[derive(Clone, Copy, Debug, PartialEq, Eq)]
pub enum Done {
    Value(u32),
    Waits,
}

// What every call ends with: its answer, with the next task as the tables are then. Here alone a refusal is made a number.
fn answer(v: View<'_>, done: Result<Done, Refusal>) -> Answer
    ensures { result ≡ (answered (done_status done) (done_value done) (seen v.entry)).answer }
{
    let (status, value) = match done {
        Ok(Done::Value(value)) => (rules::SUCCESSFUL, value),
        Ok(Done::Waits) => (rules::WAITING, 0),
        Err(refusal) => (refusal.status(), 0),
    };
    Answer {
        status,
        value,
        next: lookup::next_task(v),
    }
}

#[tactic(auto, unfolding(rules::specs::Calls::perform))]
fn step(m: &mut [u8], call: Call, priorities: &[u32]) -> Result<Done, Refusal>
    requires { Agreeing m.old }
    ensures { Does m.old m.new result (λ t. perform t call priorities.now) }
{
    match call {
        Call::Start { slots } => start::start(m, slots, priorities),
        Call::Create {
            caller,
            name,
            count,
            attributes,
            maximum,
        } => create::create(m, caller, name, count, attributes, maximum),
        Call::Ident { name } => ident::find(m, name),
        Call::Delete { caller, id } => delete::delete(m, caller, id),
        Call::Obtain { caller, id, wait } => obtain::obtain(m, caller, id, wait),
        Call::Release { caller, id } => release::release(m, caller, id),
        Call::Flush { caller, id } => flush::flush(m, caller, id),
        Call::Tick => tick::elapse(m),
    }
}

// Any call, with the priorities that a start takes beside it. The tables agree again afterwards.
pub fn perform(m: &mut [u8], call: Call, priorities: &[u32]) -> Answer
    requires { Agreeing m.old }
    ensures replied { Replied result m.new (reply (perform (model_of m.old) call priorities.now)) }
    ensures tables { model_of m.new ≡ (perform (model_of m.old) call priorities.now).tables }
    ensures kept { Agreeing m.new }
{
    let done = step(m, call, priorities);
    answer(View::new(m), done)
}
