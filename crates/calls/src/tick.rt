// Tick has no caller, and is never refused.
ghost use Rattle.std.specs.Prelude.{◌≡◌, []};
ghost use Rattle.rules.specs.declared.Call.TheVariants.{Tick};
ghost use Rattle.rules.specs.Calls.{perform, tick};
ghost use Rattle.tables.specs.Layout.{model_of};
ghost use Rattle.calls.specs.Agreeing.{Agreeing};
ghost use Rattle.calls.specs.Reply.{Does, Replied, reply};

use super::Done;
use rules::{Answer, Refusal};
use tables::View;

pub fn elapse(m: &mut [u8]) -> Result<Done, Refusal>
    requires { Agreeing m.old }
    ensures { Does m.old m.new result (λ t. tick t) }
{
    changes::tick_tables(m);
    Ok(Done::Value(0))
}

// The whole call. It comes from a timer's interrupt: with two callers a tick's records are in a frame of its own, and no other call pays for them.
pub fn tick(m: &mut [u8]) -> Answer
    requires { Agreeing m.old }
    ensures replied { Replied result m.new (reply (perform (model_of m.old) Tick [])) }
    ensures tables { model_of m.new ≡ (perform (model_of m.old) Tick []).tables }
    ensures kept { Agreeing m.new }
{
    let done = elapse(m);
    super::answer(View::new(m), done)
}
