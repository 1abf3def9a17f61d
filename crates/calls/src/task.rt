// How a woken task learns how its wait ended.
ghost use Rattle.std.specs.Prelude.{◌≡◌};
ghost use Rattle.rules.specs.Calls.{answered};
ghost use Rattle.tables.specs.Layout.{model_of};
ghost use Rattle.tables.specs.View.{seen};
ghost use Rattle.calls.specs.Agreeing.{Agreeing};
ghost use Rattle.calls.specs.Reply.{done_status, done_value};
ghost use Rattle.calls.specs.Task.{task_answer};

use super::Done;
use rules::{Answer, Refusal};
use tables::View;

// The latest answer of a task, before the next task is asked for.
#[tactic(auto, using(crate::proofs::Reading::telling))]
fn latest(v: View<'_>, q: u32) -> Result<Done, Refusal>
    ensures { (answered (done_status result) (done_value result) (seen v.entry)).answer ≡ task_answer (seen v.entry) q }
{
    if q < 1 || v.task_count() < q {
        return Err(Refusal::InvalidId);
    }
    Ok(Done::Value(v.task(q as usize - 1).answer))
}

/// The latest answer of a task, 100 while it waits; 4 for a number outside 1..N.
#[tactic(auto, using(crate::proofs::Agreeing::sized))]
pub fn task(m: &[u8], q: u32) -> Answer
    requires { Agreeing m.now }
    ensures { result ≡ task_answer (model_of m.now) q }
{
    let v = View::new(m);
    super::answer(v, latest(v, q))
}
