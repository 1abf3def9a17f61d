// Flush: 4, 14, then 4. The order of waking is that of the tables before it.
ghost use Rattle.rules.specs.Calls.{flush};
ghost use Rattle.calls.specs.Agreeing.{Agreeing};
ghost use Rattle.calls.specs.Reply.{Does};

use super::Done;
use super::enter::enter;
use rules::Refusal;
use tables::View;

#[tactic(auto, using(crate::proofs::Agreeing::sized, crate::proofs::Entering::storable, crate::proofs::Ending::flushing))]
pub fn flush(m: &mut [u8], caller: u32, id: u32) -> Result<Done, Refusal>
    requires { Agreeing m.old }
    ensures { Does m.old m.new result (λ t. flush t caller id) }
{
    let v = View::new(m);
    lookup::any_caller(v, caller)?;
    let e = enter(v, id)?;
    let s = e.semaphore;
    let order = serving::serving_order(v, s);
    let emptied = s.flush();
    changes::put_slot(m, e.slot, emptied);
    changes::wake_all(m, order, s.waiters as usize, rules::UNSATISFIED);
    Ok(Done::Value(0))
}
