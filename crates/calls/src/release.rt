// Release: 4, 14, then 4, 23, 13.
ghost use Rattle.rules.specs.Calls.{release};
ghost use Rattle.calls.specs.Agreeing.{Agreeing};
ghost use Rattle.calls.specs.Reply.{Does};

use super::Done;
use super::enter::enter;
use rules::Refusal;
use tables::View;

#[tactic(auto, using(crate::proofs::Agreeing::sized, crate::proofs::Entering::storable, crate::proofs::Releasing::releasing))]
pub fn release(m: &mut [u8], caller: u32, id: u32) -> Result<Done, Refusal>
    requires { Agreeing m.old }
    ensures { Does m.old m.new result (λ t. release t caller id) }
{
    let v = View::new(m);
    lookup::any_caller(v, caller)?;
    let e = enter(v, id)?;
    let s = e.semaphore;
    let place = serving::served_place(v, s);
    let given = s.give(caller, place)?;
    changes::put_slot(m, e.slot, given.semaphore);
    if let Some(q) = given.woken {
        changes::wake(m, q, rules::SUCCESSFUL);
    }
    Ok(Done::Value(0))
}
