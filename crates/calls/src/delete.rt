// Delete: 18, 4, 14, then 4, 12. The order of waking is that of the tables before it.
ghost use Rattle.std.specs.Prelude.{◌≡◌, eqb};
ghost use Rattle.laws.specs.Choose.{◌and◌, isnt};
ghost use Rattle.rules.specs.Numbers.{is_binary};
ghost use Rattle.rules.specs.Calls.{delete};
ghost use Rattle.calls.specs.Agreeing.{Agreeing};
ghost use Rattle.calls.specs.Reply.{Does};

use super::Done;
use super::enter::enter;
use rules::Refusal;
use semaphore::Semaphore;
use tables::View;

// Whether a semaphore is binary and owned.
#[tactic(auto, using(laws::proofs::Choose::cases))]
fn is_owned(s: Semaphore) -> bool
    ensures { result ≡ (is_binary s.attributes and isnt (eqb s.owner 0)) }
{
    rules::is_binary(s.attributes) && s.owner != 0
}

#[tactic(auto, using(crate::proofs::Agreeing::sized, crate::proofs::Entering::storable, crate::proofs::Ending::deleting))]
pub fn delete(m: &mut [u8], caller: u32, id: u32) -> Result<Done, Refusal>
    requires { Agreeing m.old }
    ensures { Does m.old m.new result (λ t. delete t caller id) }
{
    let v = View::new(m);
    lookup::task_only(v, caller)?;
    let e = enter(v, id)?;
    let s = e.semaphore;
    if is_owned(s) {
        return Err(Refusal::ResourceInUse);
    }
    let order = serving::serving_order(v, s);
    let freed = semaphore::free(s.generation);
    changes::put_slot(m, e.slot, freed);
    changes::wake_all(m, order, s.waiters as usize, rules::OBJECT_WAS_DELETED);
    Ok(Done::Value(0))
}
