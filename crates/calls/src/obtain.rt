// Obtain: 18, 4, 14, then 4, 13.
ghost use Rattle.std.specs.Prelude.{◌≡◌};
ghost use Rattle.rules.specs.declared.Wait.{Wait as WaitModel};
ghost use Rattle.rules.specs.Semaphore.{ticks_of};
ghost use Rattle.rules.specs.Calls.{blocked, obtain};
ghost use Rattle.calls.specs.Agreeing.{Agreeing};
ghost use Rattle.calls.specs.Reply.{Does};

use super::Done;
use super::enter::enter;
use rules::{Refusal, Task, Wait};
use tables::View;

// The ticks of a wait that begins, 0 for ever.
fn ticks_of(wait: Wait) -> u32
    ensures { result ≡ ticks_of wait }
{
    match wait {
        Wait::Poll | Wait::Forever => 0,
        Wait::Ticks(n) => n,
    }
}

// The caller waits on the identifier.
fn blocked(v: Task, id: u32, ticks: u32) -> Task
    ensures { (wait : WaitModel) → ticks ≡ ticks_of wait → result ≡ blocked v id wait }
{
    Task {
        answer: rules::WAITING,
        awaited: id,
        ticks,
        ..v
    }
}

#[tactic(auto, using(crate::proofs::Agreeing::sized, crate::proofs::Entering::storable, crate::proofs::Obtaining::obtaining))]
pub fn obtain(m: &mut [u8], caller: u32, id: u32, wait: Wait) -> Result<Done, Refusal>
    requires { Agreeing m.old }
    ensures { Does m.old m.new result (λ t. obtain t caller id wait) }
{
    let v = View::new(m);
    lookup::task_only(v, caller)?;
    let e = enter(v, id)?;
    let s = e.semaphore;
    let taken = s.take(caller, wait)?;
    changes::put_slot(m, e.slot, taken.semaphore);
    if taken.waits {
        let task = tables::load_task(m, caller as usize - 1);
        let waiter = blocked(task, id, ticks_of(wait));
        changes::begin_wait(m, caller, waiter);
        return Ok(Done::Waits);
    }
    Ok(Done::Value(0))
}
