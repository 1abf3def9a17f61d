// How a call on a semaphore goes on once its caller may make it: the slot that the identifier names is found, and its record is loaded.
ghost use Rattle.tables.specs.View.{seen};
ghost use Rattle.calls.specs.Agreeing.{Agreeing};
ghost use Rattle.calls.specs.Entered.{Enters};

use rules::Refusal;
use semaphore::Semaphore;
use tables::View;

// A live semaphore, and the number of its slot.
#[derive(Clone, Copy)]
pub struct Entered {
    pub slot: u32,
    pub semaphore: Semaphore,
}

#[tactic(auto, using(crate::proofs::Entering::entering))]
pub fn enter(v: View<'_>, id: u32) -> Result<Entered, Refusal>
    requires { Agreeing v.bytes.now }
    ensures { Enters (seen v.entry) id result }
{
    let Some(slot) = lookup::slot_named(v, id) else {
        return Err(Refusal::InvalidId);
    };
    Ok(Entered {
        slot,
        semaphore: v.slot(slot as usize - 1),
    })
}
