// Create: 18, 4, 14, then 3, 11, 10, 5.
ghost use Rattle.std.specs.Prelude.{◌≡◌, IfOk};
ghost use Rattle.rules.specs.Status.{status};
ghost use Rattle.rules.specs.Calls.{create, create_refusal};
ghost use Rattle.tables.specs.View.{seen};
ghost use Rattle.calls.specs.Agreeing.{Agreeing};
ghost use Rattle.calls.specs.Open.{Opens};
ghost use Rattle.calls.specs.Reply.{Does};

use super::Done;
use rules::Refusal;
use tables::View;

// A slot that a create takes, and its generation until then.
#[derive(Clone, Copy)]
pub struct Open {
    pub slot: u32,
    pub generation: u32,
}

// The slot that a create may take: the lowest that is open.
#[tactic(auto, using(crate::proofs::Refusing::creates))]
fn slot_for(
    v: View<'_>,
    caller: u32,
    name: u32,
    count: u32,
    attributes: u32,
    maximum: u32,
) -> Result<Open, Refusal>
    ensures refused { status result ≡ create_refusal (seen v.entry) caller name count attributes maximum }
    ensures slot { IfOk result (Opens (seen v.entry)) }
{
    lookup::task_only(v, caller)?;
    if name == 0 {
        return Err(Refusal::InvalidName);
    }
    if !rules::is_allowed(attributes) {
        return Err(Refusal::NotDefined);
    }
    if !rules::is_count_allowed(count, attributes, maximum) {
        return Err(Refusal::InvalidNumber);
    }
    let Some(slot) = lookup::open_slot(v) else {
        return Err(Refusal::TooMany);
    };
    Ok(Open {
        slot,
        generation: v.slot_generation(slot as usize - 1),
    })
}

#[tactic(auto, using(crate::proofs::Agreeing::sized, crate::proofs::Making::creating))]
pub fn create(
    m: &mut [u8],
    caller: u32,
    name: u32,
    count: u32,
    attributes: u32,
    maximum: u32,
) -> Result<Done, Refusal>
    requires { Agreeing m.old }
    ensures { Does m.old m.new result (λ t. create t caller name count attributes maximum) }
{
    let Open { slot, generation } = slot_for(
        View::new(m),
        caller,
        name,
        count,
        attributes,
        maximum,
    )?;
    let made = semaphore::created(generation, caller, name, count, attributes, maximum);
    changes::put_slot(m, slot, made);
    Ok(Done::Value((generation + 1) * rules::GENERATION_UNIT + slot))
}
