// Ident: 3. It has no caller, and only reads. All that the identifier takes is in the search's last look, so that no slot is looked at again.
ghost use Rattle.std.specs.Prelude.{◌≡◌};
ghost use Rattle.rules.specs.Calls.{ident, looked};
ghost use Rattle.tables.specs.Layout.{model_of};
ghost use Rattle.calls.specs.Agreeing.{Agreeing};
ghost use Rattle.calls.specs.Reply.{Does, Replied, reply};

use super::Done;
use lookup::looks;
use rules::{Answer, Refusal};
use tables::View;

/// What an ident answers, and how many slots its search looked at.
#[derive(Clone, Copy)]
pub struct Searched {
    pub answer: Answer,
    pub looked: u32,
}

// The same before the next task is asked for: what `find` answers has no next task yet.
#[derive(Clone, Copy)]
struct Sought {
    done: Result<Done, Refusal>,
    looked: u32,
}

#[tactic(auto, using(crate::proofs::Agreeing::sized, crate::proofs::Reading::naming))]
fn search(m: &[u8], name: u32) -> Sought
    requires { Agreeing m.now }
    ensures done { Does m.now m.now result.done (λ t. ident t name) }
    ensures looked { result.looked ≡ looked (model_of m.now) name }
{
    if name == 0 {
        return Sought {
            done: Err(Refusal::InvalidName),
            looked: 0,
        };
    }
    let last = looks::search(m, tables::slot_count(m), name);
    let looked = looks::count(last);
    if !looks::is_match(last, name) {
        return Sought {
            done: Err(Refusal::InvalidName),
            looked,
        };
    }
    Sought {
        done: Ok(Done::Value(last.generation * rules::GENERATION_UNIT + looked)),
        looked,
    }
}

// For `step`: what it does alone, as of every call.
pub fn find(m: &[u8], name: u32) -> Result<Done, Refusal>
    requires { Agreeing m.now }
    ensures { Does m.now m.now result (λ t. ident t name) }
{
    search(m, name).done
}

/// The whole call, for those whose lent bytes are not to be written.
#[tactic(auto, using(crate::proofs::Agreeing::sized))]
pub fn ident(m: &[u8], name: u32) -> Searched
    requires { Agreeing m.now }
    ensures replied { Replied result.answer m.now (reply (ident (model_of m.now) name)) }
    ensures looked { result.looked ≡ looked (model_of m.now) name }
{
    let sought = search(m, name);
    Searched {
        answer: super::answer(View::new(m), sought.done),
        looked: sought.looked,
    }
}
