// Start: 14, 10, 19.
ghost use Rattle.std.specs.Prelude.{◌≡◌, length, get_or};
ghost use Rattle.laws.specs.All.{all};
ghost use Rattle.rules.specs.Numbers.{max_priority, within};
ghost use Rattle.rules.specs.Status.{status};
ghost use Rattle.rules.specs.Calls.{start, start_refusal};
ghost use Rattle.tables.specs.View.{seen};
ghost use Rattle.calls.specs.Agreeing.{Agreeing};
ghost use Rattle.calls.specs.Reply.{Does};

use super::Done;
use rules::Refusal;
use tables::View;

#[tactic(auto, using(laws::proofs::Choose::cases))]
fn is_priority(p: u32) -> bool
    ensures { result ≡ within 1 max_priority p }
{
    1 <= p && p <= rules::MAX_PRIORITY
}

fn are_priorities(priorities: &[u32]) -> bool
    ensures { result ≡ all (length priorities.now) (λ i. within 1 max_priority (get_or priorities.now i 0)) }
{
    priorities.iter().all(|p| is_priority(*p))
}

#[tactic(auto, using(crate::proofs::Refusing::starts))]
fn may_start(v: View<'_>, slots: u32, priorities: &[u32]) -> Result<(), Refusal>
    ensures { status result ≡ start_refusal (seen v.entry) slots priorities.now }
{
    if v.task_count() >= 1 {
        return Err(Refusal::IncorrectState);
    }
    let tasks = priorities.len();
    if tasks < 1 || tables::TASK_PLACES < tasks || slots < 1 || rules::MAX_SLOTS < slots {
        return Err(Refusal::InvalidNumber);
    }
    if !are_priorities(priorities) {
        return Err(Refusal::InvalidPriority);
    }
    Ok(())
}

#[tactic(auto, using(crate::proofs::Agreeing::sized, crate::proofs::Making::starting))]
pub fn start(m: &mut [u8], slots: u32, priorities: &[u32]) -> Result<Done, Refusal>
    requires { Agreeing m.old }
    ensures { Does m.old m.new result (λ t. start t slots priorities.now) }
{
    may_start(View::new(m), slots, priorities)?;
    changes::start_tables(m, slots, priorities);
    Ok(Done::Value(0))
}
