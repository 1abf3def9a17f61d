// A caller's own task records: the next task of a lent list of them as it lies, and one woken where it stands.
#![tactic(auto)]

ghost use Rattle.std.specs.Prelude.{◌≡◌, pred, get_or};
ghost use Rattle.rules.specs.Calls.{readied};
ghost use Rattle.records.specs.Beside.{next_of};

use rules::{Best, Task};

// The index of task q in a list of tasks, which are counted from 1; 0, no task's number, has the first task's.
fn index_of(q: u32) -> usize
    ensures { result ≡ pred q }
{
    q.saturating_sub(1) as usize
}

// The number that task q goes by: the working priority that is given for it, or its own where none is.
fn goes_by(working: &[u32], q: u32, own: u32) -> u32
    ensures { result ≡ get_or working.now (pred q) own }
{
    working.get(index_of(q)).copied().unwrap_or(own)
}

/// The next task of a list of records of any length, as the core chooses it from the sequence of ready tasks by the working priorities that are
/// given beside the records; tasks are counted from 1, and a number that is no record's is passed over.
pub fn mast_next_task(tasks: &[Task], ready: &[u32], working: &[u32]) -> u32
    ensures { result ≡ next_of tasks.now ready.now working.now }
{
    // 0 for none, as the rules' `most_urgent` and the answer in C have it
    let mut best = Best {
        task: 0,
        priority: rules::ABOVE_ALL,
    };
    for q in ready {
        if let Some(v) = tasks.get(index_of(*q)) {
            best = rules::better(best, tasks.len(), *q, goes_by(working, *q, v.priority));
        }
    }
    best.task
}

/// One task is woken with its wait's answer: its record alone changes.
pub fn mast_wake_task(task: &mut Task, answer: u32)
    ensures { task.new ≡ readied task.old answer }
{
    task.answer = answer;
    task.awaited = 0;
    task.ticks = 0;
}
