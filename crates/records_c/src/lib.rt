// The functions over a caller's own task records as C functions; include/mastrecords.h declares them.
#![tactic(auto)]

ghost use Rattle.std.specs.Prelude.{◌≡◌};
ghost use Rattle.rules.specs.Calls.{readied};
ghost use Rattle.records.specs.Beside.{next_of};

use rules::Task;

#[unsafe(no_mangle)]
pub extern "C" fn mast_next_task(tasks: &[Task], ready: &[u32], working: &[u32]) -> u32
    ensures { result ≡ next_of tasks.now ready.now working.now }
{
    records::mast_next_task(tasks, ready, working)
}

#[unsafe(no_mangle)]
pub extern "C" fn mast_wake_task(task: &mut Task, answer: u32)
    ensures { task.new ≡ readied task.old answer }
{
    records::mast_wake_task(task, answer)
}
