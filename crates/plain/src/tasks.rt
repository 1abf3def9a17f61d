// The tasks of the scripts.
ghost use Rattle.std.specs.Prelude.{◌≡◌, map, ◌/◌, ◌≤◌, length, take};
ghost use Rattle.encoding.specs.Rows.{scripts_of};
ghost use Rattle.plain.specs.Grants.{task_in};

use encoding::scripts::{self, Scripts};

/// Notes the tasks in the order of their scripts, and returns how many they are.
pub fn tasks_of(scripts: &[u32], tasks: &mut [u32]) -> usize
    requires { length scripts.now / 4 ≤ length tasks.old }
    ensures { (result ≡ length (scripts_of scripts.now)) × (take result tasks.new ≡ map task_in (scripts_of scripts.now)) }
{
    for (i, script) in Scripts::new(scripts).enumerate() {
        tasks[i] = script.task;
    }
    scripts::script_count(scripts)
}
