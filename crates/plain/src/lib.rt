// The plain run: the granted sections one after another, each whole.
#![tactic(auto)]

pub mod tasks;

ghost use Rattle.std.specs.Prelude.{◌≡◌, ◌≤◌, length};
ghost use Rattle.sections.specs.Scripts.{do_steps, steps_of, plain};
ghost use Rattle.encoding.specs.Rows.{scripts_of};
ghost use Rattle.encoding.specs.Left.{steps_left};
ghost use Rattle.encoding.specs.Laid.{memory};
ghost use Rattle.runner.specs.Turns.{Stepped};
ghost use Rattle.plain.specs.Grants.{granted, grants_of, Tasked, Reach};

use encoding::memory;
use encoding::scripts::{self, Steps};

// Task q takes all steps of a section.
fn take_steps(steps: Steps<'_>, q: u32, cells: &mut [u32], locals: &mut [u32])
    requires { (1 ≤ q) × (q ≤ 32) × (length locals.old ≡ 256) × Reach (length cells.old) (steps_left steps) }
    ensures { memory cells.new locals.new ≡ do_steps q (steps_left steps.entry) (memory cells.old locals.old) }
{
    for step in steps {
        memory::do_step(cells, locals, q, step);
    }
}

// A granted section of task q. Where the task has no script, or the script no such section, there are no steps.
fn take_section(scripts: &[u32], q: u32, section: u32, cells: &mut [u32], locals: &mut [u32])
    requires { Tasked scripts.now × Stepped scripts.now (length cells.old) × (length locals.old ≡ 256) }
    ensures { memory cells.new locals.new ≡ do_steps q (steps_of (scripts_of scripts.now) (granted q section))
        (memory cells.old locals.old) }
{
    let Some((_, script)) = scripts::script_of(scripts, q) else {
        return;
    };
    let Some(section) = script.section(section as usize) else {
        return;
    };
    take_steps(section.steps, q, cells, locals);
}

/// The granted sections, in the order of the grants: pairs of a task and a section laid end to end.
pub fn plain_run(scripts: &[u32], grants: &[u32], cells: &mut [u32], locals: &mut [u32])
    requires { Tasked scripts.now × Stepped scripts.now (length cells.old) × (length locals.old ≡ 256) }
    ensures { memory cells.new locals.new ≡ plain (scripts_of scripts.now) (grants_of grants.now)
        (memory cells.old locals.old) }
{
    for i in 0..grants.len() / 2 {
        take_section(scripts, grants[2 * i], grants[2 * i + 1], cells, locals);
    }
}
