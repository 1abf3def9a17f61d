// Cells and locals, and what a step does to them.
ghost use Rattle.std.specs.Prelude.{◌≡◌, ◌≤◌, true, length};
ghost use Rattle.sections.specs.Scripts.{do_step};
ghost use Rattle.encoding.specs.Rows.{step_of};
ghost use Rattle.encoding.specs.Laid.{memory, reaches};

use super::rows::Step;

/// The locals of a task.
pub const LOCALS: usize = 8;

/// The locals of all 32 tasks that there may be.
pub const ALL_LOCALS: usize = 32 * LOCALS;

// What a sum is taken by: a number has 32 bits. Written out, and not by a wrapping add: the edit add_without_the_modulus turns it.
const MODULUS: u64 = 4294967296;

/// Task q takes a step.
#[tactic(auto, using(laws::proofs::Choose::and_both), unfolding(sections::specs::Scripts::do_step))]
pub fn do_step(cells: &mut [u32], locals: &mut [u32], q: u32, step: Option<Step>)
    requires { (1 ≤ q) × (q ≤ 32) × (length locals.old ≡ 256) × (reaches (length cells.old) (step_of step) ≡ true) }
    ensures { memory cells.new locals.new ≡ do_step q (step_of step) (memory cells.old locals.old) }
{
    let base = (q as usize - 1) * LOCALS;
    match step {
        Some(Step::Load { cell, local }) => locals[base + local as usize] = cells[cell as usize],
        Some(Step::Store { local, cell }) => cells[cell as usize] = locals[base + local as usize],
        Some(Step::Set { local, number }) => locals[base + local as usize] = number,
        Some(Step::Add { local, other }) => {
            let at = base + other as usize;
            let sum = locals[at] as u64 + locals[base + local as usize] as u64;
            locals[at] = (sum % MODULUS) as u32;
        }
        None => {}
    }
}
