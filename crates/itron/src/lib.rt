// ITRON 3.0's semaphore calls: their codes, their answers, and the checks that each begins with. specs/ has the rules.
#![tactic(auto)]

pub mod answers;
pub mod checks;
pub mod codes;

/// What each call answers: a code, and the next task.
#[repr(C)]
#[derive(Clone, Copy, Debug, PartialEq, Eq)]
pub struct Coded {
    pub code: i32,
    pub next: u32,
}

/// What ref_sem answers: exinf is 0, wtsk 1 if a task waits, else 0, semcnt the count; all 0 when refused.
#[repr(C)]
#[derive(Clone, Copy, Debug, PartialEq, Eq)]
pub struct Reference {
    pub code: i32,
    pub next: u32,
    pub exinf: i32,
    pub wtsk: i32,
    pub semcnt: i32,
}
