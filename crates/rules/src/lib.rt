// The records of calls and tables; specs/ has the rules of document 01 over them.
#![tactic(auto)]

ghost use Rattle.std.specs.Prelude.{◌≡◌, true, List, ◌∷◌, ℕ, length};
ghost use Rattle.rules.specs.Numbers.{allowed, by_priority, is_binary, is_simple, class_maximum, allowed_count};
ghost use Rattle.rules.specs.Machine.{Tables, is_task, most_urgent};
ghost use Rattle.rules.specs.Semaphore.{wait_of};

pub use refusal::Refusal;

mod refusal;

// Status numbers that stand in tables, or are compared as numbers: those of the RTEMS Classic headers, and our own 100. `Refusal` has those of every refusal.
pub const SUCCESSFUL: u32 = 0;

pub const TOO_MANY: u32 = 5;

pub const TIMEOUT: u32 = 6;

pub const OBJECT_WAS_DELETED: u32 = 7;

pub const INVALID_SIZE: u32 = 8;

pub const UNSATISFIED: u32 = 13;

pub const INCORRECT_STATE: u32 = 14;

pub const INTERNAL_ERROR: u32 = 25;

pub const WAITING: u32 = 100;

// Limits.
pub const MAX_TASKS: u32 = 32;

pub const MAX_SLOTS: u32 = 64;

pub const MAX_PRIORITY: u32 = 255;

pub const MAX_GENERATION: u32 = 65535;

pub const MAX_NUMBER: u32 = 4294967295;

// Timeouts that are no number of ticks, and the standard limit in ticks.
pub const STANDARD_TIMEOUT: u32 = 0;

pub const STANDARD_LIMIT: u32 = 500;

pub const NO_TIMEOUT: u32 = 4294967295;

// An identifier is its generation times this, and its slot.
pub const GENERATION_UNIT: u32 = 65536;

/// A task: ready or waiting. Its answer is 100 exactly while it waits, else the ending of its latest wait.
#[repr(C)]
#[derive(Clone, Copy, Debug, PartialEq, Eq)]
pub struct Task {
    pub priority: u32,
    pub answer: u32,
    // the identifier waited on, 0 for a ready task
    pub awaited: u32,
    // ticks left of the wait, 0 is for ever; 0 for a ready task
    pub ticks: u32,
}

/// How an obtain waits.
#[derive(Clone, Copy, Debug, PartialEq, Eq)]
pub enum Wait {
    Poll,
    Forever,
    // 0 is for ever
    Ticks(u32),
}

/// A call. The priorities of a start stand beside it, in a lent list of their own.
#[derive(Clone, Copy, Debug, PartialEq, Eq)]
pub enum Call {
    Start {
        slots: u32,
    },
    Create {
        caller: u32,
        name: u32,
        count: u32,
        attributes: u32,
        maximum: u32,
    },
    Ident {
        name: u32,
    },
    Delete {
        caller: u32,
        id: u32,
    },
    Obtain {
        caller: u32,
        id: u32,
        wait: Wait,
    },
    Release {
        caller: u32,
        id: u32,
    },
    Flush {
        caller: u32,
        id: u32,
    },
    Tick,
}

/// What each call answers.
#[repr(C)]
#[derive(Clone, Copy, Debug, PartialEq, Eq)]
pub struct Answer {
    pub status: u32,
    pub value: u32,
    pub next: u32,
}

/// The attributes of a semaphore with inheritance: binary with owner, PRIORITY and 64.
pub const INHERITANCE: u32 = 84;

/// How to wait, from the options and the timeout of an obtain.
#[tactic(auto, using(laws::proofs::Choose::cases), unfolding(crate::specs::Semaphore::wait_of))]
pub fn wait_of(options: u32, timeout: u32) -> Wait
    ensures { result ≡ wait_of options timeout }
{
    if options % 2 == 1 {
        return Wait::Poll;
    }
    match timeout {
        STANDARD_TIMEOUT => Wait::Ticks(STANDARD_LIMIT),
        NO_TIMEOUT => Wait::Forever,
        ticks => Wait::Ticks(ticks),
    }
}

/// Attributes that create allows.
#[tactic(auto, using(laws::proofs::Choose::cases))]
pub fn is_allowed(attributes: u32) -> bool
    ensures { result ≡ allowed attributes }
{
    matches!(attributes, 0 | 4 | 16 | 20 | 32 | 36 | INHERITANCE)
}

/// PRIORITY, else FIFO.
#[tactic(auto, using(laws::proofs::Choose::cases))]
pub fn is_by_priority(attributes: u32) -> bool
    ensures { result ≡ by_priority attributes }
{
    matches!(attributes, 4 | 20 | 36 | INHERITANCE)
}

/// Binary with owner.
#[tactic(auto, using(laws::proofs::Choose::cases))]
pub fn is_binary(attributes: u32) -> bool
    ensures { result ≡ is_binary attributes }
{
    matches!(attributes, 16 | 20 | INHERITANCE)
}

/// Simple binary.
#[tactic(auto, using(laws::proofs::Choose::cases))]
pub fn is_simple(attributes: u32) -> bool
    ensures { result ≡ is_simple attributes }
{
    matches!(attributes, 32 | 36)
}

/// The greatest maximum of a class: that of both binary classes is 1.
#[tactic(auto, using(laws::proofs::Choose::cases))]
pub fn class_maximum(attributes: u32) -> u32
    ensures { result ≡ class_maximum attributes }
{
    if is_binary(attributes) || is_simple(attributes) {
        1
    } else {
        MAX_NUMBER
    }
}

/// Whether the maximum is one create allows, and the count at most that.
#[tactic(auto, using(laws::proofs::Choose::cases))]
pub fn is_count_allowed(count: u32, attributes: u32, maximum: u32) -> bool
    ensures { result ≡ allowed_count count attributes maximum }
{
    1 <= maximum && maximum <= class_maximum(attributes) && count <= maximum
}

/// A number above every priority.
pub const ABOVE_ALL: u32 = 256;

/// The first task of the least number among those seen so far, 0 for none, and that number.
#[derive(Clone, Copy, Debug, PartialEq, Eq)]
pub struct Best {
    pub task: u32,
    pub priority: u32,
}

/// The best so far and task q, who follows in the sequence, of so many tasks, by the working priority that is given. A number that is no task's is passed over.
pub fn better(best: Best, tasks: usize, q: u32, priority: u32) -> Best
    ensures { (t : Tables) (u : ℕ → ℕ) (qs : List ℕ) → length t.tasks ≡ tasks → (is_task t q ≡ true → u q ≡ priority)
        → most_urgent t u qs result.task result.priority ≡ most_urgent t u (q ∷ qs) best.task best.priority }
{
    if q == 0 || tasks < q as usize || best.priority <= priority {
        return best;
    }
    Best { task: q, priority }
}
