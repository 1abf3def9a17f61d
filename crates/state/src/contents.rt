// The table of contents, and what follows from it. A file's numbers are counted from 0, four bytes each.
ghost use Rattle.std.specs.Prelude.{◌≡◌, ◌*◌, ◌≤◌, eqb, length};
ghost use Rattle.laws.specs.Choose.{◌and◌};
ghost use Rattle.state.specs.Reading.{slot_numbers, slots_in, counts_in, slots_start, queues_start, ready_start, file_end};
ghost use Rattle.state.specs.Shape.{Small, is_small, contents_for, is_headed, HasRoom, Written};
ghost use Rattle.words.specs.Words.{same_words};

// The edition; tasks, slots, the numbers of body 3, and ready tasks.
#[derive(Clone, Copy, Debug, PartialEq, Eq)]
pub struct Counts {
    pub edition: u32,
    pub tasks: u32,
    pub slots: u32,
    pub queues: u32,
    pub ready: u32,
}

// Edition 1 has no maxima; edition 2 is written.
pub const FIRST_EDITION: u32 = 1;

pub const SECOND_EDITION: u32 = 2;

// 64 lengths and, behind each, no more than 32 tasks.
const MOST_QUEUES: u32 = 2112;

const CONTENTS_LENGTH: usize = 56;

// Where the edition and a body's length stand.
const EDITION: usize = 0;

const TASKS_LENGTH: usize = 4;

const SLOTS_LENGTH: usize = 7;

const QUEUES_LENGTH: usize = 10;

const READY_LENGTH: usize = 13;

// How many numbers the records of so many slots are.
#[tactic(auto, using(laws::proofs::Choose::cases), unfolding(crate::specs::Reading::slot_numbers))]
pub fn slot_numbers(edition: u32, slots: u32) -> u32
    requires { slots ≤ 64 }
    ensures { result ≡ slot_numbers edition slots }
{
    if edition == FIRST_EDITION {
        7 * slots
    } else {
        8 * slots
    }
}

// And of how many slots a body 2 of that length is.
#[tactic(auto, using(laws::proofs::Choose::cases), unfolding(crate::specs::Reading::slots_in))]
fn slots_in(edition: u32, length: u32) -> u32
    ensures { result ≡ slots_in edition length }
{
    if edition == FIRST_EDITION {
        length / 28
    } else {
        length / 32
    }
}

#[tactic(auto, using(crate::proofs::Editions::numbers_few))]
fn row(c: Counts) -> [u32; 14]
    requires { Small c }
    ensures { result ≡ contents_for c }
{
    let tasks = 16 * c.tasks;
    let slots = 4 * slot_numbers(c.edition, c.slots);
    let queues = 4 * c.queues;
    [
        c.edition,
        4,
        1,
        56,
        tasks,
        2,
        56 + tasks,
        slots,
        3,
        56 + tasks + slots,
        queues,
        4,
        56 + tasks + slots + queues,
        4 * c.ready,
    ]
}

// Where bodies 2, 3 and 4 begin, and where the file ends.
pub fn slots_start(c: Counts) -> usize
    requires { Small c }
    ensures { result ≡ slots_start c }
{
    14 + 4 * c.tasks as usize
}

pub fn queues_start(c: Counts) -> usize
    requires { Small c }
    ensures { result ≡ queues_start c }
{
    slots_start(c) + slot_numbers(c.edition, c.slots) as usize
}

#[tactic(auto, using(crate::proofs::Editions::numbers_few))]
pub fn ready_start(c: Counts) -> usize
    requires { Small c }
    ensures { result ≡ ready_start c }
{
    queues_start(c) + c.queues as usize
}

#[tactic(auto, using(crate::proofs::Editions::numbers_few))]
pub fn file_end(c: Counts) -> usize
    requires { Small c }
    ensures { result ≡ file_end c }
{
    ready_start(c) + c.ready as usize
}

pub fn write(file: &mut [u8], c: Counts)
    requires { Small c × HasRoom 0 (contents_for c) file.old }
    ensures { Written 0 (contents_for c) file.old file.new }
{
    words::set_words(file, 0, &row(c));
}

// What the contents say, right or wrong.
pub fn counts_in(file: &[u8]) -> Counts
    requires { 56 ≤ length file.now }
    ensures { result ≡ counts_in file.now }
{
    let edition = words::word(file, EDITION);
    Counts {
        edition,
        tasks: words::word(file, TASKS_LENGTH) / 16,
        slots: slots_in(edition, words::word(file, SLOTS_LENGTH)),
        queues: words::word(file, QUEUES_LENGTH) / 4,
        ready: words::word(file, READY_LENGTH) / 4,
    }
}

#[tactic(auto, using(laws::proofs::Choose::cases))]
fn is_small(c: Counts) -> bool
    ensures { result ≡ is_small c }
{
    FIRST_EDITION <= c.edition
        && c.edition <= SECOND_EDITION
        && 1 <= c.tasks
        && c.tasks <= rules::MAX_TASKS
        && c.slots <= rules::MAX_SLOTS
        && c.queues <= MOST_QUEUES
        && c.ready <= rules::MAX_TASKS
}

// Whether they end where the file does, and are the contents that such a file has.
#[tactic(auto, using(laws::proofs::Choose::cases, crate::proofs::Editions::numbers_few))]
fn is_contents(file: &[u8], c: Counts) -> bool
    requires { Small c × (56 ≤ length file.now) }
    ensures { result ≡ (eqb (length file.now) (4 * file_end c) and same_words file.now 0 (contents_for c)) }
{
    file.len() == 4 * file_end(c) && words::are_words(file, 0, &row(c))
}

/// Whether the contents are those of a file of this length.
#[tactic(auto, using(laws::proofs::Choose::cases), unfolding(crate::specs::Shape::is_headed))]
pub fn is_headed(file: &[u8]) -> bool
    ensures { result ≡ is_headed file.now }
{
    if file.len() < CONTENTS_LENGTH {
        return false;
    }
    let c = counts_in(file);
    is_small(c) && is_contents(file, c)
}
