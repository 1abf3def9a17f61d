// Load and store of the tables in lent bytes. Tasks and slots are counted from 0 here.
#![tactic(auto)]

ghost use Rattle.std.specs.Prelude.{◌≡◌, pred, ◌+◌, ◌*◌, ◌≤◌, ◌<◌, [], ◌∷◌, ◌++◌, length, get_or, set, take};
ghost use Rattle.std.proofs.lemmas.List.Edits.{sets};
ghost use Rattle.words.specs.Words.{bytes_of, word_at};
ghost use Rattle.rules.specs.Machine.{Tables, free_slot, with_slots, with_ready};
ghost use Rattle.rules.specs.Semaphore.{requeued};
ghost use Rattle.tables.specs.Codec.{task_row, record_row};
ghost use Rattle.tables.specs.Layout.{tables_length, task_place, slot_place, ready_place, laid, task_at, head_of, slot_with, queue_of, record_at, sequence_at};
ghost use Rattle.tables.specs.Layout.{is_queue_laid, is_sequence_laid, is_laid};
ghost use Rattle.laws.specs.All.{all};

pub use record::{Record, load, load_row, store};
use rules::Task;
use semaphore::Semaphore;
pub use view::View;

mod record;
mod view;

pub const TABLES_LENGTH: usize = 11148;

// Words: N, S, then the places of tasks, those of slots, the length of the sequence of ready tasks and its places.
pub const TASK_PLACES: usize = 32;

const SLOT_PLACES: usize = 64;

const TASKS_AT: usize = 2;

const TASK_WORDS: usize = 4;

const SLOTS_AT: usize = 130;

const SLOT_WORDS: usize = 41;

const READY_AT: usize = 2754;

const SEQUENCE_AT: usize = 2755;

const TABLES_WORDS: usize = 2787;

// Words of a slot: its numbers, the count of its waiters, and the places of its queue.
const GENERATION: usize = 0;

const LIVE: usize = 1;

const NAME: usize = 2;

const ATTRIBUTES: usize = 3;

const COUNT: usize = 4;

const OWNER: usize = 5;

const NEST: usize = 6;

const MAXIMUM: usize = 7;

const WAITERS: usize = 8;

const QUEUE: usize = 9;

// The words of a slot before its queue, for those who read the queue where it lies.
#[derive(Clone, Copy, Debug, PartialEq, Eq)]
pub struct Head {
    pub generation: u32,
    pub live: u32,
    pub name: u32,
    pub attributes: u32,
    pub count: u32,
    pub owner: u32,
    pub nest: u32,
    pub maximum: u32,
    pub waiters: u32,
}

impl From<Semaphore> for Head {
    fn from(s: Semaphore) -> Head
        ensures { result ≡ head_of s }
    {
        Head {
            generation: s.generation,
            live: s.live,
            name: s.name,
            attributes: s.attributes,
            count: s.count,
            owner: s.owner,
            nest: s.nest,
            maximum: s.maximum,
            waiters: s.waiters,
        }
    }
}

// N, the number of tasks.
pub fn task_count(m: &[u8]) -> u32
    requires { length m.now ≡ tables_length }
    ensures { result ≡ word_at m.now 0 }
{
    words::word(m, 0)
}

// S, the number of slots.
pub fn slot_count(m: &[u8]) -> u32
    requires { length m.now ≡ tables_length }
    ensures { result ≡ word_at m.now 1 }
{
    words::word(m, 1)
}

pub fn store_counts(m: &mut [u8], tasks: u32, slots: u32)
    requires { length m.old ≡ tables_length }
    ensures { m.new ≡ sets m.old 0 (bytes_of (tasks ∷ slots ∷ [])) }
{
    let row = [tasks, slots];
    words::set_words(m, 0, &row);
}

// Word k of a slot's row.
fn slot_word(m: &[u8], i: usize, k: usize) -> u32
    requires { (4 * (slot_place i + k) + 4 ≤ length m.now) × (i < 64) × (k < 41) }
    ensures { result ≡ get_or (record_row (record_at m.now i)) k 0 }
{
    words::word(m, SLOTS_AT + SLOT_WORDS * i + k)
}

#[tactic(auto, unfolding(crate::specs::Layout::task_at))]
pub fn load_task(m: &[u8], i: usize) -> Task
    requires { (length m.now ≡ tables_length) × (i < 32) }
    ensures { result ≡ task_at m.now i }
{
    load::<4, Task>(m, TASKS_AT + TASK_WORDS * i)
}

pub fn store_task(m: &mut [u8], i: usize, v: Task)
    requires { (length m.old ≡ tables_length) × (i < 32) }
    ensures { m.new ≡ sets m.old (4 * task_place i) (bytes_of (task_row v)) }
{
    store::<4, Task>(m, TASKS_AT + TASK_WORDS * i, v);
}

// One word of a slot, for those who need no more of it. For the first three no byte behind the slot need be there.
pub fn slot_generation(m: &[u8], i: usize) -> u32
    requires { (4 * slot_place (i + 1) ≤ length m.now) × (i < 64) }
    ensures { result ≡ (record_at m.now i).generation }
{
    slot_word(m, i, GENERATION)
}

pub fn slot_live(m: &[u8], i: usize) -> u32
    requires { (4 * slot_place (i + 1) ≤ length m.now) × (i < 64) }
    ensures { result ≡ (record_at m.now i).live }
{
    slot_word(m, i, LIVE)
}

pub fn slot_name(m: &[u8], i: usize) -> u32
    requires { (4 * slot_place (i + 1) ≤ length m.now) × (i < 64) }
    ensures { result ≡ (record_at m.now i).name }
{
    slot_word(m, i, NAME)
}

pub fn slot_waiters(m: &[u8], i: usize) -> u32
    requires { (length m.now ≡ tables_length) × (i < 64) }
    ensures { result ≡ (record_at m.now i).waiters }
{
    slot_word(m, i, WAITERS)
}

// The task at place k of a slot's queue.
pub fn queue_entry(m: &[u8], i: usize, k: usize) -> u32
    requires { (length m.now ≡ tables_length) × (i < 64) × (k < 32) }
    ensures { result ≡ get_or (record_at m.now i).queue k 0 }
{
    slot_word(m, i, QUEUE + k)
}

pub fn load_head(m: &[u8], i: usize) -> Head
    requires { (length m.now ≡ tables_length) × (i < 64) }
    ensures { result ≡ head_of (record_at m.now i) }
{
    load::<9, Head>(m, SLOTS_AT + SLOT_WORDS * i)
}

pub fn load_slot(m: &[u8], i: usize) -> Semaphore
    requires { (length m.now ≡ tables_length) × (i < 64) }
    ensures { result ≡ record_at m.now i }
{
    let Head {
        generation,
        live,
        name,
        attributes,
        count,
        owner,
        nest,
        maximum,
        waiters,
    } = load_head(m, i);
    Semaphore {
        generation,
        live,
        name,
        attributes,
        count,
        owner,
        nest,
        maximum,
        waiters,
        queue: load_row::<32>(m, SLOTS_AT + SLOT_WORDS * i + QUEUE),
    }
}

#[tactic(auto, using(crate::proofs::LoadStore::slot_stored))]
pub fn store_slot(m: &mut [u8], i: usize, s: Semaphore)
    requires { (length m.old ≡ tables_length) × (i < 64) }
    ensures { m.new ≡ sets m.old (4 * slot_place i) (bytes_of (record_row s)) }
{
    let at = SLOTS_AT + SLOT_WORDS * i;
    store::<9, Head>(m, at, Head::from(s));
    // lent by itself: to lend a part of the record would hold all of it once more
    let queue = s.queue;
    words::set_words(m, at + QUEUE, &queue);
}

// The words of a slot before its queue, which stays and is as long as they say.
pub fn store_head(m: &mut [u8], i: usize, s: Head)
    requires { (length m.old ≡ tables_length) × (i < 64) }
    ensures { (t : Tables) → m.old ≡ laid t → i < length t.slots → s.waiters ≡ length (queue_of t i)
        → m.new ≡ laid (with_slots t (set t.slots i (slot_with s (queue_of t i)))) }
{
    store::<9, Head>(m, SLOTS_AT + SLOT_WORDS * i, s);
}

// One waiter more, at the end of a slot's queue.
pub fn add_waiter(m: &mut [u8], i: usize, q: u32)
    requires { (length m.old ≡ tables_length) × (i < 64) }
    ensures { (t : Tables) → m.old ≡ laid t → i < length t.slots → length (queue_of t i) < 32
        → m.new ≡ laid (with_slots t (set t.slots i (requeued (get_or t.slots i (free_slot 0)) (queue_of t i ++ q ∷ [])))) }
{
    let waiters = slot_waiters(m, i);
    if rules::MAX_TASKS <= waiters {
        return;
    }
    let at = SLOTS_AT + SLOT_WORDS * i;
    words::set_word(m, at + QUEUE + waiters as usize, q);
    words::set_word(m, at + WAITERS, waiters + 1);
}

// How many tasks are ready.
pub fn ready_count(m: &[u8]) -> u32
    requires { length m.now ≡ tables_length }
    ensures { result ≡ word_at m.now ready_place }
{
    words::word(m, READY_AT)
}

// The task at place k of the sequence of ready tasks.
pub fn ready_entry(m: &[u8], k: usize) -> u32
    requires { (length m.now ≡ tables_length) × (k < 32) }
    ensures { result ≡ get_or (sequence_at m.now) k 0 }
{
    words::word(m, SEQUENCE_AT + k)
}

// Another task at place k of the sequence.
pub fn set_ready(m: &mut [u8], k: usize, q: u32)
    requires { (length m.old ≡ tables_length) × (k < 32) }
    ensures { (t : Tables) → m.old ≡ laid t → k < length t.ready → m.new ≡ laid (with_ready t (set t.ready k q)) }
{
    words::set_word(m, SEQUENCE_AT + k, q);
}

// One ready task more, at the end of the sequence.
pub fn add_ready(m: &mut [u8], q: u32)
    requires { length m.old ≡ tables_length }
    ensures { (t : Tables) → m.old ≡ laid t → length t.ready < 32 → m.new ≡ laid (with_ready t (t.ready ++ q ∷ [])) }
{
    let count = ready_count(m);
    // Where tables agree there is room: each ready task stands once.
    if rules::MAX_TASKS <= count {
        return;
    }
    words::set_word(m, SEQUENCE_AT + count as usize, q);
    words::set_word(m, READY_AT, count + 1);
}

// The last task of the sequence leaves it.
pub fn drop_ready(m: &mut [u8])
    requires { length m.old ≡ tables_length }
    ensures { (t : Tables) → m.old ≡ laid t → 1 ≤ length t.ready → length t.ready ≤ 32
        → m.new ≡ laid (with_ready t (take (pred (length t.ready)) t.ready)) }
{
    let count = ready_count(m);
    if count == 0 {
        return;
    }
    if rules::MAX_TASKS < count {
        return;
    }
    let last = count - 1;
    words::set_word(m, SEQUENCE_AT + last as usize, 0);
    words::set_word(m, READY_AT, last);
}

// Whether a slot's queue is within its 32 places, and 0 behind its waiters.
#[tactic(auto, using(laws::proofs::Choose::cases), unfolding(crate::specs::Layout::is_queue_laid))]
fn is_queue_laid(m: &[u8], i: usize) -> bool
    requires { (length m.now ≡ tables_length) × (i < 64) }
    ensures { result ≡ is_queue_laid m.now i }
{
    let queue = SLOTS_AT + SLOT_WORDS * i + QUEUE;
    let waiters = slot_waiters(m, i) as usize;
    // Most queues are empty, and a look at all places has no loop.
    if waiters == 0 {
        return words::is_blank(m, queue, queue + TASK_PLACES);
    }
    waiters <= TASK_PLACES && words::is_blank(m, queue + waiters, queue + TASK_PLACES)
}

fn are_queues_laid(m: &[u8], slots: usize) -> bool
    requires { (length m.now ≡ tables_length) × (slots ≤ 64) }
    ensures { result ≡ all slots (is_queue_laid m.now) }
{
    (0..slots).all(|i| is_queue_laid(m, i))
}

// Whether the sequence of ready tasks is within its 32 places, and 0 behind its length.
#[tactic(auto, using(laws::proofs::Choose::cases), unfolding(crate::specs::Layout::is_sequence_laid))]
fn is_sequence_laid(m: &[u8]) -> bool
    requires { length m.now ≡ tables_length }
    ensures { result ≡ is_sequence_laid m.now }
{
    let ready = ready_count(m) as usize;
    ready <= TASK_PLACES && words::is_blank(m, SEQUENCE_AT + ready, TABLES_WORDS)
}

// Whether lent bytes, of any length, are the layout of some tables.
#[tactic(auto, using(laws::proofs::Choose::cases), unfolding(crate::specs::Layout::is_laid))]
pub fn is_layout(m: &[u8]) -> bool
    ensures { result ≡ is_laid m.now }
{
    if m.len() != TABLES_LENGTH {
        return false;
    }
    let tasks = words::word(m, 0) as usize;
    let slots = words::word(m, 1) as usize;
    tasks <= TASK_PLACES
        && slots <= SLOT_PLACES
        && words::is_blank(m, TASKS_AT + TASK_WORDS * tasks, SLOTS_AT)
        && are_queues_laid(m, slots)
        && words::is_blank(m, SLOTS_AT + SLOT_WORDS * slots, READY_AT)
        && is_sequence_laid(m)
}
