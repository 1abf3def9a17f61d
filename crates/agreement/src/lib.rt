// The test for 25: whether lent bytes are the layout of tables that agree. Each task and each place of a queue is read once. Nothing here writes to them.
#![tactic(auto, using(laws::proofs::Choose::cases))]

ghost use Rattle.std.specs.Prelude.{◌≡◌, List, [], ℕ, suc, ◌+◌, ◌*◌, ◌≤◌, ◌<◌, length};
ghost use Rattle.laws.specs.Choose.{◌and◌};
ghost use Rattle.words.specs.Words.{word_at};
ghost use Rattle.rules.specs.Machine.{slot_of, id_of};
ghost use Rattle.rules.specs.Agreement.{counts_fit, is_ending, is_at_rest, is_zero_where_queued, is_binary_right, is_clear};
ghost use Rattle.tables.specs.Layout.{head_of, slot_with, record_at};
ghost use Rattle.tables.specs.Sizes.{Bounded};
ghost use Rattle.agreement.specs.Tests.{is_apart, stands, NumberTested, QueueTested, other_agrees, class_agrees, head_agrees, SlotTested, task_agrees, seen_below};
ghost use Rattle.agreement.specs.Tests.{SlotsTested, SequenceTested, seen_all, tasks_agree, tables_agree};
ghost use Rattle.tables.specs.View.{seen};
ghost use Rattle.agreement.specs.Bytes.{agrees_bytes};

use rules::Task;
use tables::{Head, View};

// ---- a slot

// A binary semaphore's count, owner and nest, with N tasks.
#[tactic(auto, using(laws::proofs::Choose::cases, rules::proofs::Invariants::Lists::occurs_none))]
fn is_owned_right(tasks: u32, s: Head) -> bool
    ensures { result ≡ is_binary_right tasks (slot_with s []) }
{
    match s.count {
        0 => 1 <= s.owner && s.owner <= tasks && 1 <= s.nest,
        1 => s.owner == 0 && s.nest == 0,
        _ => false,
    }
}

// The same of a semaphore of another class, with its maximum.
fn is_unowned(s: Head) -> bool
    ensures { result ≡ other_agrees (slot_with s []) }
{
    s.owner == 0
        && s.nest == 0
        && if rules::is_simple(s.attributes) {
            s.maximum == 1 && s.count <= 1
        } else {
            s.maximum != 0 && s.count <= s.maximum
        }
}

fn is_class_right(tasks: u32, s: Head) -> bool
    ensures { result ≡ class_agrees tasks (slot_with s []) }
{
    if rules::is_binary(s.attributes) {
        s.maximum == 1 && is_owned_right(tasks, s)
    } else {
        is_unowned(s)
    }
}

// A non-empty queue means count 0.
fn is_zero_where_queued(s: Head) -> bool
    ensures { (queue : List ℕ) → length queue ≡ s.waiters → result ≡ is_zero_where_queued (slot_with s queue) }
{
    s.waiters == 0 || s.count == 0
}

// The numbers of a live semaphore.
#[tactic(auto, using(laws::proofs::Choose::cases), unfolding(crate::specs::Tests::head_agrees))]
fn is_head_agreeing(tasks: u32, s: Head) -> bool
    ensures { (queue : List ℕ) → length queue ≡ s.waiters → result ≡ head_agrees tasks (slot_with s queue) }
{
    s.generation != 0
        && s.name != 0
        && rules::is_allowed(s.attributes)
        && is_class_right(tasks, s)
        && is_zero_where_queued(s)
}

// A free slot is 0 but for its generation.
fn is_clear(s: Head) -> bool
    ensures { (queue : List ℕ) → length queue ≡ s.waiters → result ≡ is_clear (slot_with s queue) }
{
    s.name == 0
        && s.attributes == 0
        && s.count == 0
        && s.owner == 0
        && s.nest == 0
        && s.maximum == 0
        && s.waiters == 0
}

// Whether a queue may hold the number: a task's, and not the owner's.
fn is_apart(tasks: u32, owner: u32, q: u32) -> bool
    ensures { result ≡ is_apart tasks owner q }
{
    1 <= q && q <= tasks && q != owner
}

// Whether a task may stand where it is found: in the queue of the semaphore of that identifier, or with none in the sequence of ready tasks.
fn may_stand(awaited: Option<u32>, task: Task) -> bool
    ensures { result ≡ stands awaited task }
{
    match awaited {
        Some(id) => task.answer == rules::WAITING && task.awaited == id,
        None => task.answer != rules::WAITING,
    }
}

// The number at a place, of a queue whose semaphore has that owner, or with owner 0 of the sequence of ready tasks. Its task is marked, and not twice.
#[tactic(auto, using(laws::proofs::Choose::cases, lookup::proofs::Model::length_tasks, crate::proofs::Model::task_of_lem, crate::proofs::Walks::told_no), unfolding(crate::specs::Tests::number_agrees))]
fn is_number_agreeing(
    v: View<'_>,
    owner: u32,
    awaited: Option<u32>,
    q: u32,
    marks: &mut [bool; 32],
) -> bool
    ensures { NumberTested (seen v.entry) marks.old owner awaited q result marks.new }
{
    if !is_apart(v.task_count(), owner, q) {
        return false;
    }
    let at = q as usize - 1;
    let fresh = !marks[at];
    marks[at] = true;
    fresh && may_stand(awaited, v.task(at))
}

// The queue of slot i: a task waits on one semaphore only.
fn is_queue_agreeing(v: View<'_>, i: usize, id: u32, s: Head, marks: &mut [bool; 32]) -> bool
    requires { Bounded v.bytes.now × (i < word_at v.bytes.now 1) × (s ≡ head_of (record_at v.bytes.now i)) }
    ensures { QueueTested (seen v.entry) marks.old id (slot_of (seen v.entry) (suc i)) result marks.new }
{
    for k in 0..s.waiters as usize {
        if !is_number_agreeing(v, s.owner, Some(id), v.queue_entry(i, k), marks) {
            return false;
        }
    }
    true
}

// The identifier of the semaphore in slot i.
fn id_of(i: usize, s: Head) -> u32
    requires { (i < 64) × (s.generation ≤ 65535) }
    ensures { result ≡ id_of (suc i) (slot_with s []) }
{
    s.generation * rules::GENERATION_UNIT + (i as u32 + 1)
}

// Slot i, counted from 0.
fn is_slot_agreeing(v: View<'_>, i: usize, marks: &mut [bool; 32]) -> bool
    requires { Bounded v.bytes.now × (i < word_at v.bytes.now 1) }
    ensures { SlotTested (seen v.entry) marks.old (suc i) (slot_of (seen v.entry) (suc i)) result marks.new }
{
    let s = v.head(i);
    s.generation <= rules::MAX_GENERATION
        && match s.live {
            0 => is_clear(s),
            1 => {
                is_head_agreeing(v.task_count(), s)
                    && is_queue_agreeing(v, i, id_of(i, s), s, marks)
            }
            _ => false,
        }
}

fn are_slots_agreeing(v: View<'_>, marks: &mut [bool; 32]) -> bool
    requires { Bounded v.bytes.now × (marks.old ≡ seen_below (seen v) 0) }
    ensures { SlotsTested (seen v.entry) result marks.new }
{
    for i in 0..v.slot_count() as usize {
        if !is_slot_agreeing(v, i, marks) {
            return false;
        }
    }
    true
}

// ---- the sequence of ready tasks

fn is_sequence_agreeing(v: View<'_>, marks: &mut [bool; 32]) -> bool
    ensures { SequenceTested (seen v.entry) marks.old result marks.new }
{
    for k in 0..v.ready_count() as usize {
        if !is_number_agreeing(v, 0, None, v.ready_entry(k), marks) {
            return false;
        }
    }
    true
}

// ---- a task

// An answer that a ready task may have.
fn is_ending(answer: u32) -> bool
    ensures { result ≡ is_ending answer }
{
    matches!(
        answer,
        rules::SUCCESSFUL | rules::TIMEOUT | rules::OBJECT_WAS_DELETED | rules::UNSATISFIED
    )
}

fn is_ready(task: Task) -> bool
    ensures { result ≡ (is_ending task.answer and is_at_rest task) }
{
    is_ending(task.answer) && task.ticks == 0 && task.awaited == 0
}

// A task stands in a queue or in the sequence, where it was marked.
#[tactic(auto, using(laws::proofs::Choose::cases), unfolding(crate::specs::Tests::task_agrees))]
fn is_task_agreeing(is_marked: bool, task: Task) -> bool
    ensures { result ≡ task_agrees is_marked task }
{
    1 <= task.priority
        && task.priority <= rules::MAX_PRIORITY
        && is_marked
        && (task.answer == rules::WAITING || is_ready(task))
}

fn are_tasks_agreeing(v: View<'_>, marks: &[bool; 32]) -> bool
    requires { marks.now ≡ seen_all (seen v) }
    ensures { result ≡ tasks_agree (seen v.entry) }
{
    (0..v.task_count() as usize).all(|i| is_task_agreeing(marks[i], v.task(i)))
}

// ---- the tables

// Whether N and S are both 0, or both in range.
fn do_counts_fit(tasks: u32, slots: u32) -> bool
    ensures { result ≡ counts_fit tasks slots }
{
    (tasks == 0 && slots == 0)
        || (1 <= tasks && tasks <= rules::MAX_TASKS && 1 <= slots && slots <= rules::MAX_SLOTS)
}

// Whether the tables that lie there agree.
#[tactic(auto, using(laws::proofs::Choose::cases, crate::proofs::Bytes::counts_read), unfolding(crate::specs::Tests::tables_agree))]
fn do_tables_agree(v: View<'_>) -> bool
    requires { Bounded v.bytes.now }
    ensures { result ≡ tables_agree (seen v.entry) }
{
    let mut marks = [false; 32];
    do_counts_fit(v.task_count(), v.slot_count())
        && are_slots_agreeing(v, &mut marks)
        && is_sequence_agreeing(v, &mut marks)
        && are_tasks_agreeing(v, &marks)
}

// Whether lent bytes, of any length, are the layout of tables that agree.
pub fn is_agreeing(m: &[u8]) -> bool
    ensures { result ≡ agrees_bytes m.now }
{
    tables::is_layout(m) && do_tables_agree(View::new(m))
}
