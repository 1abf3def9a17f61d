// Steps that write the tables in lent bytes. Tasks and slots go by their numbers, counted from 1. Between two steps the bytes agree with nothing, so that no
// type holds them here; loops go by places, since on other processors a slice's iterator is a pair with a pointer.
#![tactic(auto, using(laws::proofs::Choose::cases))]

ghost use Rattle.std.specs.Prelude.{◌≡◌, map, ◌++◌, ℕ, suc, ◌+◌, ◌≤◌, ◌<◌, leb, length, get_or, take, IfSome};
ghost use Rattle.laws.specs.Choose.{◌and◌};
ghost use Rattle.rules.specs.Machine.{Slot, Tables, unstarted, with_tasks, with_slots, with_ready, slot_of, put_task, put_slot, waits};
ghost use Rattle.rules.specs.Agreement.{occurs};
ghost use Rattle.rules.specs.Calls.{readied, wake, wake_all, without, begin_wait, new_task, started, expires, ticked, timed_out, ticked_tables};
ghost use Rattle.semaphore.specs.Record.{Padded, Stands, TasksOnly, slot_keeping};
ghost use Rattle.words.specs.Words.{word_at};
ghost use Rattle.tables.specs.Layout.{tables_length, ready_place, laid, record_at};
ghost use Rattle.tables.specs.Sizes.{Limited};
ghost use Rattle.changes.specs.Tick.{TaskQueues, FindsPlace, expiring, flagged};

use rules::Task;
use semaphore::Semaphore;

// A wait ends: the task is ready, with the wait's answer.
fn readied(v: Task, answer: u32) -> Task
    ensures { result ≡ readied v answer }
{
    Task {
        answer,
        awaited: 0,
        ticks: 0,
        ..v
    }
}

pub fn put_task(m: &mut [u8], q: u32, v: Task)
    requires { (length m.old ≡ tables_length) × (1 ≤ q) × (q ≤ 32) }
    ensures { (t : Tables) → m.old ≡ laid t → q ≤ length t.tasks → m.new ≡ laid (put_task t q v) }
{
    tables::store_task(m, q as usize - 1, v);
}

pub fn put_slot(m: &mut [u8], n: u32, s: Semaphore)
    requires { (length m.old ≡ tables_length) × (1 ≤ n) × (n ≤ 64) }
    ensures { (t : Tables) (slot : Slot) → m.old ≡ laid t → Stands s slot → n ≤ length t.slots
        → m.new ≡ laid (put_slot t n slot) }
{
    tables::store_slot(m, n as usize - 1, s);
}

// Task q is woken with that answer, and joins the end of the sequence of ready tasks.
pub fn wake(m: &mut [u8], q: u32, answer: u32)
    requires { (length m.old ≡ tables_length) × (1 ≤ q) × (q ≤ 32) }
    ensures { (t : Tables) → m.old ≡ laid t → q ≤ length t.tasks → length t.ready < 32
        → m.new ≡ laid (wake t q answer) }
{
    let v = tables::load_task(m, q as usize - 1);
    put_task(m, q, readied(v, answer));
    tables::add_ready(m, q);
}

// The first `waiters` tasks of a queue are woken with that answer, in queue order.
pub fn wake_all(m: &mut [u8], queue: [u32; 32], waiters: usize, answer: u32)
    requires { (length m.old ≡ tables_length) × (waiters ≤ 32)
        × ((k : ℕ) → k < waiters → 1 ≤ get_or queue k 0) × ((k : ℕ) → k < waiters → get_or queue k 0 ≤ 32) }
    ensures { (t : Tables) → m.old ≡ laid t → ((k : ℕ) → k < waiters → get_or queue k 0 ≤ length t.tasks)
        → length t.ready + waiters ≤ 32 → m.new ≡ laid (wake_all t (take waiters queue) answer) }
{
    for k in 0..waiters {
        wake(m, queue[k], answer);
    }
}

// Where task q stands in the sequence of ready tasks.
fn ready_place(m: &[u8], q: u32) -> Option<usize>
    requires { (length m.now ≡ tables_length) × (word_at m.now ready_place ≤ 32) }
    ensures few { IfSome result (λ p. p < 32) }
    ensures place { (t : Tables) → m.now ≡ laid t → FindsPlace result q t.ready }
{
    for k in 0..tables::ready_count(m) as usize {
        if tables::ready_entry(m, k) == q {
            return Some(k);
        }
    }
    None
}

// Task q leaves the sequence of ready tasks, and those behind it close up.
fn leave_ready(m: &mut [u8], q: u32)
    requires { (length m.old ≡ tables_length) × (word_at m.old ready_place ≤ 32) }
    ensures { (t : Tables) → m.old ≡ laid t → occurs q t.ready ≡ 1 → m.new ≡ laid (with_ready t (without q t.ready)) }
{
    let Some(place) = ready_place(m, q) else {
        return;
    };
    for k in place + 1..tables::ready_count(m) as usize {
        let behind = tables::ready_entry(m, k);
        tables::set_ready(m, k - 1, behind);
    }
    tables::drop_ready(m);
}

// Task q, with the record of its wait, leaves the sequence of ready tasks.
pub fn begin_wait(m: &mut [u8], q: u32, v: Task)
    requires { (length m.old ≡ tables_length) × (1 ≤ q) × (q ≤ 32) × (word_at m.old ready_place ≤ 32) }
    ensures { (t : Tables) → m.old ≡ laid t → q ≤ length t.tasks → occurs q t.ready ≡ 1
        → m.new ≡ laid (begin_wait t q v) }
{
    leave_ready(m, q);
    put_task(m, q, v);
}

fn new_task(priority: u32) -> Task
    ensures { result ≡ new_task priority }
{
    Task {
        priority,
        answer: 0,
        awaited: 0,
        ticks: 0,
    }
}

// The tables as they start, over those before the start.
pub fn start_tables(m: &mut [u8], slots: u32, priorities: &[u32])
    requires { (length m.old ≡ tables_length) × (slots ≤ 64) × (length priorities.now ≤ 32) }
    ensures { m.old ≡ laid unstarted → m.new ≡ laid (started slots priorities.now) }
{
    tables::store_counts(m, priorities.len() as u32, slots);
    for i in 0..priorities.len() {
        tables::store_task(m, i, new_task(priorities[i]));
        tables::add_ready(m, i as u32 + 1);
    }
}

// Whether a tick ends the task's wait.
fn expires(v: Task) -> bool
    ensures { result ≡ expires v }
{
    v.answer == rules::WAITING && v.ticks == 1
}

// Whether a tick changes the task: it waits, and not for ever.
fn is_timed(v: Task) -> bool
    ensures { result ≡ (waits v and leb 1 v.ticks) }
{
    v.answer == rules::WAITING && 1 <= v.ticks
}

// A timed wait loses a tick; a wait at 1 ends with answer 6.
#[tactic(auto, using(laws::proofs::Choose::cases), unfolding(rules::specs::Calls::ticked))]
fn ticked(v: Task) -> Task
    ensures { result ≡ ticked v }
{
    if expires(v) {
        readied(v, rules::TIMEOUT)
    } else if is_timed(v) {
        Task {
            ticks: v.ticks - 1,
            ..v
        }
    } else {
        v
    }
}

// The flags of the tasks whose wait a tick ends. A place beyond the last task is 0, and no wait.
fn expired(m: &[u8]) -> [bool; 32]
    requires { length m.now ≡ tables_length }
    ensures { (t : Tables) → m.now ≡ laid t → result ≡ expiring t }
{
    let mut flags = [false; 32];
    for i in 0..tables::TASK_PLACES {
        flags[i] = expires(tables::load_task(m, i));
    }
    flags
}

// The slot at i, its queue without the tasks whose wait has ended. Nothing is loaded where nobody waits.
fn tick_slot(m: &mut [u8], i: usize, expired: [bool; 32])
    requires { (length m.old ≡ tables_length) × (i < 64) × Padded (record_at m.old i)
        × TasksOnly (record_at m.old i).waiters (record_at m.old i).queue }
    ensures { (t : Tables) → m.old ≡ laid t → Limited t → i < length t.slots
        → m.new ≡ laid (put_slot t (suc i) (slot_keeping (slot_of t (suc i)) expired)) }
{
    if tables::slot_waiters(m, i) == 0 {
        return;
    }
    let s = tables::load_slot(m, i);
    tables::store_slot(m, i, s.without(expired));
}

fn tick_slots(m: &mut [u8], expired: [bool; 32])
    requires { TaskQueues m.old }
    ensures { (t : Tables) → m.old ≡ laid t → Limited t → m.new ≡ laid (with_slots t (map (λ s. slot_keeping s expired) t.slots)) }
{
    for i in 0..tables::slot_count(m) as usize {
        tick_slot(m, i, expired);
    }
}

// Most tasks are not in a timed wait, and are left as they lie.
fn tick_tasks(m: &mut [u8])
    requires { (length m.old ≡ tables_length) × (word_at m.old 0 ≤ 32) }
    ensures { (t : Tables) → m.old ≡ laid t → m.new ≡ laid (with_tasks t (map ticked t.tasks)) }
{
    for i in 0..tables::task_count(m) as usize {
        let v = tables::load_task(m, i);
        if is_timed(v) {
            tables::store_task(m, i, ticked(v));
        }
    }
}

// The tasks whose wait has ended join the end of the sequence, in task number order.
fn tick_ready(m: &mut [u8], expired: [bool; 32])
    requires { length m.old ≡ tables_length }
    ensures { (t : Tables) → m.old ≡ laid t → length t.ready + length (flagged expired 1) ≤ 32
        → m.new ≡ laid (with_ready t (t.ready ++ flagged expired 1)) }
{
    for i in 0..tables::TASK_PLACES {
        if expired[i] {
            tables::add_ready(m, i as u32 + 1);
        }
    }
}

// What a tick leaves: the queues without the tasks whose wait has ended, each task a tick later, and those tasks at the end of the sequence.
pub fn tick_tables(m: &mut [u8])
    requires { TaskQueues m.old }
    ensures { (t : Tables) → m.old ≡ laid t → Limited t → length t.ready + length (timed_out t.tasks 1) ≤ 32
        → m.new ≡ laid (ticked_tables t) }
{
    let flags = expired(m);
    tick_slots(m, flags);
    tick_tasks(m);
    tick_ready(m, flags);
}
