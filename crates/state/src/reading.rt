// From a file to tables. What the contents say decides which numbers are read; agreement is tested on the tables that they make.
ghost use Rattle.std.specs.Prelude.{◌≡◌, true, [], suc, ◌+◌, ◌*◌, ◌≤◌, ◌<◌, length, get_or, set, replicate};
ghost use Rattle.rules.specs.Machine.{Tables, unstarted, no_task, free_slot, with_tasks, with_slots, with_ready};
ghost use Rattle.rules.specs.Semaphore.{requeued};
ghost use Rattle.words.specs.Words.{word_at};
ghost use Rattle.tables.specs.Layout.{tables_length, laid, queue_of};
ghost use Rattle.tables.specs.Layout.{row_at};
ghost use Rattle.state.specs.Reading.{slot_numbers, tasks_from, maximum_of_row, slot_of_row, slots_from, tables_in, is_state};
ghost use Rattle.rules.specs.Status.{status};
ghost use Rattle.state.specs.Shape.{is_headed, queues_fit, is_filled, head_of_row, unless_invalid};

use crate::contents;
use rules::{Refusal, Task};
use tables::Head;

// The maximum behind a slot's seven numbers, which begin at number `at`: edition 1 has none, and live slots get the greatest of their class.
fn maximum_in(file: &[u8], edition: u32, at: usize) -> u32
    requires { 4 * at + 4 * slot_numbers edition 1 ≤ length file.now }
    ensures { result ≡ maximum_of_row edition (row_at file.now at (slot_numbers edition 1)) }
{
    if edition != contents::FIRST_EDITION {
        return words::word(file, at + 7);
    }
    if words::word(file, at + 1) != 1 {
        return 0;
    }
    rules::class_maximum(words::word(file, at + 3))
}

fn head_in(file: &[u8], edition: u32, at: usize) -> Head
    requires { 4 * at + 4 * slot_numbers edition 1 ≤ length file.now }
    ensures { result ≡ head_of_row edition (row_at file.now at (slot_numbers edition 1)) }
{
    Head {
        generation: words::word(file, at),
        live: words::word(file, at + 1),
        name: words::word(file, at + 2),
        attributes: words::word(file, at + 3),
        count: words::word(file, at + 4),
        owner: words::word(file, at + 5),
        nest: words::word(file, at + 6),
        maximum: maximum_in(file, edition, at),
        waiters: 0,
    }
}

// The tasks, over tables that have as many.
fn fill_tasks(m: &mut [u8], file: &[u8], tasks: usize)
    requires { (length m.old ≡ tables_length) × (tasks ≤ 32) × (56 + 16 * tasks ≤ length file.now) }
    ensures { (t : Tables) → m.old ≡ laid t → length t.tasks ≡ tasks
        → m.new ≡ laid (with_tasks t (tasks_from file.now tasks)) }
{
    for i in 0..tasks {
        tables::store_task(m, i, tables::load::<4, Task>(file, 14 + 4 * i));
    }
}

// The tasks of a queue, n from number `at` on, into one that is empty.
fn fill_queue(m: &mut [u8], i: usize, file: &[u8], at: usize, n: usize)
    requires { (length m.old ≡ tables_length) × (i < 64) × (n ≤ 32) × (4 * (at + n) ≤ length file.now) }
    ensures { (t : Tables) → m.old ≡ laid t → i < length t.slots → queue_of t i ≡ []
        → m.new ≡ laid (with_slots t (set t.slots i (requeued (get_or t.slots i (free_slot 0)) (row_at file.now at n)))) }
{
    for k in 0..n {
        tables::add_waiter(m, i, words::word(file, at + k));
    }
}

// A slot with its queue, n tasks from number `queue` on, over one whose queue is empty.
fn fill_slot(m: &mut [u8], i: usize, file: &[u8], edition: u32, at: usize, queue: usize, n: usize)
    requires { (length m.old ≡ tables_length) × (i < 64) × (n ≤ 32) × (4 * at + 4 * slot_numbers edition 1 ≤ length file.now)
        × (4 * (queue + n) ≤ length file.now) }
    ensures { (t : Tables) → m.old ≡ laid t → i < length t.slots → queue_of t i ≡ []
        → m.new ≡ laid (with_slots t (set t.slots i
        (slot_of_row edition (row_at file.now at (slot_numbers edition 1)) (row_at file.now queue n)))) }
{
    tables::store_head(m, i, head_in(file, edition, at));
    fill_queue(m, i, file, queue, n);
}

// The slots with their queues, over tables that have as many, all free: refused unless the queues end where the contents say.
fn fill_slots(
    m: &mut [u8],
    file: &[u8],
    edition: u32,
    slots: usize,
    at: usize,
    queues: usize,
    end: usize,
) -> Result<(), Refusal>
    requires { (length m.old ≡ tables_length) × (slots ≤ 64) × (4 * (at + slot_numbers edition slots) ≤ length file.now)
        × (queues ≤ end) × (4 * end ≤ length file.now) }
    ensures { (status result ≡ unless_invalid (queues_fit file.now slots queues end))
        × ((t : Tables) → m.old ≡ laid t → t.slots ≡ replicate slots (free_slot 0) → status result ≡ 0
        → m.new ≡ laid (with_slots t (slots_from file.now edition slots at queues))) }
{
    let mut queue = queues;
    for i in 0..slots {
        if end <= queue {
            return Err(Refusal::InvalidSize);
        }
        let n = words::word(file, queue);
        if rules::MAX_TASKS < n {
            return Err(Refusal::InvalidSize);
        }
        let waiters = n as usize;
        if end < queue + 1 + waiters {
            return Err(Refusal::InvalidSize);
        }
        let numbers = contents::slot_numbers(edition, i as u32) as usize;
        fill_slot(m, i, file, edition, at + numbers, queue + 1, waiters);
        queue = queue + 1 + waiters;
    }
    if queue == end {
        Ok(())
    } else {
        Err(Refusal::InvalidSize)
    }
}

// The sequence of ready tasks, n from number `at` on, where there is none yet.
fn fill_ready(m: &mut [u8], file: &[u8], at: usize, n: usize)
    requires { (length m.old ≡ tables_length) × (n ≤ 32) × (4 * (at + n) ≤ length file.now) }
    ensures { (t : Tables) → m.old ≡ laid t → t.ready ≡ [] → m.new ≡ laid (with_ready t (row_at file.now at n)) }
{
    for k in 0..n {
        tables::add_ready(m, words::word(file, at + k));
    }
}

// The tables that the contents tell of: refused unless the queues end as they say.
fn fill(m: &mut [u8], file: &[u8]) -> Result<(), Refusal>
    requires { (length m.old ≡ tables_length) × (is_headed file.now ≡ true) }
    ensures { (status result ≡ unless_invalid (is_filled file.now))
        × (m.old ≡ laid unstarted → status result ≡ 0 → m.new ≡ laid (tables_in file.now)) }
{
    let c = contents::counts_in(file);
    tables::store_counts(m, c.tasks, c.slots);
    fill_tasks(m, file, c.tasks as usize);
    let ready = contents::ready_start(c);
    fill_slots(
        m,
        file,
        c.edition,
        c.slots as usize,
        contents::slots_start(c),
        contents::queues_start(c),
        ready,
    )?;
    fill_ready(m, file, ready, c.ready as usize);
    Ok(())
}

/// The tables of a file, over those before a start: refused by `InvalidSize` unless tables give the file, and then the bytes may be anything.
pub fn take_in(m: &mut [u8], file: &[u8]) -> Result<(), Refusal>
    requires { m.old ≡ laid unstarted }
    ensures { (status result ≡ unless_invalid (is_state file.now)) × (status result ≡ 0 → m.new ≡ laid (tables_in file.now)) }
{
    if !contents::is_headed(file) {
        return Err(Refusal::InvalidSize);
    }
    fill(m, file)?;
    if agreement::is_agreeing(m) {
        Ok(())
    } else {
        Err(Refusal::InvalidSize)
    }
}
