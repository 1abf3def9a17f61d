// From tables to a file. Each body is written behind the one before it.
ghost use Rattle.std.specs.Prelude.{◌≡◌, ℕ, ◌+◌, ◌*◌, ◌≤◌, ◌<◌, length, get_or};
ghost use Rattle.std.proofs.lemmas.List.Edits.{sets};
ghost use Rattle.rules.specs.Machine.{free_slot};
ghost use Rattle.tables.specs.View.{seen};
ghost use Rattle.tables.specs.Sizes.{Bounded};
ghost use Rattle.calls.specs.Agreeing.{Agreeing};
ghost use Rattle.state.specs.File.{second_edition, tasks_body, slots_body, queue_row, queues_body, state_file};
ghost use Rattle.state.specs.Reading.{file_end};
ghost use Rattle.state.specs.Shape.{Small, counts_of, HasRoom, Written};

use crate::contents;
use crate::contents::Counts;
use rules::Task;
use tables::{Record, View};

// Each task stands once, in a queue or among those that are ready: so the queues hold the tasks that are not ready.
pub fn counts_of(v: View<'_>) -> Counts
    requires { Agreeing v.bytes.now }
    ensures { result ≡ counts_of second_edition (seen v.entry) }
{
    let tasks = v.task_count();
    let slots = v.slot_count();
    let ready = v.ready_count();
    Counts {
        edition: contents::SECOND_EDITION,
        tasks,
        slots,
        queues: slots + (tasks - ready),
        ready,
    }
}

fn write_tasks(v: View<'_>, file: &mut [u8], at: usize)
    requires { Bounded v.bytes.now × HasRoom at (tasks_body (seen v)) file.old }
    ensures { Written at (tasks_body (seen v.entry)) file.old file.new }
{
    let tasks = v.task_count() as usize;
    for i in 0..tasks {
        tables::store::<4, Task>(file, at + 4 * i, v.task(i));
    }
}

fn write_slots(v: View<'_>, file: &mut [u8], at: usize)
    requires { Bounded v.bytes.now × HasRoom at (slots_body second_edition (seen v)) file.old }
    ensures { Written at (slots_body second_edition (seen v.entry)) file.old file.new }
{
    let slots = v.slot_count() as usize;
    for i in 0..slots {
        // all of its words but how many wait, with which the queue begins
        let row = v.head(i).to_words();
        words::set_words(file, at + 8 * i, &row[..8]);
    }
}

// A queue's length and its tasks; returns where the next one begins.
fn write_queue(v: View<'_>, file: &mut [u8], i: usize, at: usize) -> usize
    requires { Bounded v.bytes.now × (i < length (seen v).slots)
        × HasRoom at (queue_row (get_or (seen v).slots i (free_slot 0))) file.old }
    ensures { Written at (queue_row (get_or (seen v.entry).slots i (free_slot 0))) file.old file.new
        × (result ≡ at + length (queue_row (get_or (seen v.entry).slots i (free_slot 0)))) }
{
    let waiters = v.slot_waiters(i);
    words::set_word(file, at, waiters);
    let n = waiters as usize;
    for k in 0..n {
        words::set_word(file, at + 1 + k, v.queue_entry(i, k));
    }
    at + 1 + n
}

fn write_queues(v: View<'_>, file: &mut [u8], at: usize)
    requires { Bounded v.bytes.now × HasRoom at (queues_body (seen v)) file.old }
    ensures { Written at (queues_body (seen v.entry)) file.old file.new }
{
    let slots = v.slot_count() as usize;
    let mut end = at;
    for i in 0..slots {
        end = write_queue(v, file, i, end);
    }
}

fn write_ready(v: View<'_>, file: &mut [u8], at: usize)
    requires { Bounded v.bytes.now × HasRoom at (seen v).ready file.old }
    ensures { Written at (seen v.entry).ready file.old file.new }
{
    let ready = v.ready_count() as usize;
    for k in 0..ready {
        words::set_word(file, at + k, v.ready_entry(k));
    }
}

// The whole file, at the buffer's front.
pub fn write(v: View<'_>, file: &mut [u8], c: Counts)
    requires { Bounded v.bytes.now × Small c × (c ≡ counts_of second_edition (seen v)) × (4 * file_end c ≤ length file.old) }
    ensures { file.new ≡ sets file.old 0 (state_file (seen v.entry)) }
{
    contents::write(file, c);
    write_tasks(v, file, 14);
    write_slots(v, file, contents::slots_start(c));
    write_queues(v, file, contents::queues_start(c));
    write_ready(v, file, contents::ready_start(c));
}
