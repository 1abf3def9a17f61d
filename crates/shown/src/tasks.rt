// The lines of tasks. Tasks and slots are counted from 0 here.
ghost use Rattle.std.specs.Prelude.{◌≡◌, suc, ◌<◌};
ghost use Rattle.words.specs.Words.{word_at};
ghost use Rattle.rules.specs.Machine.{slot_of};
ghost use Rattle.tables.specs.View.{seen};
ghost use Rattle.shown.specs.Shown.{ending_text, ticks_text, wait_text, state_text, task_line, task_lines};
ghost use Rattle.shown.specs.Puts.{Puts};

use super::writing::Text;
use rules::Task;
use tables::View;

// How the latest wait ended.
fn put_ending(text: &mut Text<'_>, answer: u32)
    ensures { Puts (ending_text answer) text.old text.new }
{
    if answer == rules::TIMEOUT {
        text.put(b", its last wait timed out");
    } else if answer == rules::OBJECT_WAS_DELETED {
        text.put(b", what it last waited on was deleted");
    } else if answer == rules::UNSATISFIED {
        text.put(b", its last wait was flushed");
    }
}

fn put_ticks(text: &mut Text<'_>, ticks: u32)
    ensures { Puts (ticks_text ticks) text.old text.new }
{
    if ticks == 0 {
        text.put(b"for ever");
    } else {
        text.put_number(ticks);
        text.put(b" ticks left");
    }
}

// The name in a slot's place, 0 for a number above S.
fn name_of(v: View<'_>, n: u32) -> u32
    ensures { result ≡ (slot_of (seen v.entry) n).name }
{
    let i = lookup::index_of(n);
    if v.slot_count() <= i {
        return 0;
    }
    v.slot_name(i as usize)
}

fn put_wait(v: View<'_>, text: &mut Text<'_>, task: Task)
    ensures { Puts (wait_text (seen v.entry) task) text.old text.new }
{
    let name = name_of(v, task.awaited % rules::GENERATION_UNIT);
    text.put_numbered(b": waits on name ", name);
    text.put_numbered(b" (", task.awaited);
    text.put(b"), ");
    put_ticks(text, task.ticks);
}

// Whether the task waits, and on what, or how its latest wait ended.
fn put_state(v: View<'_>, text: &mut Text<'_>, task: Task)
    ensures { Puts (state_text (seen v.entry) task) text.old text.new }
{
    if task.answer == rules::WAITING {
        put_wait(v, text, task);
    } else {
        text.put(b": ready");
        put_ending(text, task.answer);
    }
}

fn put_task(v: View<'_>, text: &mut Text<'_>, i: usize)
    requires { i < word_at v.bytes.now 0 }
    ensures { Puts (task_line (seen v.entry) (suc i)) text.old text.new }
{
    let task = v.task(i);
    text.put_numbered(b"task ", (i + 1) as u32);
    text.put_numbered(b", priority ", task.priority);
    put_state(v, text, task);
    text.put(b"\n");
}

pub fn put_tasks(v: View<'_>, text: &mut Text<'_>)
    ensures { Puts (task_lines (seen v.entry)) text.old text.new }
{
    for i in 0..v.task_count() {
        put_task(v, text, i as usize);
    }
}
