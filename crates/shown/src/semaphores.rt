// The lines of semaphores. Slots are counted from 0 here.
ghost use Rattle.std.specs.Prelude.{suc, ◌≤◌, ◌<◌};
ghost use Rattle.words.specs.Words.{word_at};
ghost use Rattle.semaphore.specs.Record.{slot_from};
ghost use Rattle.tables.specs.View.{seen};
ghost use Rattle.calls.specs.Agreeing.{Agreeing};
ghost use Rattle.shown.specs.Shown.{class_text, order_text, maximum_text, owner_text, kind_text, holders_text, slot_line, slot_lines};
ghost use Rattle.shown.specs.Puts.{Puts};

use super::writing::Text;
use semaphore::Semaphore;
use tables::View;

fn put_class(text: &mut Text<'_>, attributes: u32)
    ensures { Puts (class_text attributes) text.old text.new }
{
    if rules::is_binary(attributes) {
        text.put(b", binary");
    } else if rules::is_simple(attributes) {
        text.put(b", simple binary");
    } else {
        text.put(b", counting");
    }
}

fn put_order(text: &mut Text<'_>, attributes: u32)
    ensures { Puts (order_text attributes) text.old text.new }
{
    if attributes == rules::INHERITANCE {
        text.put(b", PRIORITY, inheritance: count ");
    } else if rules::is_by_priority(attributes) {
        text.put(b", PRIORITY: count ");
    } else {
        text.put(b", FIFO: count ");
    }
}

// Of a counting semaphore alone: the maximum of both binary classes is 1.
fn put_maximum(text: &mut Text<'_>, s: Semaphore)
    ensures { Puts (maximum_text (slot_from s)) text.old text.new }
{
    if rules::is_binary(s.attributes) || rules::is_simple(s.attributes) {
        return;
    }
    text.put_numbered(b", maximum ", s.maximum);
}

fn put_owner(text: &mut Text<'_>, s: Semaphore)
    ensures { Puts (owner_text (slot_from s)) text.old text.new }
{
    if !rules::is_binary(s.attributes) {
        return;
    }
    if s.owner == 0 {
        text.put(b", no owner");
    } else {
        text.put_numbered(b", owner ", s.owner);
        text.put_numbered(b", nest ", s.nest);
    }
}

// The identifier, the name, the class, the order, the count and the maximum of the semaphore in slot n, counted from 1.
fn put_kind(text: &mut Text<'_>, n: u32, s: Semaphore)
    requires { (n ≤ 64) × (s.generation ≤ 65535) }
    ensures { Puts (kind_text n (slot_from s)) text.old text.new }
{
    text.put_numbered(b"semaphore ", s.generation * rules::GENERATION_UNIT + n);
    text.put_numbered(b", name ", s.name);
    put_class(text, s.attributes);
    put_order(text, s.attributes);
    text.put_number(s.count);
    put_maximum(text, s);
}

// Who owns it, and who waits on it.
fn put_holders(text: &mut Text<'_>, s: Semaphore)
    requires { s.waiters ≤ 32 }
    ensures { Puts (holders_text (slot_from s)) text.old text.new }
{
    put_owner(text, s);
    text.put(b", waiting:");
    let queue = s.queue;
    text.put_tasks(&queue[..s.waiters as usize]);
    text.put(b"\n");
}

// The line of slot i, if a semaphore lives there.
fn put_slot(v: View<'_>, text: &mut Text<'_>, i: usize)
    requires { Agreeing v.bytes.now × (i < word_at v.bytes.now 1) }
    ensures { Puts (slot_line (seen v.entry) (suc i)) text.old text.new }
{
    let s = v.slot(i);
    if s.live != 1 {
        return;
    }
    put_kind(text, (i + 1) as u32, s);
    put_holders(text, s);
}

pub fn put_semaphores(v: View<'_>, text: &mut Text<'_>)
    requires { Agreeing v.bytes.now }
    ensures { Puts (slot_lines (seen v.entry)) text.old text.new }
{
    for i in 0..v.slot_count() {
        put_slot(v, text, i as usize);
    }
}
