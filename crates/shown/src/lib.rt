// A machine in words that a person reads.
#![tactic(auto)]

mod semaphores;
mod sequence;
mod tasks;
mod writing;

ghost use Rattle.std.specs.Prelude.{◌≤◌, length};
ghost use Rattle.tables.specs.Layout.{model_of};
ghost use Rattle.tables.specs.View.{seen};
ghost use Rattle.calls.specs.Agreeing.{Agreeing};
ghost use Rattle.report.specs.Report.{Written};
ghost use Rattle.shown.specs.Shown.{counts_line, shown_text, show_room};
ghost use Rattle.shown.specs.Puts.{Puts};

use tables::View;
use writing::Text;

fn put_counts(v: View<'_>, text: &mut Text<'_>)
    ensures { Puts (counts_line (seen v.entry)) text.old text.new }
{
    text.put_numbered(b"tasks ", v.task_count());
    text.put_numbered(b", slots ", v.slot_count());
    text.put_numbered(b", next task ", lookup::next_task(v));
    text.put(b"\n");
}

fn put_machine(v: View<'_>, text: &mut Text<'_>)
    requires { Agreeing v.bytes.now }
    ensures { Puts (shown_text (seen v.entry)) text.old text.new }
{
    put_counts(v, text);
    tasks::put_tasks(v, text);
    sequence::put_sequence(v, text);
    semaphores::put_semaphores(v, text);
}

/// Prints the machine at the front of `out`, and returns the text's length.
pub fn show(m: &[u8], out: &mut [u8]) -> usize
    requires { Agreeing m.now × (show_room ≤ length out.old) }
    ensures { Written 0 (shown_text (model_of m.now)) out.old out.new result }
{
    let mut text = Text::new(out);
    put_machine(View::new(m), &mut text);
    text.end
}
