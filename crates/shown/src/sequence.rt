// The line of the ready tasks, in their order.
ghost use Rattle.std.specs.Prelude.{◌≡◌};
ghost use Rattle.tables.specs.Layout.{sequence_at};
ghost use Rattle.tables.specs.View.{seen};
ghost use Rattle.shown.specs.Shown.{sequence_line};
ghost use Rattle.shown.specs.Puts.{Puts};

use super::writing::Text;
use tables::View;

// All places of the sequence.
fn load_sequence(v: View<'_>) -> [u32; 32]
    ensures { result ≡ sequence_at v.entry.bytes.now }
{
    let mut tasks = [0u32; 32];
    for (k, task) in tasks.iter_mut().enumerate() {
        *task = v.ready_entry(k);
    }
    tasks
}

pub fn put_sequence(v: View<'_>, text: &mut Text<'_>)
    ensures { Puts (sequence_line (seen v.entry)) text.old text.new }
{
    let tasks = load_sequence(v);
    let n = v.ready_count() as usize;
    text.put(b"ready, the longest first:");
    text.put_tasks(&tasks[..n]);
    text.put(b"\n");
}
