// The state file: written from lent tables and read into them, in place. Neither is asked anything: each tests what it is lent.
#![tactic(auto)]

mod contents;
mod reading;
mod writing;

ghost use Rattle.std.specs.Prelude.{◌≡◌, length};
ghost use Rattle.rules.specs.Machine.{unstarted};
ghost use Rattle.rules.specs.Calls.{answered};
ghost use Rattle.rules.specs.Status.{status};
ghost use Rattle.tables.specs.Layout.{tables_length, laid, model_of};
ghost use Rattle.tables.specs.View.{seen};
ghost use Rattle.calls.specs.Agreeing.{Agreeing};
ghost use Rattle.state.specs.Reply.{reply, Replied, value, saved, loaded, save_reply, load_reply};

use rules::{Answer, Refusal};
use tables::View;

// An answer with the next task as the tables are; its value is 0 with a refusal.
fn answer(v: View<'_>, done: Result<u32, Refusal>) -> Answer
    ensures { result ≡ (answered (status done) (value done) (seen v.entry)).answer }
{
    let (status, value) = match done {
        Ok(value) => (rules::SUCCESSFUL, value),
        Err(refusal) => (refusal.status(), 0),
    };
    Answer {
        status,
        value,
        next: lookup::next_task(v),
    }
}

// The machine as before its start: all zeros.
fn clear(m: &mut [u8])
    requires { length m.old ≡ tables_length }
    ensures { m.new ≡ laid unstarted }
{
    // not by `fill`: it brings a trap into the C library, which the step for other processors refuses
    for byte in m.iter_mut() {
        *byte = 0;
    }
}

// Writes the file of tables that agree at the buffer's front; returns its length in bytes.
fn write(v: View<'_>, file: &mut [u8]) -> Result<u32, Refusal>
    requires { Agreeing v.bytes.now }
    ensures { Replied (answered (status result) (value result) (seen v.entry)).answer file.new (saved (seen v.entry) file.old) }
{
    if v.task_count() == 0 {
        return Err(Refusal::IncorrectState);
    }
    let c = writing::counts_of(v);
    let length = 4 * contents::file_end(c);
    if file.len() < length {
        return Err(Refusal::InvalidSize);
    }
    writing::write(v, file, c);
    Ok(length as u32)
}

// Reads a file into tables that agree.
fn read(m: &mut [u8], file: &[u8]) -> Result<u32, Refusal>
    requires { Agreeing m.old }
    ensures replied { Replied (answered (status result) (value result) (model_of m.new)).answer m.new (reply (loaded (model_of m.old) file.now)) }
    ensures kept { Agreeing m.new }
{
    if tables::task_count(m) != 0 {
        return Err(Refusal::IncorrectState);
    }
    if let Err(refusal) = reading::take_in(m, file) {
        // Before a start every byte is 0, so this is what stood there.
        clear(m);
        return Err(refusal);
    }
    Ok(0)
}

/// Writes the file of the tables at the buffer's front; the value is its length in bytes. Refused with 25 where the bytes are no tables that agree,
/// with 14 before a start, and with 8 where the buffer is shorter than the file.
pub fn save(m: &[u8], file: &mut [u8]) -> Answer
    ensures { Replied result file.new (save_reply m.now file.old) }
{
    if !agreement::is_agreeing(m) {
        return manager::internal_error();
    }
    let v = View::new(m);
    let done = write(v, file);
    answer(v, done)
}

/// Reads a file into the tables of a machine that is not started. Refused with 25 where the bytes are no tables that agree, with 14 after a start,
/// and with 8 for a file that no tables give.
pub fn load(m: &mut [u8], file: &[u8]) -> Answer
    ensures { Replied result m.new (load_reply m.old file.now) }
{
    if !agreement::is_agreeing(m) {
        return manager::internal_error();
    }
    let done = read(m, file);
    answer(View::new(m), done)
}
