// The manager's entry points as C functions. A slice passes as a pointer and a length; include/mastclover.h declares them.
#![tactic(auto)]

ghost use Rattle.std.specs.Prelude.{◌≡◌, []};
ghost use Rattle.rules.specs.declared.Call.TheVariants.{Start, Create, Ident, Delete, Obtain, Release, Flush, Tick};
ghost use Rattle.rules.specs.Semaphore.{wait_of};
ghost use Rattle.manager.specs.Entry.{Replied, reply_to, looked_in, task_reply};

use rules::Answer;

#[unsafe(no_mangle)]
pub extern "C" fn mast_start(tables: &mut [u8], slots: u32, priorities: &[u32]) -> Answer
    ensures { Replied result tables.new (reply_to tables.old (Start slots) priorities.now) }
{
    manager::start(tables, slots, priorities)
}

#[unsafe(no_mangle)]
pub extern "C" fn mast_create(
    tables: &mut [u8],
    caller: u32,
    name: u32,
    count: u32,
    attributes: u32,
    maximum: u32,
) -> Answer
    ensures { Replied result tables.new (reply_to tables.old (Create caller name count attributes maximum) []) }
{
    manager::create(tables, caller, name, count, attributes, maximum)
}

#[unsafe(no_mangle)]
pub extern "C" fn mast_ident(tables: &[u8], name: u32) -> Answer
    ensures { Replied result tables.now (reply_to tables.now (Ident name) []) }
{
    manager::ident(tables, name)
}

#[unsafe(no_mangle)]
pub extern "C" fn mast_ident_looked(tables: &[u8], name: u32, looked: &mut u32) -> Answer
    ensures replied { Replied result tables.now (reply_to tables.now (Ident name) []) }
    ensures looked { looked.new ≡ looked_in tables.now name }
{
    let r = manager::ident_looked(tables, name);
    *looked = r.looked;
    r.answer
}

#[unsafe(no_mangle)]
pub extern "C" fn mast_delete(tables: &mut [u8], caller: u32, id: u32) -> Answer
    ensures { Replied result tables.new (reply_to tables.old (Delete caller id) []) }
{
    manager::delete(tables, caller, id)
}

#[unsafe(no_mangle)]
pub extern "C" fn mast_obtain(
    tables: &mut [u8],
    caller: u32,
    id: u32,
    options: u32,
    timeout: u32,
) -> Answer
    ensures { Replied result tables.new (reply_to tables.old (Obtain caller id (wait_of options timeout)) []) }
{
    manager::obtain(tables, caller, id, rules::wait_of(options, timeout))
}

#[unsafe(no_mangle)]
pub extern "C" fn mast_release(tables: &mut [u8], caller: u32, id: u32) -> Answer
    ensures { Replied result tables.new (reply_to tables.old (Release caller id) []) }
{
    manager::release(tables, caller, id)
}

#[unsafe(no_mangle)]
pub extern "C" fn mast_flush(tables: &mut [u8], caller: u32, id: u32) -> Answer
    ensures { Replied result tables.new (reply_to tables.old (Flush caller id) []) }
{
    manager::flush(tables, caller, id)
}

#[unsafe(no_mangle)]
pub extern "C" fn mast_tick(tables: &mut [u8]) -> Answer
    ensures { Replied result tables.new (reply_to tables.old Tick []) }
{
    manager::tick(tables)
}

#[unsafe(no_mangle)]
pub extern "C" fn mast_task(tables: &[u8], task: u32) -> Answer
    ensures { result ≡ task_reply tables.now task }
{
    manager::task(tables, task)
}
