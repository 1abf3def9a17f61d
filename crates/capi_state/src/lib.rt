// The state file as C functions, in an object of its own: a firmware that does not call them does not link them.
#![tactic(auto)]

ghost use Rattle.state.specs.Reply.{Replied, save_reply, load_reply};

use rules::Answer;

#[unsafe(no_mangle)]
pub extern "C" fn mast_save(tables: &[u8], file: &mut [u8]) -> Answer
    ensures { Replied result file.new (save_reply tables.now file.old) }
{
    state::save(tables, file)
}

#[unsafe(no_mangle)]
pub extern "C" fn mast_load(tables: &mut [u8], file: &[u8]) -> Answer
    ensures { Replied result tables.new (load_reply tables.old file.now) }
{
    state::load(tables, file)
}
