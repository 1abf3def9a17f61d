// The ITRON calls as C functions, in an object of their own: a firmware that does not call them does not link them.
#![tactic(auto)]

ghost use Rattle.std.specs.Prelude.{◌≡◌};
ghost use Rattle.itron.specs.Codes.{code_of};
ghost use Rattle.itron.specs.Calls.{cre_sem, del_sem, sig_sem, wai_sem, preq_sem, twai_sem};
ghost use Rattle.itron_calls.specs.Reply.{code_reply, ref_reply, delete_reply, Leaves};

use itron::{Coded, Reference};
use rules::Answer;

#[tactic(auto, using(itron::proofs::Signed::read))]
#[unsafe(no_mangle)]
pub extern "C" fn mast_cre_sem(
    tables: &mut [u8],
    list: &mut [u32],
    caller: u32,
    semid: u32,
    sematr: u32,
    isemcnt: i32,
    maxsem: i32,
) -> Coded
    ensures { Leaves result tables.new list.new
        (code_reply tables.old list.old (λ t l. cre_sem t l caller semid sematr isemcnt maxsem)) }
{
    itron_calls::cre_sem(tables, list, caller, semid, sematr, isemcnt, maxsem)
}

#[unsafe(no_mangle)]
pub extern "C" fn mast_del_sem(
    tables: &mut [u8],
    list: &mut [u32],
    caller: u32,
    semid: u32,
) -> Coded
    ensures { Leaves result tables.new list.new
        (code_reply tables.old list.old (λ t l. del_sem t l caller semid)) }
{
    itron_calls::del_sem(tables, list, caller, semid)
}

#[unsafe(no_mangle)]
pub extern "C" fn mast_sig_sem(tables: &mut [u8], list: &[u32], caller: u32, semid: u32) -> Coded
    ensures { Leaves result tables.new list.now
        (code_reply tables.old list.now (λ t l. sig_sem t l caller semid)) }
{
    itron_calls::sig_sem(tables, list, caller, semid)
}

#[unsafe(no_mangle)]
pub extern "C" fn mast_wai_sem(tables: &mut [u8], list: &[u32], caller: u32, semid: u32) -> Coded
    ensures { Leaves result tables.new list.now
        (code_reply tables.old list.now (λ t l. wai_sem t l caller semid)) }
{
    itron_calls::wai_sem(tables, list, caller, semid)
}

#[unsafe(no_mangle)]
pub extern "C" fn mast_preq_sem(tables: &mut [u8], list: &[u32], caller: u32, semid: u32) -> Coded
    ensures { Leaves result tables.new list.now
        (code_reply tables.old list.now (λ t l. preq_sem t l caller semid)) }
{
    itron_calls::preq_sem(tables, list, caller, semid)
}

#[tactic(auto, using(itron::proofs::Signed::read))]
#[unsafe(no_mangle)]
pub extern "C" fn mast_twai_sem(
    tables: &mut [u8],
    list: &[u32],
    caller: u32,
    semid: u32,
    tmout: i32,
) -> Coded
    ensures { Leaves result tables.new list.now
        (code_reply tables.old list.now (λ t l. twai_sem t l caller semid tmout)) }
{
    itron_calls::twai_sem(tables, list, caller, semid, tmout)
}

#[unsafe(no_mangle)]
pub extern "C" fn mast_ref_sem(tables: &[u8], list: &[u32], caller: u32, semid: u32) -> Reference
    ensures { result ≡ ref_reply tables.now list.now caller semid }
{
    itron_calls::ref_sem(tables, list, caller, semid)
}

#[unsafe(no_mangle)]
pub extern "C" fn mast_delete_mapped(
    tables: &mut [u8],
    list: &mut [u32],
    caller: u32,
    id: u32,
) -> Answer
    ensures { Leaves result tables.new list.new (delete_reply tables.old list.old caller id) }
{
    itron_calls::delete_mapped(tables, list, caller, id)
}

#[unsafe(no_mangle)]
pub extern "C" fn mast_itron_code(answer: u32) -> i32
    ensures { result ≡ code_of answer }
{
    itron::codes::code_of(answer)
}
