// The list that maps semid 1..S to a live identifier or nothing, lent beside the tables.
#![tactic(auto)]

pub mod entries;

ghost use Rattle.std.specs.Prelude.{◌≡◌, ◌<◌, ◌≤◌, length};
ghost use Rattle.tables.specs.View.{seen};
ghost use Rattle.mapping.specs.Mapping.{forgotten, is_counting, is_mappable, is_new, entry_agrees, list_agrees};

use tables::View;

// An entry for each slot that there can be.
const LIST_LENGTH: usize = 64;

// The greatest count that ITRON's numbers, of 32 bits with a sign, can tell.
const GREATEST_COUNT: u32 = 2147483647;

#[tactic(auto, using(laws::proofs::Choose::cases), unfolding(laws::specs::Choose::choose))]
fn is_counting(attributes: u32) -> bool
    ensures { result ≡ is_counting attributes }
{
    !rules::is_binary(attributes) && !rules::is_simple(attributes)
}

// Whether an identifier is that of a live counting semaphore whose count ITRON's numbers can tell.
#[tactic(auto, using(crate::proofs::Tests::mappables))]
fn is_mappable(v: View<'_>, id: u32) -> bool
    ensures { result ≡ is_mappable (seen v.entry) id }
{
    let Some(n) = lookup::slot_named(v, id) else {
        return false;
    };
    let s = v.head(n as usize - 1);
    is_counting(s.attributes) && s.maximum <= GREATEST_COUNT
}

// Whether none of the first k entries is that identifier.
fn is_new(list: &[u32], k: usize, id: u32) -> bool
    requires { k ≤ length list.now }
    ensures { result ≡ is_new list.now k id }
{
    list[..k].iter().all(|before| *before != id)
}

#[tactic(auto, using(laws::proofs::Choose::cases, lookup::proofs::Model::length_slots), unfolding(crate::specs::Mapping::entry_agrees))]
fn is_entry_agreeing(v: View<'_>, list: &[u32], k: usize) -> bool
    requires { k < length list.now }
    ensures { result ≡ entry_agrees (seen v.entry) list.now k }
{
    let id = list[k];
    id == 0 || (k < v.slot_count() as usize && is_mappable(v, id) && is_new(list, k, id))
}

/// Whether the list has 64 entries, each nothing or the identifier of a live counting semaphore with a maximum of at most 2147483647,
/// none of them twice, and nothing behind entry S.
#[tactic(auto, using(laws::proofs::Choose::cases), unfolding(crate::specs::Mapping::list_agrees))]
pub fn is_agreeing(v: View<'_>, list: &[u32]) -> bool
    ensures { result ≡ list_agrees (seen v.entry) list.now }
{
    list.len() == LIST_LENGTH && (0..LIST_LENGTH).all(|k| is_entry_agreeing(v, list, k))
}

/// Where an identifier stands in the list is nothing from now on.
#[tactic(auto, using(crate::proofs::Forgotten::forgets))]
pub fn forget(list: &mut [u32], id: u32)
    ensures { list.new ≡ forgotten id list.old }
{
    for entry in list.iter_mut() {
        if *entry == id {
            *entry = 0;
        }
    }
}
