// Single entries of the list, by semid.
ghost use Rattle.std.specs.Prelude.{◌≡◌, eqb};
ghost use Rattle.laws.specs.Choose.{choose};
ghost use Rattle.rules.specs.Numbers.{successful};
ghost use Rattle.mapping.specs.Mapping.{entry_of, map_to};

use rules::Answer;

/// What semid stands for: an identifier, or 0 for nothing.
pub fn entry_of(list: &[u32], semid: u32) -> u32
    ensures { result ≡ entry_of list.now semid }
{
    let k = lookup::index_of(semid) as usize;
    match list.get(k) {
        Some(id) => *id,
        None => 0,
    }
}

// From now on semid stands for that identifier, or with 0 for nothing.
fn map_to(list: &mut [u32], semid: u32, id: u32)
    ensures { list.new ≡ map_to list.old semid id }
{
    let k = lookup::index_of(semid) as usize;
    // `get_mut` promises nothing of what the list becomes.
    if k < list.len() {
        list[k] = id;
    }
}

/// Where a Classic call is done, semid stands for its value from then on: a create's identifier, a delete's 0.
#[tactic(auto, using(laws::proofs::Choose::cases))]
pub fn remember(list: &mut [u32], semid: u32, a: Answer)
    ensures { list.new
        ≡ choose (eqb a.status successful) (map_to list.old semid a.value) list.old }
{
    if a.status == rules::SUCCESSFUL {
        map_to(list, semid, a.value);
    }
}
