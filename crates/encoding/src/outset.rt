// The outset of a run, reported also where it is refused: each script at its start, and no grant.
ghost use Rattle.std.specs.Prelude.{◌≡◌, [], length, replicate};
ghost use Rattle.sections.specs.Run.{at};
ghost use Rattle.encoding.specs.Rows.{scripts_of};
ghost use Rattle.encoding.specs.Laid.{laid_places, laid_grants};

use super::{places, scripts};

// The places of n scripts, two zeros each, as far as there is room.
fn clear_places(places: &mut [u32], n: usize)
    ensures { places.new ≡ laid_places places.old (replicate n (at 0 0)) }
{
    // not by fill, of which the compiler makes a call of memset
    let mut k = 0;
    while k < places.len() {
        if n <= k / 2 {
            return;
        }
        places[k] = 0;
        k += 1;
    }
}

/// Puts each script at its start, and notes that there is no grant.
pub fn clear(scripts: &[u32], places: &mut [u32], grants: &mut [u32])
    ensures placed { places.new ≡ laid_places places.old (replicate (length (scripts_of scripts.now)) (at 0 0)) }
    ensures ungranted { grants.new ≡ laid_grants grants.old [] }
{
    clear_places(places, scripts::script_count(scripts));
    places::put(grants, 0, 0);
}
