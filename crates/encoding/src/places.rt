// Where each script stands, and the sections granted, in lent numbers.
ghost use Rattle.std.specs.Prelude.{◌≡◌, ℕ, ◌+◌, ◌*◌, ◌<◌, List, [], ◌∷◌, ◌++◌, length, slice_index, slice_set};
ghost use Rattle.sections.specs.Scripts.{Grant};
ghost use Rattle.sections.specs.Run.{at};
ghost use Rattle.encoding.specs.Laid.{place_of, laid_grants, PutsPlace, Answers};

/// Where a script stands: a section, and 0 at its obtain, p at its p-th step, behind the last at its release.
#[derive(Clone, Copy, Debug, PartialEq, Eq)]
pub struct Place {
    pub section: u32,
    pub position: u32,
}

/// The number at an index, 0 behind the last.
pub fn number_at(numbers: &[u32], i: usize) -> u32
    ensures { result ≡ slice_index numbers.now i }
{
    numbers.get(i).copied().unwrap_or(0)
}

/// A number stored where there is room for it.
pub fn put(numbers: &mut [u32], i: usize, x: u32)
    ensures { numbers.new ≡ slice_set numbers.old i x }
{
    // not by get_mut, behind which a proof knows the length alone
    if i < numbers.len() {
        numbers[i] = x;
    }
}

pub fn place_at(places: &[u32], i: usize) -> Place
    requires { 2 * i + 1 < length places.now }
    ensures { place_of result ≡ at (slice_index places.now (2 * i)) (slice_index places.now (2 * i + 1)) }
{
    Place {
        section: places[2 * i],
        position: places[2 * i + 1],
    }
}

pub fn put_place(places: &mut [u32], i: usize, place: Place)
    requires { 2 * i + 1 < length places.old }
    ensures { PutsPlace places.old i (place_of place) places.new }
{
    places[2 * i] = place.section;
    places[2 * i + 1] = place.position;
}

/// One grant more, as far as there is room. Where the count has room it is the true one.
pub fn add_grant(grants: &mut [u32], q: u32, section: u32)
    ensures { (ns : List ℕ) (gs : List Grant) → grants.old ≡ laid_grants ns gs
        → length gs < 4294967295 → grants.new ≡ laid_grants ns (gs ++ record { task = q; section = section } ∷ []) }
{
    let count = number_at(grants, 0);
    let at = 1 + 2 * (count as usize);
    put(grants, at, q);
    put(grants, at + 1, section);
    put(grants, 0, std::num::wrapping_add_u32(count, 1));
}

/// Script i of task q has an answer to its obtain: with 0 its section is granted, with any other but 100 it is skipped.
pub fn answered(places: &mut [u32], grants: &mut [u32], i: usize, q: u32, answer: u32)
    requires { 2 * i + 1 < length places.old }
    ensures { Answers places.old grants.old i q answer places.new grants.new }
{
    let section = place_at(places, i).section;
    match answer {
        rules::WAITING => {}
        rules::SUCCESSFUL => {
            let position = 1;
            put_place(places, i, Place { section, position });
            add_grant(grants, q, section);
        }
        _ => {
            let section = std::num::wrapping_add_u32(section, 1);
            let position = 0;
            put_place(places, i, Place { section, position });
        }
    }
}
