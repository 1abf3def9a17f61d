// The search for a name. A look's count goes up with each slot that is read, and with nothing else: a search begins with no look, each of its looks
// is at the slot behind the one before, and outside of this file nobody can make a look or write its count.
// It reads bytes and no view: those behind the slot it stops at need not be there, as `Reaches` says.
ghost use Rattle.std.specs.Prelude.{◌≡◌, ◌+◌, ◌*◌, ◌≤◌, ◌<◌, length};
ghost use Rattle.tables.specs.Layout.{slot_place, model_of};
ghost use Rattle.lookup.specs.Search.{no_look, next_look, last_look, is_match, search_length, Reaches};

/// The slot looked at last, and how many were looked at with it.
#[derive(Clone, Copy)]
pub struct Look {
    count: u32,
    pub generation: u32,
    live: u32,
    name: u32,
}

// Before the first look.
fn none() -> Look
    ensures { result ≡ no_look }
{
    Look {
        count: 0,
        generation: 0,
        live: 0,
        name: 0,
    }
}

// The slot behind the one looked at last. No byte behind it need be there.
fn next_look(m: &[u8], last: Look) -> Look
    requires { (last.count < 64) × (4 * slot_place (last.count + 1) ≤ length m.now) }
    ensures { result ≡ next_look m.now last }
{
    let i = last.count as usize;
    Look {
        count: last.count + 1,
        generation: tables::slot_generation(m, i),
        live: tables::slot_live(m, i),
        name: tables::slot_name(m, i),
    }
}

/// How many slots were looked at.
pub fn count(last: Look) -> u32
    ensures { result ≡ last.count }
{
    last.count
}

/// Whether the slot looked at last is a live semaphore of that name.
#[tactic(auto, using(laws::proofs::Choose::cases))]
pub fn is_match(last: Look, name: u32) -> bool
    ensures { result ≡ is_match last name }
{
    last.live == 1 && last.name == name
}

/// Looks at the slots in turn, up to the first that matches, and hands back the last look. No byte behind that slot need be there.
pub fn search(m: &[u8], slots: u32, name: u32) -> Look
    requires { Reaches m.now slots name }
    ensures { result ≡ last_look m.now (search_length (model_of m.now) name) }
{
    let mut last = none();
    // the looks count themselves: a number of the loop's own would count them twice
    while last.count < slots {
        last = next_look(m, last);
        if is_match(last, name) {
            return last;
        }
    }
    last
}
