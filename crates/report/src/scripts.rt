// The lines of tasks and scripts.
ghost use Rattle.std.specs.Prelude.{◌≡◌, ◌∷◌, [], ◌*◌, ◌≤◌, leb, eqb, length};
ghost use Rattle.laws.specs.Choose.{choose};
ghost use Rattle.report.specs.Report.{Fits, Written, paired, pair_text, pairs_text, locals_text, places_text, open_word, open_pairs};

use super::lines;

// Where the line of open sections ends, and whether it names none: no Option, since it ends somewhere either way.
#[derive(Clone, Copy)]
pub struct Opened {
    pub end: usize,
    pub none: bool,
}

// The locals of tasks 1 to `count`.
pub fn print_locals(out: &mut [u8], at: usize, word: &[u8], count: usize, locals: &[u32]) -> usize
    requires { (count ≤ 32) × (length locals.now ≡ 256) × Fits at (locals_text word.now count locals.now) out.old }
    ensures { Written at (locals_text word.now count locals.now) out.old out.new result }
{
    let mut end = at;
    for i in 0..count {
        let own = &locals[8 * i..8 * i + 8];
        end = lines::print_task(out, end, word, (i + 1) as u32, own);
    }
    end
}

pub fn print_places(out: &mut [u8], at: usize, tasks: &[u32], places: &[u32]) -> usize
    requires { (2 * length tasks.now ≤ length places.now) × Fits at (places_text tasks.now places.now) out.old }
    ensures { Written at (places_text tasks.now places.now) out.old out.new result }
{
    let mut end = at;
    for (i, task) in tasks.iter().enumerate() {
        let place = &places[2 * i..2 * i + 2];
        end = lines::print_task(out, end, b"place", *task, place);
    }
    end
}

// A script's task and section, if it stands behind its grant.
fn put_if_open(out: &mut [u8], at: usize, task: u32, section: u32, position: u32) -> usize
    requires { Fits at (choose (leb 1 position) (pair_text task section) []) out.old }
    ensures { Written at (choose (leb 1 position) (pair_text task section) []) out.old out.new result }
{
    if position < 1 {
        return at;
    }
    lines::put_pair(out, at, task, section)
}

fn put_open(out: &mut [u8], at: usize, tasks: &[u32], places: &[u32]) -> usize
    requires { (2 * length tasks.now ≤ length places.now) × Fits at (paired (open_pairs tasks.now places.now)) out.old }
    ensures { Written at (paired (open_pairs tasks.now places.now)) out.old out.new result }
{
    let mut end = at;
    for (i, task) in tasks.iter().enumerate() {
        end = put_if_open(out, end, *task, places[2 * i], places[2 * i + 1]);
    }
    end
}

pub fn print_open(out: &mut [u8], at: usize, tasks: &[u32], places: &[u32]) -> Opened
    requires { (2 * length tasks.now ≤ length places.now) × Fits at (pairs_text open_word (open_pairs tasks.now places.now)) out.old }
    ensures { Written at (pairs_text open_word (open_pairs tasks.now places.now)) out.old out.new result.end
        × (result.none ≡ eqb (length (open_pairs tasks.now places.now)) 0) }
{
    let from = line::put(out, at, b"open");
    let to = put_open(out, from, tasks, places);
    let end = line::put(out, to, b"\n");
    Opened {
        end,
        none: from == to,
    }
}
