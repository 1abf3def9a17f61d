// Working priorities. Whom each task lends to is read off the tables once; chains are then followed in that list.
ghost use Rattle.std.specs.Prelude.{◌≡◌};
ghost use Rattle.rules.specs.Machine.{task_of, lends_to, working_with};
ghost use Rattle.tables.specs.View.{seen};
ghost use Rattle.lookup.specs.Lending.{lendings, LendersOf};

use tables::View;

/// Whom each task lends its priority to, and how many links of a chain are to be followed: none where nobody lends.
/// 0 is nobody: options would take twice the stack. It is handed down in its parts: as one value with the view it takes 8 bytes of stack more on the way
/// of an obtain, which misses the bar.
#[derive(Clone, Copy)]
pub struct Lenders {
    pub links: u32,
    pub to: [u32; 32],
}

// A task's own priority, 0 for a number above N.
#[tactic(auto, using(crate::proofs::Answers::owning))]
fn own_priority(v: View<'_>, q: u32) -> u32
    ensures { result ≡ (task_of (seen v.entry) q).priority }
{
    let i = super::index_of(q);
    if v.task_count() <= i {
        return 0;
    }
    let task = v.task(i as usize);
    task.priority
}

// The owner of the inheritance semaphore that task q waits on, or 0, as the list of lenders has it.
#[tactic(auto, using(crate::proofs::Lending::lending))]
fn lends_to(v: View<'_>, q: u32) -> u32
    ensures { result ≡ lends_to (seen v.entry) q }
{
    if q < 1 || v.task_count() < q {
        return 0;
    }
    let task = v.task((q - 1) as usize);
    // Few semaphores have 84: that is asked first, at the place where the slot of the identifier stands if it names one.
    let place = (task.awaited % rules::GENERATION_UNIT + rules::MAX_SLOTS - 1) % rules::MAX_SLOTS;
    let s = v.head(place as usize);
    if s.attributes != rules::INHERITANCE || task.answer != rules::WAITING {
        return 0;
    }
    match super::slot_named(v, task.awaited) {
        Some(_) => s.owner,
        None => 0,
    }
}

/// Who lends to whom.
pub fn load_lenders(v: View<'_>) -> Lenders
    ensures { LendersOf (seen v.entry) result }
{
    let tasks = v.task_count();
    // filled where it stands: a list of its own would be held twice
    let mut lenders = Lenders {
        links: 0,
        to: [0u32; 32],
    };
    for i in 0..tasks {
        let q = lends_to(v, i + 1);
        lenders.to[i as usize] = q;
        if q != 0 {
            lenders.links = tasks;
        }
    }
    lenders
}

// The working priority of task q with so many links left: the least of its own and of those of the tasks that lend to it, with one link less.
// A task lends to one other, so that at each depth it is met at most once: from one task, and from all of a queue together, N * N times at the most.
fn priority(v: View<'_>, to: &[u32; 32], q: u32, links: u32) -> u32
    requires { to.now ≡ lendings (seen v) }
    ensures { result ≡ working_with (seen v.entry) links q }
{
    let own = own_priority(v, q);
    if links == 0 || q == 0 {
        return own;
    }
    let mut least = own;
    for i in 0..v.task_count() {
        // Passed over by `continue`: so each level of the recursion takes 8 bytes of stack less.
        if to[i as usize] != q {
            continue;
        }
        let lent = priority(v, to, i + 1, links - 1);
        least = least.min(lent);
    }
    least
}

/// The same, as others ask for it: where nobody lends there are no links, and the recursion is not entered.
pub fn urgency(v: View<'_>, to: &[u32; 32], q: u32, links: u32) -> u32
    requires { to.now ≡ lendings (seen v) }
    ensures { result ≡ working_with (seen v.entry) links q }
{
    if links == 0 {
        return own_priority(v, q);
    }
    priority(v, to, q, links)
}
