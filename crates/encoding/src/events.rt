// Events as numbers laid end to end: a kind, then its numbers.
ghost use Rattle.std.specs.Prelude.{◌≡◌, ◌≤◌, slice_index, Some};
ghost use Rattle.std.specs.Iterator.{YieldsFirstBy, item_count};
ghost use Rattle.sections.specs.Run.{caller_of};
ghost use Rattle.encoding.specs.Events.{size_of, event_size, event_at, events_of};
ghost use Rattle.encoding.specs.Kinds.{number_of, KindOf, event_from, SplitEvent};

use super::places::number_at;
use rules::Call;

#[derive(Clone, Copy)]
enum Kind {
    Turn,
    Start,
    Create,
    Ident,
    Delete,
    Obtain,
    Release,
    Flush,
    Tick,
}

/// A turn of a script's task, or a call by someone else. The priorities are those of a start.
#[derive(Clone, Copy)]
pub enum Event<'a> {
    Turn { task: u32 },
    Call { call: Call, priorities: &'a [u32] },
}

#[inline(always)]
fn kind_of(number: u32) -> Option<Kind>
    ensures { KindOf number result }
{
    match number {
        1 => Some(Kind::Turn),
        2 => Some(Kind::Start),
        3 => Some(Kind::Create),
        4 => Some(Kind::Ident),
        5 => Some(Kind::Delete),
        6 => Some(Kind::Obtain),
        7 => Some(Kind::Release),
        8 => Some(Kind::Flush),
        9 => Some(Kind::Tick),
        _ => None,
    }
}

// How many numbers an event of a kind is. A start has as many priorities as it says.
#[inline(always)]
#[tactic(auto, unfolding(crate::specs::Events::size_of, laws::specs::Choose::choose))]
fn size_of(kind: Kind, count: u32) -> usize
    ensures { result ≡ size_of (number_of kind) count }
{
    match kind {
        Kind::Start => 3 + (count as usize),
        Kind::Create => 6,
        Kind::Obtain => 5,
        Kind::Delete | Kind::Release | Kind::Flush => 3,
        Kind::Turn | Kind::Ident => 2,
        Kind::Tick => 1,
    }
}

// The event of a kind that the numbers begin with.
#[inline(always)]
fn event_of(kind: Kind, e: &[u32]) -> Event<'_>
    requires { (1 ≤ event_size e.now) × (slice_index e.now 0 ≡ number_of kind) }
    ensures { event_from (Some result) ≡ event_at e.now }
{
    let a = number_at(e, 1);
    let b = number_at(e, 2);
    let call = match kind {
        Kind::Turn => return Event::Turn { task: a },
        Kind::Start => {
            return Event::Call {
                call: Call::Start { slots: a },
                priorities: &e[3..3 + b as usize],
            };
        }
        Kind::Create => Call::Create {
            caller: a,
            name: b,
            count: number_at(e, 3),
            attributes: number_at(e, 4),
            maximum: number_at(e, 5),
        },
        Kind::Ident => Call::Ident { name: a },
        Kind::Delete => Call::Delete { caller: a, id: b },
        Kind::Obtain => Call::Obtain {
            caller: a,
            id: b,
            wait: rules::wait_of(number_at(e, 3), number_at(e, 4)),
        },
        Kind::Release => Call::Release { caller: a, id: b },
        Kind::Flush => Call::Flush { caller: a, id: b },
        Kind::Tick => Call::Tick,
    };
    let priorities = &[];
    Event::Call { call, priorities }
}

// The event that numbers begin with, and those behind it. None where they begin with no kind, or with an event cut short.
#[inline(always)]
fn split_event(e: &[u32]) -> Option<(Event<'_>, &[u32])>
    ensures { SplitEvent e.now result }
{
    let kind = kind_of(number_at(e, 0))?;
    let size = size_of(kind, number_at(e, 2));
    if e.len() < size {
        return None;
    }
    Some((event_of(kind, e), &e[size..]))
}

/// The events that are left. What is no event is `None`, and with it the reading ends.
#[derive(Clone, Copy)]
pub struct Events<'a> {
    numbers: &'a [u32],
}

impl<'a> Events<'a> {
    ghost use Rattle.encoding.specs.Kinds.{events_left};

    pub fn new(numbers: &'a [u32]) -> Events<'a>
        ensures { events_left result ≡ events_of numbers.now }
    {
        Events { numbers }
    }
}

impl<'a> Iterator for Events<'a> {
    ghost use Rattle.encoding.specs.Kinds.{event_from, events_left};

    type Item = Option<Event<'a>>;

    ghost next_gives = { YieldsFirstBy event_from events_left };

    ghost remaining = { item_count events_left };

    // inlined, as what it calls is, so that a caller that asks less of an event builds no whole one
    #[inline(always)]
    #[tactic(auto, using(crate::proofs::ReadingEvents::events_end), unfolding(crate::specs::Events::events_from))]
    fn next(&mut self) -> Option<Option<Event<'a>>> {
        if self.numbers.is_empty() {
            return None;
        }
        if let Some((event, rest)) = split_event(self.numbers) {
            self.numbers = rest;
            return Some(Some(event));
        }
        self.numbers = &[];
        Some(None)
    }
}

/// The caller of a call, 0 where it has none.
pub fn caller_of(call: Call) -> u32
    ensures { result ≡ caller_of call }
{
    match call {
        Call::Create { caller, .. }
        | Call::Delete { caller, .. }
        | Call::Obtain { caller, .. }
        | Call::Release { caller, .. }
        | Call::Flush { caller, .. } => caller,
        Call::Start { .. } | Call::Ident { .. } | Call::Tick => 0,
    }
}
