// Lent tables that agree, as a value with the calls as its methods.
ghost use Rattle.calls.specs.Agreeing.{Agreeing};

use super::ident::Searched;
use rules::{Answer, Call};
use tables::View;

/// Tables that agree, in bytes that somebody else keeps. Every method keeps their agreement, so that no call tests it again.
#[derive(Drop)]
pub struct Tables<'a> {
    bytes: &'a mut [u8],
    ghost agreeing: { Agreeing bytes.now },
}

impl<'a> Tables<'a> {
    ghost use Rattle.std.specs.Prelude.{◌≡◌, []};
    ghost use Rattle.rules.specs.declared.Call.TheVariants.{Tick};
    ghost use Rattle.rules.specs.Calls.{ident, looked};
    ghost use Rattle.calls.specs.Reply.{Replied, reply};
    ghost use Rattle.calls.specs.Task.{task_answer};
    ghost use Rattle.calls.specs.Tables.{loan, machine, Performs};

    /// The tables that lie in the bytes.
    pub fn new(bytes: &'a mut [u8]) -> Tables<'a>
        requires { Agreeing bytes.old }
        ensures value { result.bytes.now ≡ bytes.old }
        ensures loan { loan result ≡ bytes.entry.ghost_name }
    {
        Tables { bytes }
    }

    /// The same tables, for reading.
    #[tactic(auto, using(crate::proofs::Agreeing::sized))]
    pub fn view(&self) -> View<'_>
        ensures { result.bytes.now ≡ self.now.bytes.now }
    {
        View::new(self.bytes)
    }

    /// Any call, with the priorities that a start takes beside it.
    pub fn perform(&mut self, call: Call, priorities: &[u32]) -> Answer
        ensures { Performs self.old self.new result call priorities.now }
    {
        super::perform(self.bytes, call, priorities)
    }

    /// A tick, as a timer's interrupt makes it.
    pub fn tick(&mut self) -> Answer
        ensures { Performs self.old self.new result Tick [] }
    {
        super::tick::tick(self.bytes)
    }

    /// An ident, and how many slots its search looked at.
    pub fn ident(&self, name: u32) -> Searched
        ensures replied { Replied result.answer self.now.bytes.now (reply (ident (machine self.now) name)) }
        ensures looked { result.looked ≡ looked (machine self.now) name }
    {
        super::ident::ident(self.bytes, name)
    }

    /// The latest answer of a task, 100 while it waits; 4 for a number outside 1..N.
    pub fn task(&self, q: u32) -> Answer
        ensures { result ≡ task_answer (machine self.now) q }
    {
        super::task::task(self.bytes, q)
    }
}
