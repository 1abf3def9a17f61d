// The text of a run of guarded sections, from its bytes to the numbers that a run takes.
// The tables are lent one beside the other: the proof loses what is written through a struct of several `&mut`.
#![tactic(auto)]

pub mod feeding;
mod numbers;
pub mod reading;
mod vocabulary;

ghost use Rattle.text.specs.Feeding.{IsPart};

/// The part of a file that a line stands in.
#[derive(Clone, Copy, Debug, PartialEq, Eq)]
pub enum Part {
    /// The session's lines, which make the tables.
    Session = 0,
    /// Cells, locals and scripts.
    Scripts = 1,
    /// The steps of a section.
    Section = 2,
    /// The events of the run.
    Events = 3,
}

impl From<u32> for Part {
    // any number above 2 is that of the events
    fn from(number: u32) -> Part
        ensures { IsPart number result }
    {
        match number {
            0 => Part::Session,
            1 => Part::Scripts,
            2 => Part::Section,
            _ => Part::Events,
        }
    }
}

/// How much of what is lent is read: the number of the file's part, and how many cells, numbers of scripts and numbers of events.
#[derive(Clone, Copy, Debug, PartialEq, Eq)]
pub struct At {
    pub part: u32,
    pub cells: usize,
    pub scripts: usize,
    pub events: usize,
}

/// Why a line is refused.
#[derive(Clone, Copy, Debug, PartialEq, Eq)]
pub enum Fault {
    /// No line of the second part.
    NoLine,
    /// A local of no task from 1 to 32, or beyond the 8 that each has.
    LocalOutOfRange,
    EndWithoutSection,
    StepWithoutSection,
    SectionWithoutScript,
    ScriptInSection,
    RunInSection,
    NoRoomForCell,
    NoRoomForRow,
    NoRoomForEvent,
}
