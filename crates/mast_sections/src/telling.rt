// What standard error is told of a text at fault.
use std::fmt;
use text::Fault;
use text::feeding::Faulty;

/// A line at fault, in one sentence with its number.
#[derive(Clone, Copy)]
pub struct Told(pub Faulty);

// A sentence ends in its newline, so that both go out in one write. Those of no room name the limits of the program.
impl fmt::Display for Told {
    fn fmt<W: fmt::Write>(&self, f: &mut fmt::Formatter<W>) -> fmt::Result {
        write!(f, "line {}: ", self.0.line)?;
        match self.0.fault {
            Fault::NoLine => write!(f, "this is no cell, local, script, section or run.\n"),
            Fault::LocalOutOfRange => write!(
                f,
                "a local has a task from 1 to 32 and an index from 0 to 7, and this one has not.\n"
            ),
            Fault::EndWithoutSection => write!(f, "this end has no section to end.\n"),
            Fault::StepWithoutSection => write!(f, "this step is in no section.\n"),
            Fault::SectionWithoutScript => write!(f, "this section is in no script.\n"),
            Fault::ScriptInSection => write!(
                f,
                "a script begins before the section above it has its end.\n"
            ),
            Fault::RunInSection => write!(
                f,
                "the run begins before the section above it has its end.\n"
            ),
            Fault::NoRoomForCell => write!(
                f,
                "there is room for 1024 cells, and this is one more.\n"
            ),
            Fault::NoRoomForRow => write!(
                f,
                "there is room for 8192 lines of scripts, sections and steps, and this is one more.\n"
            ),
            Fault::NoRoomForEvent => write!(
                f,
                "there is room for 655360 numbers of events (a tick has 1, a turn 2, a create 6), and this event has more.\n"
            ),
        }
    }
}
