// The scripts that rows are, the sections of a script, and the steps of a section.
ghost use Rattle.std.specs.Prelude.{◌≡◌, length, slice_get, option_map};
ghost use Rattle.std.specs.Iterator.{YieldsFirstBy, item_count};
ghost use Rattle.encoding.specs.Rows.{step_of, scripts_of};
ghost use Rattle.encoding.specs.Left.{ScriptOf};

use super::rows::{Row, Rows, Step};

/// The steps up to the next section or script. One that is no step is `None`.
#[derive(Clone, Copy)]
pub struct Steps<'a> {
    rows: Rows<'a>,
}

/// A section: what its obtain takes, and its steps.
#[derive(Clone, Copy)]
pub struct Section<'a> {
    pub id: u32,
    pub options: u32,
    pub timeout: u32,
    pub steps: Steps<'a>,
}

/// The sections up to the next script.
#[derive(Clone, Copy)]
pub struct Sections<'a> {
    rows: Rows<'a>,
}

/// A task's script.
#[derive(Clone, Copy)]
pub struct Script<'a> {
    pub task: u32,
    pub sections: Sections<'a>,
}

/// The scripts that are left.
#[derive(Clone, Copy)]
pub struct Scripts<'a> {
    rows: Rows<'a>,
}

impl<'a> Iterator for Steps<'a> {
    ghost use Rattle.encoding.specs.Left.{steps_left};

    type Item = Option<Step>;

    ghost next_gives = { YieldsFirstBy step_of steps_left };

    ghost remaining = { item_count steps_left };

    #[tactic(auto, unfolding(crate::specs::Rows::steps_from))]
    fn next(&mut self) -> Option<Option<Step>> {
        let mut rows = self.rows;
        match rows.next() {
            Some(Row::Step(step)) => {
                self.rows = rows;
                Some(step)
            }
            _ => None,
        }
    }
}

impl<'a> Iterator for Sections<'a> {
    ghost use Rattle.encoding.specs.Left.{section_from, sections_left};

    type Item = Section<'a>;

    ghost next_gives = { YieldsFirstBy section_from sections_left };

    ghost remaining = { item_count sections_left };

    #[tactic(auto, unfolding(crate::specs::Rows::sections_from))]
    fn next(&mut self) -> Option<Section<'a>> {
        let mut rows = self.rows;
        // `while let`, since what is left of the rows is the section's
        while let Some(row) = rows.next() {
            match row {
                Row::Script { .. } => return None,
                Row::Section {
                    id,
                    options,
                    timeout,
                } => {
                    self.rows = rows;
                    return Some(Section {
                        id,
                        options,
                        timeout,
                        steps: Steps { rows },
                    });
                }
                Row::Step(_) => {}
            }
        }
        None
    }
}

impl<'a> Scripts<'a> {
    ghost use Rattle.encoding.specs.Left.{scripts_left};

    pub fn new(numbers: &'a [u32]) -> Scripts<'a>
        ensures { scripts_left result ≡ scripts_of numbers.now }
    {
        Scripts {
            rows: Rows::new(numbers),
        }
    }
}

impl<'a> Iterator for Scripts<'a> {
    ghost use Rattle.encoding.specs.Left.{script_from, scripts_left};

    type Item = Script<'a>;

    ghost next_gives = { YieldsFirstBy script_from scripts_left };

    ghost remaining = { item_count scripts_left };

    #[tactic(auto, unfolding(crate::specs::Rows::scripts_from))]
    fn next(&mut self) -> Option<Script<'a>> {
        let mut rows = self.rows;
        while let Some(row) = rows.next() {
            if let Row::Script { task } = row {
                self.rows = rows;
                return Some(Script {
                    task,
                    sections: Sections { rows },
                });
            }
        }
        None
    }
}

impl<'a> Section<'a> {
    ghost use Rattle.encoding.specs.Rows.{step_of};
    ghost use Rattle.encoding.specs.Left.{section_from};

    /// The step at an index from 0 on.
    pub fn step(self, k: usize) -> Option<Option<Step>>
        ensures { option_map step_of result ≡ slice_get (section_from self.entry).steps k }
    {
        let mut steps = self.steps;
        steps.nth(k)
    }
}

impl<'a> Script<'a> {
    ghost use Rattle.encoding.specs.Left.{section_from, script_from};

    /// The section at an index from 0 on.
    pub fn section(self, k: usize) -> Option<Section<'a>>
        ensures { option_map section_from result ≡ slice_get (script_from self.entry).sections k }
    {
        let mut sections = self.sections;
        sections.nth(k)
    }
}

/// The script of a task, behind its place in the list.
pub fn script_of(scripts: &[u32], q: u32) -> Option<(usize, Script<'_>)>
    ensures { ScriptOf (scripts_of scripts.now) q result }
{
    Scripts::new(scripts)
        .enumerate()
        .find(|(_, script)| script.task == q)
}

pub fn script_count(scripts: &[u32]) -> usize
    ensures { result ≡ length (scripts_of scripts.now) }
{
    Scripts::new(scripts).count()
}
