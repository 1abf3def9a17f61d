// Scripts as rows of four numbers: a kind and what it takes.
ghost use Rattle.std.specs.Prelude.{◌≡◌, ◌*◌, ◌+◌, ◌≤◌, length};
ghost use Rattle.std.specs.Iterator.{YieldsFirst, item_count};
ghost use Rattle.encoding.specs.Rows.{step_in, row_in, row_at, rows_of};

/// What a step does, in cells and in the locals of its task.
#[derive(Clone, Copy, Debug, PartialEq, Eq)]
pub enum Step {
    Load { cell: u32, local: u32 },
    Store { local: u32, cell: u32 },
    Set { local: u32, number: u32 },
    Add { local: u32, other: u32 },
}

/// A row: a script or a section begins with it, or it is a step, or none where its kind is no other.
#[derive(Clone, Copy, Debug, PartialEq, Eq)]
pub enum Row {
    Script { task: u32 },
    Section { id: u32, options: u32, timeout: u32 },
    Step(Option<Step>),
}

const SCRIPT: u32 = 1;

const SECTION: u32 = 2;

const LOAD: u32 = 3;

const STORE: u32 = 4;

const SET: u32 = 5;

const ADD: u32 = 6;

#[tactic(auto, using(laws::proofs::Choose::cases), unfolding(crate::specs::Rows::step_in))]
fn step_in(kind: u32, a: u32, b: u32) -> Option<Step>
    ensures { result ≡ step_in kind a b }
{
    match kind {
        LOAD => Some(Step::Load { cell: a, local: b }),
        STORE => Some(Step::Store { local: a, cell: b }),
        SET => Some(Step::Set {
            local: a,
            number: b,
        }),
        ADD => Some(Step::Add { local: a, other: b }),
        _ => None,
    }
}

#[tactic(auto, using(laws::proofs::Choose::cases), unfolding(crate::specs::Rows::row_in))]
fn row_in(kind: u32, a: u32, b: u32, c: u32) -> Row
    ensures { result ≡ row_in kind a b c }
{
    match kind {
        SCRIPT => Row::Script { task: a },
        SECTION => Row::Section {
            id: a,
            options: b,
            timeout: c,
        },
        _ => Row::Step(step_in(kind, a, b)),
    }
}

/// The rows that are left. Numbers that make no whole row are none.
#[derive(Clone, Copy)]
pub struct Rows<'a> {
    numbers: &'a [u32],
}

impl<'a> Rows<'a> {
    ghost use Rattle.encoding.specs.Left.{rows_left};

    pub fn new(numbers: &'a [u32]) -> Rows<'a>
        ensures { rows_left result ≡ rows_of numbers.now }
    {
        Rows { numbers }
    }
}

impl<'a> Iterator for Rows<'a> {
    ghost use Rattle.encoding.specs.Left.{rows_left};

    type Item = Row;

    ghost next_gives = { YieldsFirst rows_left };

    ghost remaining = { item_count rows_left };

    #[tactic(auto, using(crate::proofs::ReadingRows::rows_read))]
    fn next(&mut self) -> Option<Row> {
        let ([kind, a, b, c], rest) = self.numbers.split_first_chunk::<4>()?;
        self.numbers = rest;
        Some(row_in(*kind, *a, *b, *c))
    }
}
