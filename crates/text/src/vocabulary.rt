// A line's word and numbers.
ghost use Rattle.std.specs.Prelude.{◌≡◌, ◌≤◌, length, find, IfSome};
ghost use Rattle.std.specs.Str.{bytes_eq};
ghost use Rattle.text.specs.Words.{is_event_word, is_step_word, opens_scripts, count_fits, said_by};
ghost use Rattle.text.specs.Spoken.{number_of, text_of, event_words, script_words, every_word, said_of};

/// The words of lines.
#[derive(Clone, Copy, Debug, PartialEq, Eq)]
pub enum Word {
    Turn = 1,
    Start = 2,
    Create = 3,
    Ident = 4,
    Delete = 5,
    Obtain = 6,
    Release = 7,
    Flush = 8,
    Tick = 9,
    Script = 11,
    Section = 12,
    Load = 13,
    Store = 14,
    Set = 15,
    Add = 16,
    Cell = 17,
    Local = 18,
    End = 19,
    Run = 20,
}

/// What a line says: a word and as many numbers as it takes.
#[derive(Clone, Copy)]
pub struct Spoken<'a> {
    pub word: Word,
    pub numbers: &'a [u32],
}

impl Word {
    /// The word's number: an event's as a run's event, that of a step or a script as a script's row and 10 more.
    pub fn number(self) -> u32
        ensures { result ≡ number_of self }
    {
        self as u32
    }

    // Whether so many numbers may stand behind the word; a start takes one and then any count of priorities.
    #[tactic(auto, unfolding(crate::specs::Words::count_fits, crate::specs::Words::takes, laws::specs::Choose::choose))]
    fn takes(self, count: usize) -> bool
        ensures { result ≡ count_fits (number_of self) count }
    {
        match self {
            Word::Start => 1 <= count,
            Word::Tick | Word::End | Word::Run => count == 0,
            Word::Turn | Word::Ident | Word::Script => count == 1,
            Word::Delete
            | Word::Release
            | Word::Flush
            | Word::Load
            | Word::Store
            | Word::Set
            | Word::Add
            | Word::Cell => count == 2,
            Word::Section | Word::Local => count == 3,
            Word::Obtain => count == 4,
            Word::Create => count == 5,
        }
    }

    /// Whether the word is an event's.
    #[tactic(auto, unfolding(laws::specs::Choose::choose))]
    pub fn is_event(self) -> bool
        ensures { result ≡ is_event_word (number_of self) }
    {
        matches!(
            self,
            Word::Turn
                | Word::Start
                | Word::Create
                | Word::Ident
                | Word::Delete
                | Word::Obtain
                | Word::Release
                | Word::Flush
                | Word::Tick
        )
    }

    /// Whether the word is a step's.
    #[tactic(auto, unfolding(laws::specs::Choose::choose))]
    pub fn is_step(self) -> bool
        ensures { result ≡ is_step_word (number_of self) }
    {
        matches!(self, Word::Load | Word::Store | Word::Set | Word::Add)
    }

    /// Whether the second part of a file begins with the word.
    #[tactic(auto, unfolding(laws::specs::Choose::choose))]
    pub fn opens_scripts(self) -> bool
        ensures { result ≡ opens_scripts (number_of self) }
    {
        matches!(self, Word::Script | Word::Cell | Word::Local | Word::Run)
    }
}

// Tests one by one: the compiler makes them a switch by length, which it does not make of a search through a table of texts.
fn event_word(word: &[u8]) -> Option<Word>
    ensures { result ≡ find (λ v. bytes_eq word.now (text_of v)) event_words }
{
    if word == b"turn".as_slice() {
        Some(Word::Turn)
    } else if word == b"start".as_slice() {
        Some(Word::Start)
    } else if word == b"create".as_slice() {
        Some(Word::Create)
    } else if word == b"ident".as_slice() {
        Some(Word::Ident)
    } else if word == b"delete".as_slice() {
        Some(Word::Delete)
    } else if word == b"obtain".as_slice() {
        Some(Word::Obtain)
    } else if word == b"release".as_slice() {
        Some(Word::Release)
    } else if word == b"flush".as_slice() {
        Some(Word::Flush)
    } else if word == b"tick".as_slice() {
        Some(Word::Tick)
    } else {
        None
    }
}

fn script_word(word: &[u8]) -> Option<Word>
    ensures { result ≡ find (λ v. bytes_eq word.now (text_of v)) script_words }
{
    if word == b"script".as_slice() {
        Some(Word::Script)
    } else if word == b"section".as_slice() {
        Some(Word::Section)
    } else if word == b"load".as_slice() {
        Some(Word::Load)
    } else if word == b"store".as_slice() {
        Some(Word::Store)
    } else if word == b"set".as_slice() {
        Some(Word::Set)
    } else if word == b"add".as_slice() {
        Some(Word::Add)
    } else if word == b"cell".as_slice() {
        Some(Word::Cell)
    } else if word == b"local".as_slice() {
        Some(Word::Local)
    } else if word == b"end".as_slice() {
        Some(Word::End)
    } else if word == b"run".as_slice() {
        Some(Word::Run)
    } else {
        None
    }
}

fn word_of(word: &[u8]) -> Option<Word>
    ensures { result ≡ find (λ v. bytes_eq word.now (text_of v)) every_word }
{
    event_word(word).or_else(|| script_word(word))
}

/// What a line says, or `None` where it is no line of these. Reading ends at the first byte that breaks the line; the numbers are those left
/// in `room`.
pub fn said<'a>(line: &[u8], room: &'a mut [u32; 128]) -> Option<Spoken<'a>>
    ensures says { said_by line.now ≡ said_of result }
    ensures few { IfSome result (λ s. length s.numbers.now ≤ 128) }
{
    if 256 < line.len() {
        return None;
    }
    let n = line::word_length(line);
    let word = word_of(&line[..n])?;
    let count = line::read_numbers(line, n, room)?;
    if !word.takes(count) {
        return None;
    }
    let numbers = &room[..count];
    Some(Spoken { word, numbers })
}
