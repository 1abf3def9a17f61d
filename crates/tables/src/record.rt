ghost use Rattle.std.specs.Prelude.{◌≡◌, ◌+◌, ◌*◌, ◌≤◌, ℕ, List, length};
ghost use Rattle.std.proofs.lemmas.List.Edits.{sets};
ghost use Rattle.words.specs.Words.{bytes_of};
ghost use Rattle.tables.specs.Layout.{row_at};
ghost use Rattle.tables.specs.Record.{RecordLaws};

use super::Head;
use rules::Task;

/// A value that lies in bytes as a row of `W` words.
pub trait Record<const W: usize>: Copy {
    ghost words_of: { Self → List ℕ };

    ghost value_of: { List ℕ → Self };

    fn to_words(self) -> [u32; W]
        ensures { result ≡ words_of self };

    fn from_words(words: [u32; W]) -> Self
        ensures { result ≡ value_of words.entry };

    /// The value whose row begins at word `at`, each word read by itself: who needs few of them reads those alone.
    fn read(m: &[u8], at: usize) -> Self
        requires { 4 * (at + W) ≤ length m.now }
        ensures { result ≡ value_of (row_at m.now at W) };

    ghost laws: { RecordLaws Self W words_of value_of };
}

/// `W` words, from word `at` on.
pub fn load_row<const W: usize>(m: &[u8], at: usize) -> [u32; W]
    requires { 4 * (at + W) ≤ length m.now }
    ensures { result ≡ row_at m.now at W }
{
    let mut row = [0; W];
    // by places, as `set_words` writes them
    for k in 0..W {
        row[k] = words::word(m, at + k);
    }
    row
}

/// The value whose row begins at word `at`.
pub fn load<const W: usize, R: Record<W>>(m: &[u8], at: usize) -> R
    requires { 4 * (at + W) ≤ length m.now }
    ensures { result ≡ R.value_of (row_at m.now at W) }
{
    R::read(m, at)
}

/// The row of a value, from word `at` on.
pub fn store<const W: usize, R: Record<W>>(m: &mut [u8], at: usize, value: R)
    requires { 4 * (at + W) ≤ length m.old }
    ensures { m.new ≡ sets m.old (4 * at) (bytes_of (R.words_of value)) }
{
    words::set_words(m, at, &value.to_words());
}

impl Record<4> for Task {
    ghost use Rattle.std.specs.Prelude.{refl};
    ghost use Rattle.tables.specs.Codec.{task_row, task_from};

    ghost words_of = { task_row };

    ghost value_of = { task_from };

    ghost laws = { record { width = λ x. refl; back = λ x. refl } };

    fn to_words(self) -> [u32; 4]
        ensures { result ≡ task_row self }
    {
        [self.priority, self.answer, self.awaited, self.ticks]
    }

    fn from_words(words: [u32; 4]) -> Task
        ensures { result ≡ task_from words }
    {
        let [priority, answer, awaited, ticks] = words;
        Task {
            priority,
            answer,
            awaited,
            ticks,
        }
    }

    #[tactic(auto, unfolding(laws::specs::Rows::tabulate))]
    fn read(m: &[u8], at: usize) -> Task
        requires { 4 * (at + 4) ≤ length m.now }
        ensures { result ≡ task_from (row_at m.now at 4) }
    {
        Task {
            priority: words::word(m, at),
            answer: words::word(m, at + 1),
            awaited: words::word(m, at + 2),
            ticks: words::word(m, at + 3),
        }
    }
}

impl Record<9> for Head {
    ghost use Rattle.std.specs.Prelude.{refl};
    ghost use Rattle.tables.specs.Codec.{head_row, head_from};

    ghost words_of = { head_row };

    ghost value_of = { head_from };

    ghost laws = { record { width = λ x. refl; back = λ x. refl } };

    fn to_words(self) -> [u32; 9]
        ensures { result ≡ head_row self }
    {
        [
            self.generation,
            self.live,
            self.name,
            self.attributes,
            self.count,
            self.owner,
            self.nest,
            self.maximum,
            self.waiters,
        ]
    }

    fn from_words(words: [u32; 9]) -> Head
        ensures { result ≡ head_from words }
    {
        let [
            generation,
            live,
            name,
            attributes,
            count,
            owner,
            nest,
            maximum,
            waiters,
        ] = words;
        Head {
            generation,
            live,
            name,
            attributes,
            count,
            owner,
            nest,
            maximum,
            waiters,
        }
    }

    #[tactic(auto, unfolding(laws::specs::Rows::tabulate))]
    fn read(m: &[u8], at: usize) -> Head
        requires { 4 * (at + 9) ≤ length m.now }
        ensures { result ≡ head_from (row_at m.now at 9) }
    {
        Head {
            generation: words::word(m, at),
            live: words::word(m, at + 1),
            name: words::word(m, at + 2),
            attributes: words::word(m, at + 3),
            count: words::word(m, at + 4),
            owner: words::word(m, at + 5),
            nest: words::word(m, at + 6),
            maximum: words::word(m, at + 7),
            waiters: words::word(m, at + 8),
        }
    }
}
