// Words of four bytes, high byte first, in lent bytes. Every index counts words.
#![tactic(auto)]

ghost use Rattle.std.specs.Prelude.{◌≡◌, ◌+◌, ◌*◌, ◌≤◌, ◌<◌, eqb, length};
ghost use Rattle.std.proofs.lemmas.List.Edits.{sets};
ghost use Rattle.words.specs.Words.{bytes_of_word, bytes_of, word_at, blank, same_words};

/// Word `i` of the bytes.
#[tactic(auto, unfolding(crate::specs::Words::word_at))]
pub fn word(m: &[u8], i: usize) -> u32
    requires { 4 * i + 4 ≤ length m.now }
    ensures { result ≡ word_at m.now i }
{
    let at = 4 * i;
    u32::from_be_bytes([m[at], m[at + 1], m[at + 2], m[at + 3]])
}

/// Another word at place `i`.
pub fn set_word(m: &mut [u8], i: usize, w: u32)
    requires { 4 * i + 4 ≤ length m.old }
    ensures { m.new ≡ sets m.old (4 * i) (bytes_of_word w) }
{
    let at = 4 * i;
    // low byte first, of the word turned round: so the compiler makes one store of the four
    let [first, second, third, fourth] = w.swap_bytes().to_le_bytes();
    m[at] = first;
    m[at + 1] = second;
    m[at + 2] = third;
    m[at + 3] = fourth;
}

/// The words of a row, from place `i` on.
pub fn set_words(m: &mut [u8], i: usize, row: &[u32])
    requires { 4 * i + 4 * length row.now ≤ length m.old }
    ensures { m.new ≡ sets m.old (4 * i) (bytes_of row.now) }
{
    // by places: on other processors an iterator over the row's words is a pair with a pointer, which takes more stack
    for k in 0..row.len() {
        set_word(m, i + k, row[k]);
    }
}

/// Whether the words of a row stand from place `i` on.
pub fn are_words(m: &[u8], i: usize, row: &[u32]) -> bool
    requires { 4 * i + 4 * length row.now ≤ length m.now }
    ensures { result ≡ same_words m.now i row.now }
{
    (0..row.len()).all(|k| word(m, i + k) == row[k])
}

// A word in the order in which most processors read it, for those who ask whether it is 0.
#[tactic(auto, unfolding(crate::specs::Words::word_at))]
fn raw_word(m: &[u8], i: usize) -> u32
    requires { 4 * i + 4 ≤ length m.now }
    ensures { eqb result 0 ≡ eqb (word_at m.now i) 0 }
{
    let at = 4 * i;
    u32::from_le_bytes([m[at], m[at + 1], m[at + 2], m[at + 3]])
}

/// Whether every word from `from` up to `to` is 0. No way out before the end, so that several are read at once.
pub fn is_blank(m: &[u8], from: usize, to: usize) -> bool
    requires { 4 * to ≤ length m.now }
    ensures { result ≡ blank m.now from to }
{
    let mut seen = 0;
    for k in from..to {
        seen |= raw_word(m, k);
    }
    seen == 0
}
