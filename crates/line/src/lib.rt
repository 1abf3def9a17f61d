// A session's line: the scan of its bytes and the print of its answer.
#![tactic(auto)]

ghost use Rattle.std.specs.Prelude.{◌≡◌, ◌++◌, ◌∷◌, [], ◌+◌, ◌≤◌, length, get_or, take, drop};
ghost use Rattle.line.specs.Line.{line_of, scanned};
ghost use Rattle.line.specs.Scan.{first, others, all_numbers, numbers_read, placed, digit_behind, word_of, with_count, started, asked_by};
ghost use Rattle.line.specs.Print.{answer_line, bad_line, decimal, spliced};

use rules::{Answer, Call, wait_of};

/// What a line asks, with how many numbers stand behind a start's first: they are left in the numbers lent to the scan.
#[derive(Clone, Copy)]
pub struct Request {
    pub call: Call,
    pub count: usize,
}

// The words that a line may begin with.
#[derive(Clone, Copy)]
enum Word {
    Start,
    Create,
    Ident,
    Delete,
    Obtain,
    Release,
    Flush,
    Tick,
}

// The end of a line reads as a space: both end a field.
fn byte_at(line: &[u8], at: usize) -> u8
    ensures { result ≡ get_or line.now at 32 }
{
    line.get(at).copied().unwrap_or(b' ')
}

/// How many bytes stand before the first space, or on the whole line.
pub fn word_length(line: &[u8]) -> usize
    ensures { result ≡ length (first line.now) }
{
    line.iter().position(|b| *b == b' ').unwrap_or(line.len())
}

#[tactic(auto, using(laws::proofs::Choose::cases), unfolding(crate::specs::Scan::word_of))]
fn word_of(word: &[u8]) -> Option<Word>
    ensures { result ≡ word_of word.now }
{
    if word == b"start".as_slice() {
        Some(Word::Start)
    } else if word == b"create".as_slice() {
        Some(Word::Create)
    } else if word == b"ident".as_slice() {
        Some(Word::Ident)
    } else if word == b"delete".as_slice() {
        Some(Word::Delete)
    } else if word == b"obtain".as_slice() {
        Some(Word::Obtain)
    } else if word == b"release".as_slice() {
        Some(Word::Release)
    } else if word == b"flush".as_slice() {
        Some(Word::Flush)
    } else if word == b"tick".as_slice() {
        Some(Word::Tick)
    } else {
        None
    }
}

// The number that a byte makes of `digits` digits that spell `value`: no digit stands behind a lone 0.
#[tactic(auto, using(laws::proofs::Choose::cases, crate::proofs::Reading::first_digit, crate::proofs::Reading::later_digit), unfolding(crate::specs::Scan::digit_behind))]
fn digit_behind(digits: usize, value: u32, b: u8) -> Option<u32>
    ensures { result ≡ digit_behind digits value b }
{
    if !b.is_ascii_digit() || 0 < digits && value == 0 {
        return None;
    }
    value.checked_mul(10)?.checked_add((b - b'0') as u32)
}

/// The numbers behind the word, which ends at `from`: how many, left in `numbers`, or `None` where one is no number. A bad byte ends
/// the reading at once.
pub fn read_numbers(line: &[u8], from: usize, numbers: &mut [u32; 128]) -> Option<usize>
    requires { (length line.now ≤ 256) × (get_or line.now from 32 ≡ 32) }
    ensures { (all_numbers (others (drop from line.now)) ≡ numbers_read result numbers.new) × (placed result ≤ length numbers.new) }
{
    // places that no number fills are 0
    *numbers = [0u32; 128];
    let mut at = from;
    let mut count: usize = 0;
    // The scan that leaves by a label, which carries the number of fields, is asked for in this form.
    'fields: loop {
        if line.len() <= at {
            break 'fields Some(count);
        }
        at += 1;
        let begin = at;
        let mut value: u32 = 0;
        let number = loop {
            let b = byte_at(line, at);
            if b == b' ' {
                if at == begin {
                    break 'fields None;
                }
                break value;
            }
            let Some(longer) = digit_behind(at - begin, value, b) else {
                break 'fields None;
            };
            value = longer;
            at += 1;
        };
        numbers[count] = number;
        count += 1;
    }
}

// A call of a word that takes `arity` numbers.
#[tactic(auto, using(laws::proofs::Choose::cases))]
fn taking(arity: usize, count: usize, call: Call) -> Option<Request>
    ensures { result ≡ with_count arity count call }
{
    (count == arity).then_some(Request { call, count: 0 })
}

#[tactic(auto, using(laws::proofs::Choose::cases))]
fn starting(count: usize, slots: u32) -> Option<Request>
    ensures { result ≡ started count slots }
{
    let count = count.checked_sub(1)?;
    Some(Request {
        call: Call::Start { slots },
        count,
    })
}

// The request of a word with the first `count` of these numbers.
#[tactic(auto, unfolding(crate::specs::Scan::asked_by))]
fn request_of(word: Word, count: usize, numbers: &[u32; 128]) -> Option<Request>
    ensures { result ≡ asked_by word count numbers.now }
{
    let [a, b, c, d, e, ..] = *numbers;
    match word {
        Word::Start => starting(count, a),
        Word::Create => taking(
            5,
            count,
            Call::Create {
                caller: a,
                name: b,
                count: c,
                attributes: d,
                maximum: e,
            },
        ),
        Word::Ident => taking(1, count, Call::Ident { name: a }),
        Word::Delete => taking(2, count, Call::Delete { caller: a, id: b }),
        Word::Obtain => taking(
            4,
            count,
            Call::Obtain {
                caller: a,
                id: b,
                wait: wait_of(c, d),
            },
        ),
        Word::Release => taking(2, count, Call::Release { caller: a, id: b }),
        Word::Flush => taking(2, count, Call::Flush { caller: a, id: b }),
        Word::Tick => taking(0, count, Call::Tick),
    }
}

/// What a line asks, or `None` where it is bad. Reading ends at the first byte that breaks the line. The numbers of the line are left in
/// `numbers`.
pub fn scan(line: &[u8], numbers: &mut [u32; 128]) -> Option<Request>
    ensures { line_of line.now ≡ scanned result numbers.new }
{
    if 256 < line.len() {
        return None;
    }
    let n = word_length(line);
    let word = word_of(&line[..n])?;
    let count = read_numbers(line, n, numbers)?;
    request_of(word, count, numbers)
}

/// A number's text in decimal with the byte that ends it: it begins at `from`.
#[derive(Clone, Copy)]
pub struct Text {
    pub bytes: [u8; 11],
    pub from: usize,
}

/// The text of a number and the byte behind it.
pub fn text_of(v: u32, end: u8) -> Text
    ensures { (length result.bytes ≡ 11) × (result.from ≤ 10) × (drop result.from result.bytes ≡ decimal v ++ end ∷ []) }
{
    let mut bytes = [end; 11];
    let mut from: usize = 10;
    let mut rest = v;
    // goes on by what is left of the number, from its last digit to its first
    while 9 < rest {
        from -= 1;
        bytes[from] = b'0' + (rest % 10) as u8;
        rest /= 10;
    }
    from -= 1;
    bytes[from] = b'0' + rest as u8;
    Text { bytes, from }
}

/// Writes `xs` at `at`, and returns where they end.
pub fn put<T: Copy>(out: &mut [T], at: usize, xs: &[T]) -> usize
    requires { at + length xs.now ≤ length out.old }
    ensures { (result ≡ at + length xs.now) × (out.new ≡ spliced at xs.now out.old) }
{
    let end = at + xs.len();
    out[at..end].copy_from_slice(xs);
    end
}

/// Writes a number in decimal at `at`, and returns where it ends.
pub fn put_number(out: &mut [u8], at: usize, v: u32) -> usize
    requires { at + length (decimal v) ≤ length out.old }
    ensures { (result ≡ at + length (decimal v)) × (out.new ≡ spliced at (decimal v) out.old) }
{
    let text = text_of(v, b' ');
    put(out, at, &text.bytes[text.from..10])
}

// A number and the byte that ends it.
fn put_ended(out: &mut [u8], at: usize, v: u32, end: u8) -> usize
    requires { at + 11 ≤ length out.old }
    ensures { (result ≡ at + length (decimal v ++ end ∷ [])) × (out.new ≡ spliced at (decimal v ++ end ∷ []) out.old) }
{
    let text = text_of(v, end);
    put(out, at, &text.bytes[text.from..])
}

/// Writes the answer line at the front of `out`, and returns its length, at most 33 bytes.
pub fn print_answer(out: &mut [u8], a: Answer) -> usize
    requires { 33 ≤ length out.old }
    ensures { (result ≡ length (answer_line a)) × (out.new ≡ answer_line a ++ drop result out.old) }
{
    let value_at = put_ended(out, 0, a.status, b' ');
    let next_at = put_ended(out, value_at, a.value, b' ');
    put_ended(out, next_at, a.next, b'\n')
}

/// Writes what is said to a bad line at the front of `out`, and returns its length.
pub fn print_bad(out: &mut [u8]) -> usize
    requires { 4 ≤ length out.old }
    ensures { (result ≡ 4) × (out.new ≡ bad_line ++ drop 4 out.old) }
{
    put(out, 0, b"bad\n")
}
