// The lines of a report.
ghost use Rattle.std.specs.Prelude.{◌∷◌};
ghost use Rattle.line.specs.Print.{decimal};
ghost use Rattle.report.specs.Report.{Fits, Written, spaced, paired, pair_text, line_text, pairs_text};

// A number behind a mark.
fn put_behind(out: &mut [u8], at: usize, mark: u8, v: u32) -> usize
    requires { Fits at (mark ∷ decimal v) out.old }
    ensures { Written at (mark ∷ decimal v) out.old out.new result }
{
    out[at] = mark;
    line::put_number(out, at + 1, v)
}

fn put_numbers(out: &mut [u8], at: usize, ns: &[u32]) -> usize
    requires { Fits at (spaced ns.now) out.old }
    ensures { Written at (spaced ns.now) out.old out.new result }
{
    let mut end = at;
    for n in ns {
        end = put_behind(out, end, b' ', *n);
    }
    end
}

pub fn print_line(out: &mut [u8], at: usize, word: &[u8], ns: &[u32]) -> usize
    requires { Fits at (line_text word.now ns.now) out.old }
    ensures { Written at (line_text word.now ns.now) out.old out.new result }
{
    let numbers_at = line::put(out, at, word);
    let end = put_numbers(out, numbers_at, ns);
    line::put(out, end, b"\n")
}

// A line whose first number is a task.
pub fn print_task(out: &mut [u8], at: usize, word: &[u8], task: u32, ns: &[u32]) -> usize
    requires { Fits at (line_text word.now (task ∷ ns.now)) out.old }
    ensures { Written at (line_text word.now (task ∷ ns.now)) out.old out.new result }
{
    let task_at = line::put(out, at, word);
    let numbers_at = put_behind(out, task_at, b' ', task);
    let end = put_numbers(out, numbers_at, ns);
    line::put(out, end, b"\n")
}

pub fn put_pair(out: &mut [u8], at: usize, a: u32, b: u32) -> usize
    requires { Fits at (pair_text a b) out.old }
    ensures { Written at (pair_text a b) out.old out.new result }
{
    let second_at = put_behind(out, at, b' ', a);
    put_behind(out, second_at, b':', b)
}

fn put_pairs(out: &mut [u8], at: usize, ns: &[u32]) -> usize
    requires { Fits at (paired ns.now) out.old }
    ensures { Written at (paired ns.now) out.old out.new result }
{
    let mut end = at;
    for i in 0..ns.len() / 2 {
        end = put_pair(out, end, ns[2 * i], ns[2 * i + 1]);
    }
    end
}

pub fn print_pairs(out: &mut [u8], at: usize, word: &[u8], ns: &[u32]) -> usize
    requires { Fits at (pairs_text word.now ns.now) out.old }
    ensures { Written at (pairs_text word.now ns.now) out.old out.new result }
{
    let pairs_at = line::put(out, at, word);
    let end = put_pairs(out, pairs_at, ns);
    line::put(out, end, b"\n")
}
