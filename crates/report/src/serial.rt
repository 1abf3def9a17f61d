// The plain run's lines, and whether it leaves the same.
ghost use Rattle.std.specs.Prelude.{◌≡◌, ◌≤◌, length};
ghost use Rattle.laws.specs.Choose.{choose};
ghost use Rattle.report.specs.Report.{Fits, Written, is_serial, plain_text, serial_yes, serial_no};

use super::{lines, scripts};

#[tactic(auto, using(laws::proofs::Choose::cases))]
fn is_serial(cells: &[u32], locals: &[u32], plaincells: &[u32], plainlocals: &[u32]) -> bool
    ensures { result ≡ is_serial cells.now locals.now plaincells.now plainlocals.now }
{
    cells == plaincells && locals == plainlocals
}

fn print_serial(out: &mut [u8], at: usize, serial: bool) -> usize
    requires { Fits at (choose serial serial_yes serial_no) out.old }
    ensures { Written at (choose serial serial_yes serial_no) out.old out.new result }
{
    if serial {
        return line::put(out, at, b"serial yes\n");
    }
    line::put(out, at, b"serial no\n")
}

pub fn print_plain(
    out: &mut [u8],
    at: usize,
    count: usize,
    cells: &[u32],
    locals: &[u32],
    plaincells: &[u32],
    plainlocals: &[u32],
) -> usize
    requires { (count ≤ 32) × (length plainlocals.now ≡ 256)
        × Fits at (plain_text count cells.now locals.now plaincells.now plainlocals.now) out.old }
    ensures { Written at (plain_text count cells.now locals.now plaincells.now plainlocals.now)
        out.old out.new result }
{
    let locals_at = lines::print_line(out, at, b"plain cells", plaincells);
    let end = scripts::print_locals(out, locals_at, b"plain locals", count, plainlocals);
    let serial = is_serial(cells, locals, plaincells, plainlocals);
    print_serial(out, end, serial)
}
