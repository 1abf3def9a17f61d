// A machine of a state file in words, on standard output.
ghost use Rattle.std.specs.Prelude.{◌≡◌, ◌≤◌, length};
ghost use Rattle.rules.specs.Machine.{unstarted};
ghost use Rattle.tables.specs.Layout.{laid, model_of};
ghost use Rattle.shown.specs.Shown.{shown_text, show_room};
ghost use Rattle.playing.specs.Streams.{WritesAll};
ghost use Rattle.mast_state.specs.Loaded.{handed, Loaded, Shows, ShowsSome};

use super::loading;
use super::telling::{Told, tell};
use std::io::{Error, Write};

/// Why a machine was not shown, and what failed is told: none was loaded, or not all of so many bytes was written.
#[derive(Clone, Copy)]
pub enum ShowError {
    Unloaded(Told),
    Unwritten(usize, Told),
}

// How many bytes were handed to a writer that did not take them all, and why.
#[derive(Clone, Copy)]
struct ShortWrite {
    length: usize,
    error: Error,
}

// Prints the machine that was loaded, and returns how many bytes were handed to the writer.
fn print<W: Write>(writer: &mut W, m: &[u8], out: &mut [u8]) -> Result<usize, ShortWrite>
    requires { Loaded m.now × (show_room ≤ length out.old) }
    ensures shows { Shows (handed result) (shown_text (model_of m.now)) out.new }
    ensures written { WritesAll result (W.contents writer.old) (W.contents writer.new) (shown_text (model_of m.now)) }
{
    let length = shown::show(m, out);
    if let Err(error) = playing::say(writer, &out[..length]) {
        return Err(ShortWrite { length, error });
    }
    Ok(length)
}

/// Loads the file's machine and prints it. Returns how many bytes were handed to standard output.
pub fn show(
    rt: &HostRuntime,
    path: &[u8],
    m: &mut [u8],
    file: &mut [u8],
    out: &mut [u8],
) -> Result<usize, ShowError>
    requires { (m.old ≡ laid unstarted) × (show_room ≤ length out.old) }
    ensures { ShowsSome result out.new }
{
    loading::load(rt, path, m, file).map_err(ShowError::Unloaded)?;
    match print(&mut rt.stdout(), m, out) {
        Ok(length) => Ok(length),
        Err(ShortWrite { length, error }) => Err(ShowError::Unwritten(
            length,
            tell(rt, b"standard output", error),
        )),
    }
}
