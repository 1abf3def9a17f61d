// What is said on standard error. What that does not take cannot be told.
use playing::PlayError;
use std::io;
use std::io::Write;

/// Something failed, and what it was is told.
#[derive(Clone, Copy)]
pub struct Told;

pub(crate) fn tell_words(rt: &HostRuntime, words: &[u8]) -> Told {
    let _ = rt.stderr().write_all(words);
    Told
}

/// What failed, and why.
pub(crate) fn tell(rt: &HostRuntime, what: &[u8], error: io::Error) -> Told {
    let _ = playing::tell(&mut rt.stderr(), what, error);
    Told
}

/// What kept the session of this name from its end.
pub(crate) fn tell_broken(rt: &HostRuntime, name: &[u8], error: PlayError) -> Told {
    let _ = playing::tell_broken(&mut rt.stderr(), name, error);
    Told
}
