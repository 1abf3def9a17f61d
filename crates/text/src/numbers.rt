// Numbers in a lent slice.
ghost use Rattle.std.specs.Prelude.{◌≡◌, get_or, drop};

/// The number at an index, 0 behind the last.
pub fn number_at(numbers: &[u32], i: usize) -> u32
    ensures { result ≡ get_or numbers.now i 0 }
{
    numbers.get(i).copied().unwrap_or(0)
}

/// All but the first, or none where there is none.
pub fn behind_first(numbers: &[u32]) -> &[u32]
    ensures { result.now ≡ drop 1 numbers.now }
{
    match numbers {
        [_, rest @ ..] => rest,
        [] => numbers,
    }
}
