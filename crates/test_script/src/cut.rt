// The start of a slice.
ghost use Rattle.std.specs.Prelude.{◌≡◌, take};

// The first n bytes, or all where there are fewer.
pub fn first(bytes: &[u8], n: usize) -> &[u8]
    ensures { result.now ≡ take n bytes.now }
{
    bytes.get(..n).unwrap_or(bytes)
}

// The same, to write to.
pub fn first_mut(bytes: &mut [u8], n: usize) -> &mut [u8]
    ensures { result.now ≡ take n bytes.old }
{
    let n = n.min(bytes.len());
    &mut bytes[..n]
}
