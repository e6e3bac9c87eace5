// The bytes read by position: what lies past the end reads as 0.
ghost use Rattle.std.specs.Prelude.{◌≡◌, ◌+◌, ◌*◌, ◌≤◌, ◌<◌, [], length, slice_index, slice_range};

// The byte at a position.
pub fn byte_at(bytes: &[u8], at: usize) -> u8
    ensures { result ≡ slice_index bytes.now at }
{
    bytes.get(at).copied().unwrap_or(0)
}

// The same, to count with.
pub fn count_at(bytes: &[u8], at: usize) -> usize
    ensures value { result ≡ slice_index bytes.now at }
    ensures byte { result ≤ 255 }
{
    usize::from(byte_at(bytes, at))
}

// `n` bytes from a position on, none where there aren't as many.
pub fn part(bytes: &[u8], at: usize, n: usize) -> &[u8]
    ensures there { at + n ≤ length bytes.now → result.now ≡ slice_range bytes.now at (at + n) }
    ensures missing { length bytes.now < at + n → result.now ≡ [] }
{
    bytes
        .get(at..)
        .and_then(|rest| rest.get(..n))
        .unwrap_or(&[])
}

// The two bytes at a position as a number, the low one first.
pub fn pair(bytes: &[u8], at: usize) -> usize
    ensures { result ≡ slice_index bytes.now at + 256 * slice_index bytes.now (at + 1) }
{
    count_at(bytes, at) + 256 * count_at(bytes, at.saturating_add(1))
}
