//! Places of bytes.

ghost use Rattle.std.specs.Prelude.{◌≡◌, ◌≤◌, ◌==◌, length};
ghost use Rattle.std.specs.List.{position_or_len};

use memchr::memchr;

/// The place of the first such byte, or the length where there is none.
pub(crate) fn first_place(bytes: &[u8], wanted: u8) -> usize
    ensures place { result ≡ position_or_len (λ byte. byte == wanted) bytes.now }
    ensures within { result ≤ length bytes.now }
{
    bytes
        .iter()
        .position(|byte| *byte == wanted)
        .unwrap_or(bytes.len())
}

/// The place of the first LF, or the length where there is none. What is read ahead is long, so many
/// bytes are looked at together.
pub(crate) fn feed_place(bytes: &[u8]) -> usize
    ensures place { result ≡ position_or_len (λ byte. byte == 10) bytes.now }
    ensures within { result ≤ length bytes.now }
{
    memchr(b'\n', bytes).unwrap_or(bytes.len())
}
