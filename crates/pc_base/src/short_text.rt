//! Short texts that are kept in place and take no memory.

ghost use Rattle.std.specs.Prelude.{◌≡◌, ◌≤◌, length};

use std::marker::Model;

/// At most `N` bytes, kept in place. Contracts see them as a list.
#[derive(Clone, Copy)]
pub struct ShortText<const N: usize> {
    count: usize,
    bytes: [u8; N],
}

impl<const N: usize> Model for ShortText<N> {
    ghost use Rattle.std.specs.Prelude.{◌≡◌, ◌≤◌, ◌-◌, ◌++◌, ℕ, List, length, take, drop, replicate};
    ghost use Rattle.std.proofs.Common.{arith, length-take-le};
    ghost use Rattle.pc_base.specs.ShortText.{padded_front};

    ghost Value = { List ℕ };

    ghost view = { λ t. take t.count t.bytes };

    // Zeros stand behind the text, so that the bytes are a function of it.
    ghost invariant = { λ t. (t.count ≤ N) × (length t.bytes ≡ N) × (drop t.count t.bytes ≡ replicate (N - t.count) 0) };

    ghost inverse = { λ text. record { count = length text; bytes = text ++ replicate (N - length text) 0 } };

    ghost inverse_ok = { λ t h i. record {
      count = length-take-le t.count t.bytes (omega (arith, h.0, h.1)) i;
      bytes = padded_front N t.count t.bytes h.0 h.1 h.2 i;
    } };
}

impl<const N: usize> ShortText<N> {
    /// The text of these bytes.
    pub fn copy_of(bytes: &[u8]) -> ShortText<N>
        requires { length bytes.now ≤ N }
        ensures { result ≡ bytes.now }
    {
        let count = bytes.len();
        let mut text = [0; N];
        text[..count].copy_from_slice(bytes);
        ShortText { count, bytes: text }
    }

    /// The bytes of the text.
    pub fn bytes(&self) -> &[u8]
        ensures value { result.now ≡ self.now }
        ensures short { length self.now ≤ N }
    {
        let bytes: &[u8] = &self.bytes;
        &bytes[..self.count]
    }
}
