//! An address that nobody has, as a refusal shows it.

ghost use Rattle.std.specs.Prelude.{◌≡◌, IsTrue};
ghost use Rattle.pc_base.specs.Recipient.{shown_of, is_shown, shown_byte as byte_shown};

use crate::short_text::ShortText;
use arrayvec::ArrayVec;
use std::marker::Model;

/// 1 to 64 bytes from 33 to 126, kept in place.
#[derive(Clone, Copy)]
pub struct Recipient {
    text: ShortText<64>,
}

impl Model for Recipient {
    ghost use Rattle.std.specs.Prelude.{ℕ, List, IsTrue};
    ghost use Rattle.pc_base.specs.Recipient.{is_shown as fits};

    ghost Value = { List ℕ };

    ghost view = { λ shown. shown.text };

    ghost invariant = { λ shown. IsTrue (fits shown.text) };

    ghost inverse = { λ bytes. record { text = bytes } };
}

impl Recipient {
    /// The address's first 64 bytes, with `?` for each byte that isn't printed, or `-` where it is empty.
    pub fn shown(address: &[u8]) -> Recipient
        ensures { result ≡ shown_of address.now }
    {
        if address.is_empty() {
            return Recipient {
                text: ShortText::copy_of(b"-"),
            };
        }
        let front = &address[..64usize.min(address.len())];
        let mut shown: ArrayVec<u8, 64> = ArrayVec::new();
        for byte in front {
            shown.push(shown_byte(*byte));
        }
        Recipient {
            text: ShortText::copy_of(&shown),
        }
    }

    /// The bytes that are shown.
    pub fn bytes(&self) -> &[u8]
        ensures value { result.now ≡ self.now }
        ensures shown { IsTrue (is_shown self.now) }
    {
        self.text.bytes()
    }
}

fn shown_byte(byte: u8) -> u8
    ensures { result ≡ byte_shown byte }
{
    if matches!(byte, 33..=126) { byte } else { b'?' }
}
