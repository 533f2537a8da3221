//! Flags as they are shown: 16 characters 0 or 1, flag 0 first.

ghost use Rattle.std.specs.Prelude.{◌≡◌, ℕ, ◌^◌, ◌<◌, ◌≤◌, false, length};
ghost use Rattle.pc_base.specs.Line.{has_feed};
ghost use Rattle.pc_reply.specs.Items.{flag_digits};
ghost use Rattle.pc_reply.specs.FirstLine.{flags_shown};

use arrayvec::ArrayVec;
use pc_base::ShortText;

/// The flags as they are shown.
pub fn flags_text(flags: u16) -> ShortText<16>
    ensures value { result ≡ flag_digits 16 flags }
    ensures short { length result ≡ 16 }
    ensures line { has_feed result ≡ false }
{
    let mut digits: ArrayVec<u8, 16> = ArrayVec::new();
    let mut rest = flags;
    for _ in 0..16u32 {
        digits.push(b'0' + (rest % 2) as u8);
        rest /= 2;
    }
    ShortText::copy_of(&digits)
}

/// The flags that 16 characters show; others may show any.
pub fn flags_of(digits: &[u8]) -> Option<u16>
    ensures { (flags : ℕ) → flags < 2 ^ 16 → digits.now ≡ flag_digits 16 flags → result ≡ Some flags }
{
    if digits.len() != 16 {
        return None;
    }
    Some(value_of(digits) as u16)
}

/// The number whose bits are these characters, the lowest first.
fn value_of(digits: &[u8]) -> u32
    requires { length digits.now ≤ 16 }
    ensures value { result ≡ flags_shown digits.now }
    ensures bound { result < 2 ^ length digits.now }
{
    match digits {
        [] => 0,
        [first, others @ ..] => u32::from(*first == b'1') + 2 * value_of(others),
    }
}
