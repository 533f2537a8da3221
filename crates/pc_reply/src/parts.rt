//! The words of a list's line.

ghost use Rattle.std.specs.Prelude.{◌≡◌, ℕ, ◌^◌, ◌<◌, List, ◌∷◌, decimal, IsSomeAnd};
ghost use Rattle.pc_wire.specs.Words.{words_of};
ghost use Rattle.pc_reply.specs.Items.{flag_digits};

use crate::flags::flags_of;
use pc_base::read_u32;
use pc_wire::next_word;

/// The number that the first word is, and what follows it.
pub fn first_number(text: &[u8]) -> Option<(u32, &[u8])>
    ensures { (number : ℕ) (others : List (List ℕ)) → number < 2 ^ 32 → words_of text.now ≡ decimal number ∷ others →
        IsSomeAnd result (λ found. (found.0 ≡ number) × (words_of found.1.now ≡ others)) }
{
    let Some((word, rest)) = next_word(text) else {
        return None;
    };
    let Some(number) = read_u32(word) else {
        return None;
    };
    Some((number, rest))
}

/// The flags that the first word shows, and what follows it.
pub fn first_flags(text: &[u8]) -> Option<(u16, &[u8])>
    ensures { (flags : ℕ) (others : List (List ℕ)) → flags < 2 ^ 16 → words_of text.now ≡ flag_digits 16 flags ∷ others →
        IsSomeAnd result (λ found. (found.0 ≡ flags) × (words_of found.1.now ≡ others)) }
{
    let Some((word, rest)) = next_word(text) else {
        return None;
    };
    let Some(flags) = flags_of(word) else {
        return None;
    };
    Some((flags, rest))
}
