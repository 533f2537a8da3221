//! Sums of 64 bits that wrap.

ghost use Rattle.std.specs.Prelude.{◌≡◌, ℕ, ◌+◌, ◌%◌, ◌^◌};

/// A sum of 64 bits with one part in place of another.
pub fn replaced(sum: u64, before: u64, now: u64) -> u64
    ensures { (old new : ℕ) → new + before ≡ old + now → sum ≡ old % 2 ^ 64 → result ≡ new % 2 ^ 64 }
{
    sum.wrapping_sub(before).wrapping_add(now)
}
