//! A disk of two areas, and what a crash at any moment may leave of it.

ghost use Rattle.std.specs.Prelude.{◌≡◌, ℕ, ◌+◌, ◌-◌, ◌^◌, ◌<◌, ◌≤◌, ◌⊎◌, ◌↔◌, length, take, drop, IfOk, OnOk, OnErr, IsErr};
ghost use Rattle.pc_base.specs.Stream.{HasCause};
ghost use Rattle.pc_disk.specs.Images.{Images, area_of, with_area, overwritten, Torn, TornCut, InArea};
ghost use Rattle.pc_disk.specs.Outcomes.{Only, Follows, Keeps, Elapses, IsStill, SameDue};
ghost use Rattle.pc_disk.specs.Reading.{GivesBytes, Takes};

use pc_base::{Failed, Memory};

/// A disk with two areas, 0 and 1. Device calls are `write`, `cut` and `sync`; each counts, also
/// where it fails. `Failed` comes only where the count of faults rose in the call.
pub trait Disk {
    /// Whether the disk tells its bytes and what crashes leave.
    ghost tells: { Type 0 };

    /// Whether it tells which device calls fail.
    ghost tells_due: { Type 0 };

    /// What a read gives.
    ghost seen: { Self → Images };

    /// What a crash now may leave.
    ghost may_leave: { Self → Images → Type 0 };

    /// What a crash since a moment may have left, during a call or between two.
    ghost left_since: { Self → ℕ → Images → Type 0 };

    /// The moment: the number of device calls so far.
    ghost moment: { Self → ℕ };

    /// The device call at this moment, from the present one on, fails.
    ghost due: { Self → ℕ → Type 0 };

    /// The count of faults, which never falls.
    ghost faults: { Self → ℕ };

    /// How much was read: at least the bytes that reads gave, at most the lengths of their buffers.
    ghost taken: { Self → ℕ };

    /// How many device calls find room for their record.
    ghost spare_calls: { Self → ℕ };

    /// How many bytes writes find room for.
    ghost spare_bytes: { Self → ℕ };

    /// The length of an area.
    fn length(&mut self, area: u8) -> Result<u64, Failed>
        requires { area < 2 }
        ensures value { tells → IfOk result (λ count. count ≡ length (area_of area (seen self.old))) }
        ensures still { tells → IsStill (seen self.old) (seen self.new) (may_leave self.old) (may_leave self.new) (left_since self.old) (left_since self.new) }
        ensures moment { moment self.new ≡ moment self.old }
        ensures due { tells_due → OnErr result (due self.old (moment self.old)) }
        ensures ahead { tells_due → SameDue (moment self.old) (due self.old) (due self.new) }
        ensures cause { HasCause (faults self.old) (faults self.new) result }
        ensures taken { taken self.new ≡ taken self.old }
        ensures spare_calls { spare_calls self.old ≤ spare_calls self.new }
        ensures spare_bytes { spare_bytes self.old ≤ spare_bytes self.new };

    /// Reads into the front of `into` and answers how many bytes stand from `at` on and fit. It
    /// fails where what was taken would pass 2^64 - 1.
    fn read(&mut self, area: u8, at: u64, into: &mut [u8]) -> Result<usize, Failed>
        requires { area < 2 }
        ensures bytes { tells → GivesBytes result (drop at (area_of area (seen self.old))) into.new }
        ensures bound { IfOk result (λ count. count ≤ length into.new) }
        ensures still { tells → IsStill (seen self.old) (seen self.new) (may_leave self.old) (may_leave self.new) (left_since self.old) (left_since self.new) }
        ensures moment { moment self.new ≡ moment self.old }
        ensures due { tells_due → OnErr result (due self.old (moment self.old) ⊎ (2 ^ 64 ≤ taken self.old + length into.new)) }
        ensures ahead { tells_due → SameDue (moment self.old) (due self.old) (due self.new) }
        ensures cause { HasCause (faults self.old) (faults self.new) result }
        ensures taken { Takes (taken self.old) (taken self.new) result (length into.new) }
        ensures spare_calls { spare_calls self.old ≤ spare_calls self.new }
        ensures spare_bytes { spare_bytes self.old ≤ spare_bytes self.new };

    /// Makes room for eight device calls, and for writes of `upto` bytes and eight more. Nothing
    /// else changes, whatever it answers.
    fn reserve(&mut self, area: u8, upto: u64) -> Result<(), Memory>
        requires { area < 2 }
        ensures calls { OnOk result (8 ≤ spare_calls self.new) }
        ensures bytes { OnOk result (upto + 8 ≤ spare_bytes self.new) }
        ensures still { tells → IsStill (seen self.old) (seen self.new) (may_leave self.old) (may_leave self.new) (left_since self.old) (left_since self.new) }
        ensures moment { moment self.new ≡ moment self.old }
        ensures ahead { tells_due → SameDue (moment self.old) (due self.old) (due self.new) }
        ensures cause { faults self.old ≤ faults self.new }
        ensures taken { taken self.new ≡ taken self.old }
        ensures spare_calls { spare_calls self.old ≤ spare_calls self.new }
        ensures spare_bytes { spare_bytes self.old ≤ spare_bytes self.new };

    /// Writes over what stands from `at` on, and past the end. Until a sync a crash may leave any
    /// bytes in the range; so also where it fails, and then reads give what they gave. It takes no
    /// memory.
    fn write(&mut self, area: u8, at: u64, bytes: &[u8]) -> Result<(), Failed>
        requires area { area < 2 }
        requires place { tells → at ≤ length (area_of area (seen self.old)) }
        requires calls { 0 < spare_calls self.old }
        requires bytes { length bytes.now ≤ spare_bytes self.old }
        ensures written { tells → OnOk result (seen self.new ≡ with_area area (overwritten at bytes.now (area_of area (seen self.old))) (seen self.old)) }
        ensures unwritten { tells → OnErr result (seen self.new ≡ seen self.old) }
        ensures crash { tells → Follows (InArea area (Torn at (length bytes.now))) (may_leave self.old) (may_leave self.new) }
        ensures time { tells → Elapses (moment self.old) (left_since self.old) (left_since self.new) (may_leave self.new) }
        ensures moment { moment self.new ≡ moment self.old + 1 }
        ensures due { tells_due → IsErr result ↔ due self.old (moment self.old) }
        ensures ahead { tells_due → SameDue (moment self.new) (due self.old) (due self.new) }
        ensures cause { HasCause (faults self.old) (faults self.new) result }
        ensures taken { taken self.new ≡ taken self.old }
        ensures spare_calls { spare_calls self.old ≤ spare_calls self.new + 1 }
        ensures spare_bytes { spare_bytes self.old ≤ spare_bytes self.new + length bytes.now };

    /// Cuts an area to a length. Until a sync a crash may leave any bytes past it, or none; so also
    /// where it fails, and then reads give what they gave. It takes no memory.
    fn cut(&mut self, area: u8, to: u64) -> Result<(), Failed>
        requires area { area < 2 }
        requires place { tells → to ≤ length (area_of area (seen self.old)) }
        requires calls { 0 < spare_calls self.old }
        ensures cut { tells → OnOk result (seen self.new ≡ with_area area (take to (area_of area (seen self.old))) (seen self.old)) }
        ensures uncut { tells → OnErr result (seen self.new ≡ seen self.old) }
        ensures crash { tells → Follows (InArea area (TornCut to)) (may_leave self.old) (may_leave self.new) }
        ensures time { tells → Elapses (moment self.old) (left_since self.old) (left_since self.new) (may_leave self.new) }
        ensures moment { moment self.new ≡ moment self.old + 1 }
        ensures due { tells_due → IsErr result ↔ due self.old (moment self.old) }
        ensures ahead { tells_due → SameDue (moment self.new) (due self.old) (due self.new) }
        ensures cause { HasCause (faults self.old) (faults self.new) result }
        ensures taken { taken self.new ≡ taken self.old }
        ensures spare_calls { spare_calls self.old ≤ spare_calls self.new + 1 }
        ensures spare_bytes { spare_bytes self.old ≤ spare_bytes self.new };

    /// After it a crash leaves what a read gives. Where it fails, a crash may leave what it might
    /// have left before, and a later sync answers Ok only where what wasn't synced was written
    /// again: that a failed sync is forgotten below, as Linux does, is for the disk to make good,
    /// or it fails from then on. It takes no memory.
    fn sync(&mut self) -> Result<(), Failed>
        requires { 0 < spare_calls self.old }
        ensures settled { tells → OnOk result (Only (seen self.old) (may_leave self.new)) }
        ensures seen { tells → seen self.new ≡ seen self.old }
        ensures crash { tells → Keeps (may_leave self.old) (may_leave self.new) }
        ensures same { tells → OnErr result (Keeps (may_leave self.new) (may_leave self.old)) }
        ensures time { tells → Elapses (moment self.old) (left_since self.old) (left_since self.new) (may_leave self.new) }
        ensures moment { moment self.new ≡ moment self.old + 1 }
        ensures due { tells_due → IsErr result ↔ due self.old (moment self.old) }
        ensures ahead { tells_due → SameDue (moment self.new) (due self.old) (due self.new) }
        ensures cause { HasCause (faults self.old) (faults self.new) result }
        ensures taken { taken self.new ≡ taken self.old }
        ensures spare_calls { spare_calls self.old ≤ spare_calls self.new + 1 }
        ensures spare_bytes { spare_bytes self.old ≤ spare_bytes self.new };

    /// What a read gives is one of the images that a crash may leave.
    ghost present: { tells → (disk : Self) → may_leave disk (seen disk) };

    /// This moment is one of those since an earlier one.
    ghost counts_now: { tells → (disk : Self) (earlier : ℕ) (left : Images) → earlier ≤ moment disk → may_leave disk left → left_since disk earlier left };

    /// Since this moment there is no other.
    ghost only_now: { tells → (disk : Self) (left : Images) → left_since disk (moment disk) left → may_leave disk left };
}
