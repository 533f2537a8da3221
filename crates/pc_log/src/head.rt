//! The numbers of an area's head.

ghost use Rattle.std.specs.Prelude.{◌≡◌, ◌⊎◌, ◌+◌, ◌^◌, ◌<◌, ◌≤◌, max, min, nat_le, ◌&&◌, IfOk, IfSome, MatchOption, true, false, drop, take};
ghost use Rattle.std.specs.Int.{w8, w32, w64};
ghost use Rattle.pc_base.specs.Stream.{Rose};
ghost use Rattle.pc_disk.specs.Images.{area_of};
ghost use Rattle.pc_log.specs.Area.{is_made};
ghost use Rattle.pc_log.specs.Untouched.{Untouched};
ghost use Rattle.pc_log.specs.Opening.{OnDevice, Parses, Peeks};
ghost use Rattle.pc_log.specs.Numbers.{AreNumbers, SpellsNumbers};
ghost use Rattle.pc_log.specs.Reading.{number_at, numbers_of};

use crate::fault::LogFault;
use pc_disk::Disk;

/// How many bytes stand before an area's base.
pub(crate) const HEAD_SIZE: usize = 30;

/// The bytes of `PCMAIL1` and LF, as one number.
pub(crate) const MAGIC: u64 = 0x5043_4d41_494c_310a;

/// The greatest generation.
const LAST_GENERATION: u64 = (1 << 63) - 1;

/// The greatest number that the first entry after a base may have.
const LAST_FIRST: u64 = 1 << 63;

/// The most bytes of a base.
const MOST_BASE: u32 = 1_073_741_824;

/// The numbers of a head: its generation, the number of the first entry after the base, and how many
/// bytes the base has.
#[derive(Clone, Copy, Debug, PartialEq, Eq)]
pub struct Numbers {
    pub generation: u64,
    pub first: u64,
    pub size: u32,
}

/// Reads the numbers of an area's head, and nothing behind them; none where the area isn't made.
/// `Malformed` tells their first fault.
pub fn peek<D: Disk>(disk: &mut D, area: u8, kind: u8) -> Result<Option<Numbers>, LogFault>
    requires { area < 2 }
    ensures exact { D.tells → Peeks result kind (area_of area (D.seen disk.old)) }
    ensures right { IfOk result (λ numbers. IfSome numbers (AreNumbers kind)) }
    ensures found { D.tells → IfOk result (λ numbers. IfSome numbers (SpellsNumbers kind (take 29 (drop 1 (area_of area (D.seen disk.old)))))) }
    ensures untouched { Untouched D.Disk.own disk.old disk.new }
    ensures cause { OnDevice result (Rose (D.faults disk.old) (D.faults disk.new)) }
    ensures due { D.tells_due → OnDevice result (D.due disk.old (D.moment disk.old) ⊎ (2 ^ 64 ≤ D.taken disk.old + 30)) }
    ensures taken { D.taken disk.new ≤ D.taken disk.old + 30 }
{
    let mut buffer = [0; HEAD_SIZE];
    let count = disk.read(area, 0, &mut buffer)?;
    let Some(head) = behind_open_gate(&buffer[..count]) else {
        return Ok(None);
    };
    let numbers = read_numbers(head, kind)?;
    Ok(Some(numbers))
}

/// What stands behind the gate of a made area.
fn behind_open_gate(bytes: &[u8]) -> Option<&[u8]>
    ensures { MatchOption result (is_made bytes.now ≡ false) (λ rest. (is_made bytes.now ≡ true) × (rest.now ≡ drop 1 bytes.now)) }
{
    match bytes {
        [1, rest @ ..] if !rest.is_empty() => Some(rest),
        _ => None,
    }
}

/// The numbers at the front, of a head of this kind.
fn read_numbers(bytes: &[u8], kind: u8) -> Result<Numbers, LogFault>
    ensures exact { Parses (λ numbers. numbers) result (numbers_of kind bytes.now) }
    ensures spelled { IfOk result (SpellsNumbers kind bytes.now) }
    ensures size { IfOk result (λ numbers. numbers.size ≤ 1073741824) }
{
    parse_numbers(bytes, kind)
}

/// The numbers, field by field.
#[tactic(auto, unfolding(crate::specs::Reading::numbers_of))]
fn parse_numbers(bytes: &[u8], kind: u8) -> Result<Numbers, LogFault>
    ensures exact { Parses (λ numbers. numbers) result (numbers_of kind bytes.now) }
    ensures size { IfOk result (λ numbers. numbers.size ≤ 1073741824) }
{
    let (_, bytes) = u64_at(bytes, 1, MAGIC, MAGIC)?;
    let (_, bytes) = u8_at(bytes, 9, kind.max(1), kind.min(3))?;
    let (generation, bytes) = u64_at(bytes, 10, 1, LAST_GENERATION)?;
    let (first, bytes) = u64_at(bytes, 18, 1, LAST_FIRST)?;
    let (size, _) = u32_at(bytes, 26, 0, MOST_BASE)?;
    Ok(Numbers {
        generation,
        first,
        size,
    })
}

/// A byte from `least` to `most` and what follows it. `place` is where it stands in the area.
fn u8_at(bytes: &[u8], place: u64, least: u8, most: u8) -> Result<(u8, &[u8]), LogFault>
    ensures { Parses (λ x. (x.0, x.1.now)) result (number_at w8 place least most bytes.now) }
{
    let Some((front, rest)) = bytes.split_first_chunk::<1>() else {
        return Err(LogFault::Malformed { place });
    };
    let number = u8::from_be_bytes(*front);
    if number < least || most < number {
        return Err(LogFault::Malformed { place });
    }
    Ok((number, rest))
}

/// A number of four bytes, likewise.
pub(crate) fn u32_at(
    bytes: &[u8],
    place: u64,
    least: u32,
    most: u32,
) -> Result<(u32, &[u8]), LogFault>
    ensures within { IfOk result (λ x. (least ≤ x.0) × (x.0 ≤ most)) }
    ensures exact { Parses (λ x. (x.0, x.1.now)) result (number_at w32 place least most bytes.now) }
{
    let Some((front, rest)) = bytes.split_first_chunk::<4>() else {
        return Err(LogFault::Malformed { place });
    };
    let number = u32::from_be_bytes(*front);
    if number < least || most < number {
        return Err(LogFault::Malformed { place });
    }
    Ok((number, rest))
}

/// A number of eight bytes, likewise.
fn u64_at(bytes: &[u8], place: u64, least: u64, most: u64) -> Result<(u64, &[u8]), LogFault>
    ensures { Parses (λ x. (x.0, x.1.now)) result (number_at w64 place least most bytes.now) }
{
    let Some((front, rest)) = bytes.split_first_chunk::<8>() else {
        return Err(LogFault::Malformed { place });
    };
    let number = u64::from_be_bytes(*front);
    if number < least || most < number {
        return Err(LogFault::Malformed { place });
    }
    Ok((number, rest))
}
