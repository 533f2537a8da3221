//! Reading an area from the left, an entry at a time.

ghost use Rattle.std.specs.Prelude.{◌≡◌, ◌⊎◌, ℕ, ◌+◌, ◌-◌, ◌^◌, ◌<◌, ◌≤◌, ◌++◌, length, drop, take, Ok, Err, IfOk, OnOk, OnErr, IfSome, Option, None, Some, MatchOption, false, true};
ghost use Rattle.pc_base.specs.Stream.{Rose};
ghost use Rattle.pc_disk.specs.Images.{area_of};
ghost use Rattle.pc_log.specs.Untouched.{Untouched};
ghost use Rattle.pc_log.specs.Area.{IsHead, entry_bytes, SpellsSize};
ghost use Rattle.pc_log.specs.Reading.{behind_head, has_room, bytes_at, opened, size_of, next_of};
ghost use Rattle.pc_log.specs.Opening.{BeginsWith, Parses, Gives, OnDevice, IfMalformed, Starts, IfMade, IfEntry, Passes, bytes_of_next, ReadsAll, ReadsToFault};

use crate::fault::LogFault;
use crate::found::{PlacedEntry, Start};
use crate::head::{HEAD_SIZE, peek, u32_at};
use crate::log::Log;
use pc_base::Bytes;
use pc_disk::Disk;
use std::alloc::Global;
use std::marker::Model;

/// How many bytes of a gate and a length stand before an entry.
const ENTRY_HEAD: usize = 5;

/// The most bytes of an entry.
const MOST_ENTRY: u32 = 8_388_608;

/// The most entries of a trail.
const MOST_ENTRIES: u32 = 65_536;

/// The most bytes that the entries of a trail have together.
const MOST_BYTES: u32 = 16_777_216;

/// How far an area was read. It stands at the next gate.
#[derive(Drop)]
pub struct Opening {
    area: u8,
    gate: u64,
    entries: u32,
    bytes: u32,
}

impl Model for Opening {
    ghost use Rattle.std.specs.Prelude.{◌<◌, ◌≤◌, ◌+◌, ◌*◌};
    ghost use Rattle.pc_log.specs.Reading.{OpeningState};

    ghost Value = { OpeningState };

    ghost view = { λ o. record { area = o.area; reached = record { gate = o.gate; entries = o.entries; bytes = o.bytes } } };

    ghost invariant = { λ o. (o.area < 2) × (o.gate ≤ 1073741854 + 5 * o.entries + o.bytes) × (o.entries ≤ 65536) × (o.bytes ≤ 16777216) };
}

impl Opening {
    /// Reads the head of an area. `Malformed` tells its first fault, whose place is below 30, or 30 where
    /// the base is cut off.
    pub fn start<D: Disk>(
        alloc: Global,
        disk: &mut D,
        area: u8,
        kind: u8,
    ) -> Result<Start, LogFault>
        requires { area < 2 }
        ensures exact { D.tells → Starts result kind (area_of area (D.seen disk.old)) }
        ensures state { IfMade result (λ opening generation first base. opening ≡ record { area = area; reached = behind_head base }) }
        ensures base { IfMade result (λ opening generation first base. length base ≤ 1073741824) }
        ensures right { IfMade result (λ opening generation first base. IsHead (record { kind = kind; generation = generation; first = first; base = base })) }
        ensures found { D.tells → IfMade result (λ opening generation first base. BeginsWith (record { kind = kind; generation = generation; first = first; base = base }) (area_of area (D.seen disk.old))) }
        ensures untouched { Untouched D.Disk.own disk.old disk.new }
        ensures cause { OnDevice result (Rose (D.faults disk.old) (D.faults disk.new)) }
        ensures due { D.tells_due → OnDevice result (D.due disk.old (D.moment disk.old) ⊎ (2 ^ 64 ≤ D.taken disk.old + 1073741854)) }
        ensures taken { IfMade result (λ opening generation first base. D.taken disk.new ≤ D.taken disk.old + 30 + length base) }
        ensures most_taken { D.taken disk.new ≤ D.taken disk.old + 1073741854 }
    {
        let Some(numbers) = peek(disk, area, kind)? else {
            return Ok(Start::NotMade);
        };
        let base = read_bytes(alloc, disk, area, HEAD_SIZE as u64, numbers.size)?;
        Ok(Start::Made {
            opening: Opening {
                area,
                gate: HEAD_SIZE as u64 + u64::from(numbers.size),
                entries: 0,
                bytes: 0,
            },
            generation: numbers.generation,
            first: numbers.first,
            base,
        })
    }

    /// Reads the next entry; none at the closed gate. `Malformed` tells the first fault: the gate's place
    /// where the gate is cut off or the entry would pass a limit of the trail, the length's, which is
    /// one more, or the bytes', which is five more.
    pub fn next<D: Disk>(
        &mut self,
        alloc: Global,
        disk: &mut D,
    ) -> Result<Option<PlacedEntry>, LogFault>
        ensures exact { D.tells → Gives bytes_of_next result (next_of self.old.reached (area_of self.old.area (D.seen disk.old))) }
        ensures found { D.tells → IfEntry result (λ entry. drop self.old.reached.gate (area_of self.old.area (D.seen disk.old)) ≡ entry_bytes entry.bytes ++ drop self.new.reached.gate (area_of self.old.area (D.seen disk.old))) }
        ensures state { Passes self.old self.new result }
        ensures untouched { Untouched D.Disk.own disk.old disk.new }
        ensures cause { OnDevice result (Rose (D.faults disk.old) (D.faults disk.new)) }
        ensures due { D.tells_due → OnDevice result (D.due disk.old (D.moment disk.old) ⊎ (2 ^ 64 ≤ D.taken disk.old + 8388613)) }
        ensures taken { IfEntry result (λ entry. D.taken disk.new + self.old.reached.gate ≤ D.taken disk.old + self.new.reached.gate) }
        ensures taken_at_last { OnOk result (D.taken disk.new + self.old.reached.gate ≤ D.taken disk.old + self.new.reached.gate + 5) }
        ensures most_taken { D.taken disk.new ≤ D.taken disk.old + 8388613 }
    {
        let mut buffer = [0; ENTRY_HEAD];
        let count = disk.read(self.area, self.gate, &mut buffer)?;
        let Some(size) = self.opened(&buffer[..count])? else {
            return Ok(None);
        };
        let place = self.gate;
        let bytes = read_bytes(alloc, disk, self.area, place + ENTRY_HEAD as u64, size)?;
        self.gate = place + ENTRY_HEAD as u64 + u64::from(size);
        self.entries += 1;
        self.bytes += size;
        Ok(Some(PlacedEntry { place, bytes }))
    }

    /// Reads the entries up to the closed gate, where the reading stands then. `Malformed` tells the first
    /// fault.
    pub fn rest<D: Disk>(
        &mut self,
        alloc: Global,
        disk: &mut D,
    ) -> Result<Vec<PlacedEntry>, LogFault>
        ensures found { D.tells → IfOk result (λ entries. ReadsAll (area_of self.old.area (D.seen disk.old)) self.old.reached self.new.reached entries.items) }
        ensures fault { D.tells → IfMalformed result (ReadsToFault (area_of self.old.area (D.seen disk.old)) self.old.reached) }
        ensures area { self.new.area ≡ self.old.area }
        ensures untouched { Untouched D.Disk.own disk.old disk.new }
        ensures cause { OnDevice result (Rose (D.faults disk.old) (D.faults disk.new)) }
        ensures taken { OnOk result (D.taken disk.new + self.old.reached.gate ≤ D.taken disk.old + self.new.reached.gate + 5) }
        ensures most_taken { D.taken disk.new ≤ D.taken disk.old + 33554432 }
    {
        let mut entries = Vec::new(alloc);
        while let Some(entry) = self.next(alloc, disk)? {
            entries.push(entry)?;
        }
        Ok(entries)
    }

    /// The log that goes on at the gate where the reading stands.
    pub fn into_log(self) -> Log
        ensures { result ≡ record { area = self.area; gate = self.reached.gate } }
    {
        Log::at(self.area, self.gate)
    }

    // Whether a gate is open, and how many bytes its entry has then.
    fn opened(&self, bytes: &[u8]) -> Result<Option<u32>, LogFault>
        ensures exact { Parses (λ size. size) result (opened self.now.reached bytes.now) }
        ensures spelled { IfOk result (λ size. IfSome size (λ size. SpellsSize bytes.now size)) }
        ensures fits { IfOk result (λ size. IfSome size (λ size. (1 ≤ size) × (size ≤ 8388608) × (has_room self.now.reached size ≡ true))) }
    {
        self.parse_gate(bytes)
    }

    // The gate, and the length behind it.
    fn parse_gate(&self, bytes: &[u8]) -> Result<Option<u32>, LogFault>
        ensures exact { Parses (λ size. size) result (opened self.now.reached bytes.now) }
        ensures fits { IfOk result (λ size. IfSome size (λ size. (1 ≤ size) × (size ≤ 8388608) × (has_room self.now.reached size ≡ true))) }
    {
        match bytes {
            [] => Err(LogFault::Malformed { place: self.gate }),
            [1, bytes @ ..] => Ok(Some(self.size_of(bytes)?)),
            [_, ..] => Ok(None),
        }
    }

    // How many bytes the entry has whose length stands in front.
    #[tactic(auto, unfolding(crate::specs::Reading::size_of))]
    fn size_of(&self, bytes: &[u8]) -> Result<u32, LogFault>
        ensures exact { Parses (λ size. size) result (size_of self.now.reached bytes.now) }
        ensures fits { IfOk result (λ size. (1 ≤ size) × (size ≤ 8388608) × (has_room self.now.reached size ≡ true)) }
    {
        let (size, _) = u32_at(bytes, self.gate + 1, 1, MOST_ENTRY)?;
        if self.entries >= MOST_ENTRIES || MOST_BYTES - self.bytes < size {
            return Err(LogFault::Malformed { place: self.gate });
        }
        Ok(size)
    }
}

/// So many bytes from a place on. Where fewer stand there they are cut off.
fn read_bytes<D: Disk>(
    alloc: Global,
    disk: &mut D,
    area: u8,
    at: u64,
    size: u32,
) -> Result<Bytes, LogFault>
    requires area { area < 2 }
    requires place { at < 2 ^ 63 }
    ensures bytes { D.tells → Gives (λ bytes. bytes) result (bytes_at at size (area_of area (D.seen disk.old))) }
    ensures size { IfOk result (λ bytes. length bytes ≡ size) }
    ensures place { IfMalformed result (λ place. place ≡ at) }
    ensures untouched { Untouched D.Disk.own disk.old disk.new }
    ensures cause { OnDevice result (Rose (D.faults disk.old) (D.faults disk.new)) }
    ensures due { D.tells_due → OnDevice result (D.due disk.old (D.moment disk.old) ⊎ (2 ^ 64 ≤ D.taken disk.old + size)) }
    ensures taken { D.taken disk.new ≤ D.taken disk.old + size }
{
    let length = disk.length(area)?;
    if length < at + u64::from(size) {
        return Err(LogFault::Malformed { place: at });
    }
    let mut bytes = Vec::from_elem(alloc, 0, size as usize)?;
    let count = disk.read(area, at, &mut bytes)?;
    if count < bytes.len() {
        return Err(LogFault::Malformed { place: at });
    }
    Ok(Bytes::copy_of(alloc, &bytes)?)
}
