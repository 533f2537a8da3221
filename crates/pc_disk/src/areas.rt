//! The two areas in memory.

ghost use Rattle.std.specs.Prelude.{◌≡◌, ℕ, ◌+◌, ◌≤◌, min, max, [], replicate, length, take, OnOk};
ghost use Rattle.std.specs.Vec.{vec_capacity};
ghost use Rattle.pc_disk.specs.Images.{area_of, with_area, overwritten};
ghost use Rattle.pc_disk.specs.Areas.{held, room, longest};

use pc_base::Memory;
use std::alloc::Global;

/// The bytes of the two areas.
#[derive(Drop)]
pub struct Areas {
    pub zero: Vec<u8>,
    pub one: Vec<u8>,
}

impl Areas {
    pub fn new(alloc: Global) -> Areas
        ensures { held result ≡ ([], []) }
    {
        Areas {
            zero: Vec::new(alloc),
            one: Vec::new(alloc),
        }
    }

    pub fn area(&self, area: u8) -> &[u8]
        ensures { result.now ≡ area_of area (held self.now) }
    {
        if area == 0 {
            self.zero.as_slice()
        } else {
            self.one.as_slice()
        }
    }

    /// The length of the longer area.
    pub fn longest(&self) -> usize
        ensures { result ≡ longest (held self.now) }
    {
        self.zero.len().max(self.one.len())
    }

    /// Makes room for so many bytes in each area.
    pub fn reserve(&mut self, upto: usize) -> Result<(), Memory>
        ensures held { held self.new ≡ held self.old }
        ensures room { room self.old ≤ room self.new }
        ensures made { OnOk result (upto ≤ room self.new) }
    {
        self.zero.reserve(upto.saturating_sub(self.zero.len()))?;
        self.one.reserve(upto.saturating_sub(self.one.len()))?;
        Ok(())
    }

    pub fn write(&mut self, area: u8, at: usize, bytes: &[u8])
        requires { at + length bytes.now ≤ room self.old }
        ensures held { held self.new ≡ with_area area (overwritten at bytes.now (area_of area (held self.old))) (held self.old) }
        ensures room { room self.old ≤ room self.new }
    {
        if area == 0 {
            overwrite(&mut self.zero, at, bytes);
        } else {
            overwrite(&mut self.one, at, bytes);
        }
    }

    /// Writes the byte so often.
    pub fn fill(&mut self, area: u8, at: usize, count: usize, byte: u8)
        requires { at + count ≤ room self.old }
        ensures held { held self.new ≡ with_area area (overwritten at (replicate count byte) (area_of area (held self.old))) (held self.old) }
        ensures room { room self.old ≤ room self.new }
    {
        if area == 0 {
            overfill(&mut self.zero, at, count, byte);
        } else {
            overfill(&mut self.one, at, count, byte);
        }
    }

    pub fn cut(&mut self, area: u8, to: usize)
        ensures held { held self.new ≡ with_area area (take to (area_of area (held self.old))) (held self.old) }
        ensures room { room self.old ≤ room self.new }
    {
        if area == 0 {
            self.zero.truncate(to);
        } else {
            self.one.truncate(to);
        }
    }

    /// Puts there what the other areas hold.
    pub fn copy(&mut self, other: &Areas)
        requires { longest (held other.now) ≤ room self.old }
        ensures held { held self.new ≡ held other.now }
        ensures room { room self.old ≤ room self.new }
    {
        self.zero.clear();
        overwrite(&mut self.zero, 0, &other.zero);
        self.one.clear();
        overwrite(&mut self.one, 0, &other.one);
    }
}

// Writes these bytes over those that stand from a place on, and past the end. There is room.
fn overwrite(area: &mut Vec<u8>, at: usize, bytes: &[u8])
    requires { at + length bytes.now ≤ vec_capacity area.old }
    ensures items { area.new.items ≡ overwritten at bytes.now area.old.items }
    ensures room { vec_capacity area.old ≤ vec_capacity area.new }
{
    let start = at.min(area.len());
    let (over, past) = bytes.split_at(bytes.len().min(area.len() - start));
    area.as_mut_slice()[start..start + over.len()].copy_from_slice(over);
    let Ok(()) = area.extend_from_slice(past) else {
        unreachable!()
    };
}

// Writes the byte so often over those that stand from a place on, and past the end. There is room.
fn overfill(area: &mut Vec<u8>, at: usize, count: usize, byte: u8)
    requires { at + count ≤ vec_capacity area.old }
    ensures items { area.new.items ≡ overwritten at (replicate count byte) area.old.items }
    ensures room { vec_capacity area.old ≤ vec_capacity area.new }
{
    let start = at.min(area.len());
    let over = count.min(area.len() - start);
    area.as_mut_slice()[start..start + over].fill(byte);
    let Ok(()) = area.resize(area.len() + (count - over), byte) else {
        unreachable!()
    };
}
