//! What a crash makes of the device calls that were noted.

ghost use Rattle.std.specs.Prelude.{◌≡◌, ℕ, ◌+◌, ◌≤◌, length};
ghost use Rattle.pc_disk.specs.Deeds.{Write, stands, reads, reach, Fits};
ghost use Rattle.pc_disk.specs.Notes.{call_of, told, IsWithin, AreWithin, pended};
ghost use Rattle.pc_disk.specs.Areas.{held, room};

use crate::areas::Areas;
use crate::choice::Choice;
use crate::fate::Fate;
use crate::note::{Note, NotedCall};

/// Does all the calls that were made.
pub fn replay(notes: &[Note], pool: &[u8], areas: &mut Areas)
    requires within { AreWithin (length pool.now) notes.now }
    requires fits { Fits (room areas.old) (told pool.now notes.now) }
    ensures held { held areas.new ≡ reads (held areas.old) (told pool.now notes.now) }
    ensures room { room areas.old ≤ room areas.new }
{
    for note in notes {
        let Fate::Made = note.fate else {
            continue;
        };
        stand(&note.call, pool, Choice::Keep, areas);
    }
}

/// Does by choice those that were made and that at which the disk stopped.
pub fn pend(notes: &[Note], pool: &[u8], choice: Choice, areas: &mut Areas)
    requires within { AreWithin (length pool.now) notes.now }
    requires fits { Fits (room areas.old) (told pool.now notes.now) }
    ensures held { held areas.new ≡ pended choice (held areas.old) (told pool.now notes.now) }
    ensures room { room areas.old ≤ room areas.new }
{
    for note in notes {
        if let Fate::Failed = note.fate {
            continue;
        }
        stand(&note.call, pool, choice, areas);
    }
}

// Does a call by choice.
fn stand(call: &NotedCall, pool: &[u8], choice: Choice, areas: &mut Areas)
    requires within { IsWithin (length pool.now) call.now }
    requires fits { reach (call_of pool.now call.now) ≤ room areas.old }
    ensures held { held areas.new ≡ stands choice (call_of pool.now call.now) (held areas.old) }
    ensures room { room areas.old ≤ room areas.new }
{
    match *call {
        NotedCall::Write {
            area,
            at,
            start,
            count,
        } => stand_write(area, at, &pool[start..start + count], choice, areas),
        NotedCall::Cut { area, to } => match choice {
            Choice::Lose => {}
            Choice::Keep | Choice::Fill(_) => areas.cut(area, to),
        },
        NotedCall::Sync => {}
    }
}

// Does a write by choice.
fn stand_write(area: u8, at: usize, bytes: &[u8], choice: Choice, areas: &mut Areas)
    requires { at + length bytes.now ≤ room areas.old }
    ensures held { held areas.new ≡ stands choice (Write area at bytes.now) (held areas.old) }
    ensures room { room areas.old ≤ room areas.new }
{
    match choice {
        Choice::Keep => areas.write(area, at, bytes),
        Choice::Lose => {}
        Choice::Fill(byte) => areas.fill(area, at, bytes.len(), byte),
    }
}
