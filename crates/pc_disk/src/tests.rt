//! Tables worked out by hand: a write, a sync, a write and a cut, of which one fails or stops the disk;
//! folders; a disk that tells nothing.

ghost use Rattle.std.specs.Prelude.{◌≡◌, ◌<◌, ◌≤◌, IfOk, []};

use crate::{Choice, Disk, Folder, MemoryDisk, MemoryFolder, SilentDisk, StepFault, put, trim};
use pc_base::{Name, StoreName};
use std::alloc::Global;
use std::process::Abort;
use std::test::Fail;

// Asserts what a row says; the row is told where it doesn't hold.
fn holds(rt: &impl Abort, row: &str, is: bool) {
    assert!(rt; is, "{row}");
}

// Asserts what is said of the k-th call.
fn holds_at(rt: &impl Abort, what: &str, k: u32, is: bool) {
    assert!(rt; is, "{what}, call {k}");
}

// Which of the four calls succeed.
fn four_calls(disk: &mut MemoryDisk) -> [bool; 4]
    requires calls { 4 ≤ disk.old.spare_calls }
    requires bytes { 5 ≤ disk.old.spare_bytes }
{
    let first = disk.write(0, 0, &[1, 2, 3]).is_ok();
    let second = disk.sync().is_ok();
    let third = disk.write(0, 0, &[7, 8]).is_ok();
    let fourth = disk.cut(0, 1).is_ok();
    [first, second, third, fourth]
}

// Whether an area is read as these bytes, of which there are fewer than eight.
fn has<D: Disk>(disk: &mut D, area: u8, bytes: &[u8]) -> bool
    requires { area < 2 }
{
    let mut buffer = [0; 8];
    let Ok(count) = disk.read(area, 0, &mut buffer) else {
        return false;
    };
    &buffer[..count] == bytes
}

// Whether area 0 is read as these bytes.
fn is_read<D: Disk>(disk: &mut D, bytes: &[u8]) -> bool {
    has(disk, 0, bytes)
}

// A disk with room for the four calls.
fn roomy(alloc: Global) -> Result<MemoryDisk, Fail>
    ensures calls { IfOk result (λ disk. 4 ≤ disk.spare_calls) }
    ensures bytes { IfOk result (λ disk. 5 ≤ disk.spare_bytes) }
    ensures fresh { IfOk result (λ disk. disk.deeds ≡ []) }
{
    let mut disk = MemoryDisk::new(alloc);
    let Ok(()) = disk.reserve(0, 8) else {
        return Err(Fail::from("memory"));
    };
    Ok(disk)
}

// The k-th call fails: which succeed, what is then read, what a crash leaves.
fn fails_at(
    rt: &impl Abort,
    alloc: Global,
    k: u32,
    succeed: [bool; 4],
    read: &[u8],
    left: &[u8],
) -> Result<(), Fail>
    requires { 0 < k }
{
    let mut disk = roomy(alloc)?;
    disk.fail_at(k);
    holds_at(rt, "which fail", k, four_calls(&mut disk) == succeed);
    holds_at(rt, "goes on", k, !disk.stopped());
    holds_at(rt, "what is read", k, is_read(&mut disk, read));
    holds_at(
        rt,
        "what a crash leaves",
        k,
        is_read(&mut disk.crashed(), left),
    );
    Ok(())
}

#[test]
fn one_call_fails(rt: HostRuntime) -> Result<(), Fail> {
    let alloc = rt.alloc();
    fails_at(&rt, alloc, 1, [false, true, true, true], &[7], &[])?;
    fails_at(&rt, alloc, 2, [true, false, true, true], &[7], &[])?;
    fails_at(&rt, alloc, 3, [true, true, false, true], &[1], &[1, 2, 3])?;
    fails_at(
        &rt,
        alloc,
        4,
        [true, true, true, false],
        &[7, 8, 3],
        &[1, 2, 3],
    )?;
    fails_at(&rt, alloc, 5, [true, true, true, true], &[7], &[1, 2, 3])
}

// The disk stops at the k-th call: what a crash leaves by this choice.
fn stops_at(rt: &impl Abort, alloc: Global, k: u32, choice: Choice, left: &[u8]) -> Result<(), Fail>
    requires { 0 < k }
{
    let mut disk = roomy(alloc)?;
    disk.stop_at(k, choice);
    let succeed = [1 < k, 2 < k, 3 < k, 4 < k];
    holds_at(rt, "which fail", k, four_calls(&mut disk) == succeed);
    holds_at(rt, "stops", k, disk.stopped() == (k < 5));
    holds_at(rt, "no length", k, disk.length(0).is_err() == (k < 5));
    let fails = disk.read(0, 0, &mut [0; 1]).is_err();
    holds_at(rt, "no read", k, fails == (k < 5));
    let mut crashed = disk.crashed();
    holds_at(rt, "goes on after a crash", k, !crashed.stopped());
    holds_at(rt, "what a crash leaves", k, is_read(&mut crashed, left));
    Ok(())
}

#[test]
fn the_disk_stops(rt: HostRuntime) -> Result<(), Fail> {
    let alloc = rt.alloc();
    for k in 1..3 {
        stops_at(&rt, alloc, k, Choice::Keep, &[1, 2, 3])?;
        stops_at(&rt, alloc, k, Choice::Lose, &[])?;
        stops_at(&rt, alloc, k, Choice::Fill(9), &[9, 9, 9])?;
    }
    stops_at(&rt, alloc, 3, Choice::Keep, &[7, 8, 3])?;
    stops_at(&rt, alloc, 3, Choice::Lose, &[1, 2, 3])?;
    stops_at(&rt, alloc, 3, Choice::Fill(9), &[9, 9, 3])?;
    for k in 4..6 {
        stops_at(&rt, alloc, k, Choice::Keep, &[7])?;
        stops_at(&rt, alloc, k, Choice::Lose, &[1, 2, 3])?;
        stops_at(&rt, alloc, k, Choice::Fill(9), &[9])?;
    }
    Ok(())
}

// One call fails and the disk stops at another, or the same.
fn fails_and_stops(
    rt: &impl Abort,
    alloc: Global,
    fails: u32,
    stops: u32,
    choice: Choice,
    succeed: [bool; 4],
    left: &[u8],
) -> Result<(), Fail>
    requires fails { 0 < fails }
    requires stops { 0 < stops }
{
    let mut disk = roomy(alloc)?;
    disk.fail_at(fails);
    disk.stop_at(stops, choice);
    holds_at(rt, "which fail", fails, four_calls(&mut disk) == succeed);
    holds_at(rt, "stops", fails, disk.stopped());
    holds_at(
        rt,
        "what a crash leaves",
        fails,
        is_read(&mut disk.crashed(), left),
    );
    Ok(())
}

#[test]
fn a_call_fails_and_the_disk_stops(rt: HostRuntime) -> Result<(), Fail> {
    let alloc = rt.alloc();
    let second = [false, true, false, false];
    fails_and_stops(&rt, alloc, 1, 3, Choice::Keep, second, &[7, 8])?;
    fails_and_stops(&rt, alloc, 1, 3, Choice::Lose, second, &[])?;
    fails_and_stops(&rt, alloc, 1, 3, Choice::Fill(9), second, &[9, 9])?;
    let first = [true, false, false, false];
    fails_and_stops(&rt, alloc, 2, 3, Choice::Keep, first, &[7, 8, 3])?;
    fails_and_stops(&rt, alloc, 2, 3, Choice::Fill(9), first, &[9, 9, 9])?;
    let both = [true, true, false, false];
    fails_and_stops(&rt, alloc, 3, 3, Choice::Keep, both, &[7, 8, 3])?;
    fails_and_stops(&rt, alloc, 4, 3, Choice::Lose, both, &[1, 2, 3])
}

// Area 1 is synced with two bytes, of which the last is written anew: what a crash leaves there.
fn crash_of_area_1(
    rt: &impl Abort,
    alloc: Global,
    choice: Choice,
    left: &[u8],
) -> Result<(), Fail> {
    let mut disk = roomy(alloc)?;
    disk.write(1, 0, &[5, 6])?;
    disk.sync()?;
    disk.write(1, 1, &[8])?;
    disk.stop_at(1, choice);
    let mut crashed = disk.crashed();
    holds(rt, "area 0 is empty", has(&mut crashed, 0, &[]));
    holds(
        rt,
        "what a crash leaves in area 1",
        has(&mut crashed, 1, left),
    );
    Ok(())
}

#[test]
fn the_other_area_crashes_alike(rt: HostRuntime) -> Result<(), Fail> {
    let alloc = rt.alloc();
    crash_of_area_1(&rt, alloc, Choice::Keep, &[5, 8])?;
    crash_of_area_1(&rt, alloc, Choice::Lose, &[5, 6])?;
    crash_of_area_1(&rt, alloc, Choice::Fill(3), &[5, 3])
}

#[test]
fn both_areas_are_read(rt: HostRuntime) -> Result<(), Fail> {
    let mut disk = roomy(rt.alloc())?;
    disk.write(0, 0, &[5; 1])?;
    disk.write(1, 0, &[1, 2, 3, 4])?;
    holds(&rt, "length of area 0", disk.length(0) == Ok(1));
    holds(&rt, "length of area 1", disk.length(1) == Ok(4));
    let mut buffer = [0; 2];
    holds(&rt, "two bytes", disk.read(1, 1, &mut buffer) == Ok(2));
    holds(&rt, "the two", buffer == [2, 3]);
    holds(&rt, "one byte", disk.read(1, 3, &mut buffer) == Ok(1));
    holds(&rt, "the one", buffer == [4, 3]);
    holds(&rt, "past the end", disk.read(1, 9, &mut buffer) == Ok(0));
    Ok(())
}

#[test]
fn steps_are_settled(rt: HostRuntime) -> Result<(), Fail> {
    let mut disk = roomy(rt.alloc())?;
    put(&mut disk, 0, 0, &[1, 2, 3])?;
    trim(&mut disk, 0, 2)?;
    holds(
        &rt,
        "both are settled",
        is_read(&mut disk.crashed(), &[1, 2]),
    );
    Ok(())
}

#[test]
fn a_step_fails_at_its_sync(rt: HostRuntime) -> Result<(), Fail> {
    let mut disk = roomy(rt.alloc())?;
    disk.fail_at(2);
    let fault = Err(StepFault::Sync);
    holds(&rt, "the sync", put(&mut disk, 0, 0, &[1, 2, 3]) == fault);
    holds(&rt, "nothing is settled", is_read(&mut disk.crashed(), &[]));
    Ok(())
}

// Makes room, writes these bytes at the front of area 0 and syncs.
fn store<D: Disk>(disk: &mut D, bytes: &[u8]) -> Result<(), Fail> {
    let Ok(()) = disk.reserve(0, bytes.len() as u64) else {
        return Err(Fail::from("memory"));
    };
    disk.write(0, 0, bytes)?;
    disk.sync()?;
    Ok(())
}

// Stores these bytes on the disk of a name.
fn store_in<F: Folder>(folder: &mut F, name: &StoreName, bytes: &[u8]) -> Result<(), Fail> {
    let mut disk = folder.take(name)?;
    let stored = store(&mut disk, bytes);
    folder.back(name, disk);
    stored
}

// Whether the disk of a name reads as these bytes. It is given back.
fn stands<F: Folder>(folder: &mut F, name: &StoreName, bytes: &[u8]) -> bool {
    let Ok(mut disk) = folder.take(name) else {
        return false;
    };
    let reads = is_read(&mut disk, bytes);
    folder.back(name, disk);
    reads
}

// The name of a user's account.
fn account(user: &[u8]) -> Result<StoreName, Fail> {
    let user = Name::read(user).ok_or("a name")?;
    Ok(StoreName::Account { user })
}

// The name of the cache of a user's client.
fn cache(user: &[u8], client: &[u8]) -> Result<StoreName, Fail> {
    let user = Name::read(user).ok_or("a name")?;
    let client = Name::read(client).ok_or("a name")?;
    Ok(StoreName::Client { user, client })
}

#[test]
fn each_name_has_its_disk(rt: HostRuntime) -> Result<(), Fail> {
    let mut folder = MemoryFolder::new(rt.alloc());
    keeps_each(&rt, &mut folder)
}

// Stores under a name of each kind, of two users, and looks what stands there.
fn keeps_each(rt: &impl Abort, folder: &mut MemoryFolder) -> Result<(), Fail> {
    let office = StoreName::Office;
    let ann = account(b"ann")?;
    let bob = account(b"bob")?;
    let client = cache(b"ann", b"bob")?;
    holds(rt, "no disk yet", stands(folder, &ann, &[]));
    store_in(folder, &office, &[1])?;
    store_in(folder, &ann, &[2, 2])?;
    store_in(folder, &client, &[3])?;
    store_in(folder, &ann, &[4])?;
    holds(rt, "the office's", stands(folder, &office, &[1]));
    holds(rt, "ann's", stands(folder, &ann, &[4, 2]));
    holds(rt, "bob's", stands(folder, &bob, &[]));
    holds(rt, "the client's", stands(folder, &client, &[3]));
    Ok(())
}

#[test]
fn a_disk_is_given_back_under_another_name(rt: HostRuntime) -> Result<(), Fail> {
    let mut folder = MemoryFolder::new(rt.alloc());
    takes_another_name(&rt, &mut folder)
}

// Gives ann's disk back as the office's, and looks what stands under each name then.
fn takes_another_name(rt: &impl Abort, folder: &mut MemoryFolder) -> Result<(), Fail> {
    let office = StoreName::Office;
    let ann = account(b"ann")?;
    let bob = account(b"bob")?;
    store_in(folder, &office, &[1])?;
    store_in(folder, &ann, &[2])?;
    let disk = folder.take(&ann)?;
    holds(rt, "ann's is taken", stands(folder, &ann, &[]));
    folder.back(&office, disk);
    holds(rt, "the office has it", stands(folder, &office, &[2]));
    holds(rt, "bob has none", stands(folder, &bob, &[]));
    Ok(())
}

#[test]
fn a_folder_fails(rt: HostRuntime) -> Result<(), Fail> {
    let mut folder = MemoryFolder::new(rt.alloc());
    fails_once(&rt, &mut folder)
}

// Lets the second call of `take` fail.
fn fails_once(rt: &impl Abort, folder: &mut MemoryFolder) -> Result<(), Fail> {
    let office = StoreName::Office;
    store_in(folder, &office, &[1])?;
    folder.fail_at(2);
    holds(rt, "the first", stands(folder, &office, &[1]));
    holds(rt, "the second fails", folder.take(&office).is_err());
    holds(rt, "the third", stands(folder, &office, &[1]));
    Ok(())
}

#[test]
fn a_disk_in_a_folder_is_armed(rt: HostRuntime) -> Result<(), Fail> {
    let mut folder = MemoryFolder::new(rt.alloc());
    arm(&rt, rt.alloc(), &mut folder)?;
    fails_where_armed(&rt, &mut folder)
}

// Puts a disk whose first call fails in place of the office's.
fn arm(rt: &impl Abort, alloc: Global, folder: &mut MemoryFolder) -> Result<(), Fail> {
    let mut disk = folder.take(&StoreName::Office)?;
    let mut armed = MemoryDisk::new(alloc);
    armed.fail_at(1);
    let empty = disk.exchange(armed);
    holds(rt, "the one before is whole", !empty.stopped());
    folder.back(&StoreName::Office, disk);
    Ok(())
}

// Looks whether the first call of the office's disk fails, and no other.
fn fails_where_armed(rt: &impl Abort, folder: &mut MemoryFolder) -> Result<(), Fail> {
    let mut disk = folder.take(&StoreName::Office)?;
    let Ok(()) = disk.reserve(0, 8) else {
        return Err(Fail::from("memory"));
    };
    holds(rt, "the first fails", disk.write(0, 0, &[1]).is_err());
    holds(rt, "the second", disk.write(0, 0, &[2]).is_ok());
    holds(rt, "what is read", is_read(&mut disk, &[2]));
    Ok(())
}

// Whether there is room for the bytes, and they are put at this place of area 0.
fn puts(disk: &mut SilentDisk<MemoryDisk>, at: u64, bytes: &[u8; 2]) -> bool {
    let Ok(()) = disk.reserve(0, 8) else {
        return false;
    };
    put(disk, 0, at, bytes).is_ok()
}

#[test]
fn a_disk_that_tells_nothing(rt: HostRuntime) -> Result<(), Fail> {
    let mut inner = MemoryDisk::new(rt.alloc());
    inner.fail_at(3);
    let mut disk = SilentDisk::new(inner);
    holds(&rt, "is put", puts(&mut disk, 0, &[1, 2]));
    holds(&rt, "the third call fails", !puts(&mut disk, 2, &[3, 4]));
    holds(&rt, "what is read", is_read(&mut disk, &[1, 2]));
    holds(&rt, "past the end", !puts(&mut disk, 3, &[5, 6]));
    holds(&rt, "at the end", puts(&mut disk, 2, &[7, 8]));
    holds(&rt, "what is read then", is_read(&mut disk, &[1, 2, 7, 8]));
    holds(&rt, "its length", disk.length(0) == Ok(4));
    Ok(())
}

// What can go to another thread.
fn is_sent<T: Send>(_value: &T) {}

#[test]
fn disks_go_to_other_threads(rt: HostRuntime) -> Result<(), Fail> {
    let mut folder = MemoryFolder::new(rt.alloc());
    is_sent(&folder);
    is_sent(&folder.take(&StoreName::Office)?);
    is_sent(&SilentDisk::new(MemoryDisk::new(rt.alloc())));
    Ok(())
}
