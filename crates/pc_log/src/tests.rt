//! The worked area, its fronts and its wrong bytes; crashes in an append and in each form of making an
//! area. The tables are worked out by hand.

ghost use Rattle.std.specs.Prelude.{◌≡◌, ◌<◌, ◌≤◌, IfOk, []};

use crate::{AppendFault, Found, Log, LogFault, Numbers, PlacedEntry, peek};
use pc_base::Bytes;
use pc_disk::{Choice, Disk, MemoryDisk};
use std::alloc::Global;
use std::process::Abort;
use std::test::Fail;

// An account's area: an empty base, a password, and the mailbox `inbox`.
const AREA: [u8; 96] = [
    1, 0x50, 0x43, 0x4d, 0x41, 0x49, 0x4c, 0x31, 0x0a, 1, 0, 0, 0, 0, 0, 0, 0, 1, 0, 0, 0, 0, 0, 0,
    0, 1, 0, 0, 0, 15, 0, 0, 0, 0, 0, 0, 0, 0, 0, 0, 0, 0, 0, 0, 0, 1, 0, 0, 0, 33, 12, 34, 35, 36,
    37, 38, 39, 40, 41, 42, 43, 44, 45, 46, 47, 48, 49, 50, 51, 52, 53, 54, 55, 56, 57, 58, 59, 60,
    61, 62, 63, 64, 65, 1, 0, 0, 0, 7, 1, 5, 0x69, 0x6e, 0x62, 0x6f, 0x78, 0,
];

// What is seen of an area that was opened: numbers, and how long the base is and how many entries follow.
#[derive(Clone, Copy, Debug, PartialEq, Eq)]
enum Seen {
    NotMade,
    Fault(u64),
    Made(u64, u64, usize, usize),
}

// Asserts what a row says; the row is told where it doesn't hold.
fn holds(rt: &impl Abort, row: &str, is: bool) {
    assert!(rt; is, "{row}");
}

// Asserts what is seen of an area in this row.
fn sees(rt: &impl Abort, row: usize, found: Seen, wanted: Seen) {
    assert_eq!(rt; found, wanted, "{row}");
}

// Asserts what the k-th device call of an append leads to.
fn answer_is(
    rt: &impl Abort,
    k: u32,
    found: Result<(), AppendFault>,
    wanted: Result<(), AppendFault>,
) {
    assert!(rt; found == wanted, "{k}");
}

// The area of account 0 as it is opened.
fn look(alloc: Global, disk: &mut MemoryDisk) -> Result<Seen, Fail> {
    match Log::open_log(alloc, disk, 0, 1) {
        Ok(Found::NotMade) => Ok(Seen::NotMade),
        Ok(
            Found::Made {
                log: _,
                generation,
                first,
                base,
                entries,
            },
        ) => Ok(Seen::Made(generation, first, base.as_slice().len(), entries.len())),
        Err(LogFault::Malformed { place }) => Ok(Seen::Fault(place)),
        Err(LogFault::Device) => Err(Fail::from("device")),
        Err(LogFault::Memory) => Err(Fail::from("memory")),
    }
}

// A disk on which these bytes stand in area 0, with nothing pending.
fn holding(alloc: Global, bytes: &[u8]) -> Result<MemoryDisk, Fail>
    ensures { IfOk result (λ disk. disk.deeds ≡ []) }
{
    let mut disk = MemoryDisk::new(alloc);
    disk.reserve(0, bytes.len() as u64)?;
    disk.write(0, 0, bytes)?;
    disk.sync()?;
    Ok(disk.crashed())
}

#[test]
fn the_worked_area_is_made(rt: HostRuntime) -> Result<(), Fail> {
    let alloc = rt.alloc();
    let mut disk = MemoryDisk::new(alloc);
    let mut log = Log::create(alloc, &mut disk, 0, 1, 1, 1, &[0; 15])?;
    let password = Bytes::copy_of(alloc, &AREA[50..83])?;
    log.prepare(&mut disk, 33)?;
    log.append(&mut disk, &password)?;
    let mailbox = Bytes::copy_of(alloc, &AREA[88..95])?;
    log.prepare(&mut disk, 7)?;
    log.append(&mut disk, &mailbox)?;
    let mut buffer = [9; 96];
    holds(&rt, "the length", disk.length(0) == Ok(96));
    holds(&rt, "all of it", disk.read(0, 0, &mut buffer) == Ok(96));
    holds(&rt, "the bytes", buffer == AREA);
    Ok(())
}

// Whether an entry was found at this place with these bytes.
fn is_entry(entry: &PlacedEntry, place: u64, bytes: &[u8]) -> bool {
    entry.place == place && entry.bytes.as_slice() == bytes
}

#[test]
fn the_worked_area_is_opened(rt: HostRuntime) -> Result<(), Fail> {
    let alloc = rt.alloc();
    let mut disk = holding(alloc, &AREA)?;
    let Ok(
        Found::Made {
            log: _,
            generation: 1,
            first: 1,
            base,
            entries,
        },
    ) = Log::open_log(alloc, &mut disk, 0, 1)
    else {
        return Err(Fail::from("the area is made"));
    };
    holds(&rt, "the base", base.as_slice() == [0; 15].as_slice());
    let [password, mailbox] = entries.as_slice() else {
        return Err(Fail::from("two entries"));
    };
    holds(&rt, "the password", is_entry(password, 45, &AREA[50..83]));
    holds(&rt, "the mailbox", is_entry(mailbox, 83, &AREA[88..95]));
    Ok(())
}

// What is seen of the area's first so many bytes.
fn front_seen(count: usize) -> Seen {
    match count {
        0..=1 => Seen::NotMade,
        2..=8 => Seen::Fault(1),
        9 => Seen::Fault(9),
        10..=17 => Seen::Fault(10),
        18..=25 => Seen::Fault(18),
        26..=29 => Seen::Fault(26),
        30..=44 => Seen::Fault(30),
        45 => Seen::Fault(45),
        46..=49 => Seen::Fault(46),
        50..=82 => Seen::Fault(50),
        83 => Seen::Fault(83),
        84..=87 => Seen::Fault(84),
        88..=94 => Seen::Fault(88),
        95 => Seen::Fault(95),
        _ => Seen::Made(1, 1, 15, 2),
    }
}

#[test]
fn fronts_are_malformed(rt: HostRuntime) -> Result<(), Fail> {
    let alloc = rt.alloc();
    for count in 0..97 {
        let mut disk = holding(alloc, &AREA[..count])?;
        sees(&rt, count, look(alloc, &mut disk)?, front_seen(count));
    }
    Ok(())
}

// What the area's first so many bytes tell of its numbers.
fn front_peeked(count: usize) -> Result<Option<Numbers>, LogFault> {
    let place = match count {
        0..=1 => return Ok(None),
        2..=8 => 1,
        9 => 9,
        10..=17 => 10,
        18..=25 => 18,
        26..=29 => 26,
        _ => return Ok(Some(Numbers {
            generation: 1,
            first: 1,
            size: 15,
        })),
    };
    Err(LogFault::Malformed { place })
}

// Asserts what is peeked in the area's first so many bytes.
fn peeks(rt: &impl Abort, count: usize, found: Result<Option<Numbers>, LogFault>) {
    assert!(rt; found == front_peeked(count), "{count}");
}

#[test]
fn numbers_are_peeked(rt: HostRuntime) -> Result<(), Fail> {
    let alloc = rt.alloc();
    for count in 0..97 {
        let mut disk = holding(alloc, &AREA[..count])?;
        peeks(&rt, count, peek(&mut disk, 0, 1));
    }
    Ok(())
}

// What is seen of the area with this byte, 0, 1 or 255, at this place.
fn changed_seen(place: usize, byte: u8) -> Seen {
    let whole = Seen::Made(1, 1, 15, 2);
    match (place, byte) {
        (0, 1) => whole,
        (0, _) => Seen::NotMade,
        (1..=8, _) => Seen::Fault(1),
        (9, 1) => whole,
        (9, _) => Seen::Fault(9),
        (10, 255) => Seen::Fault(10),
        (17, 0) => Seen::Fault(10),
        (17, _) => Seen::Made(u64::from(byte), 1, 15, 2),
        (10..=16, _) => Seen::Made((u64::from(byte) << (8 * (17 - place))) | 1, 1, 15, 2),
        (18, 255) => Seen::Fault(18),
        (25, 0) => Seen::Fault(18),
        (25, _) => Seen::Made(1, u64::from(byte), 15, 2),
        (18..=24, _) => Seen::Made(1, (u64::from(byte) << (8 * (25 - place))) | 1, 15, 2),
        (26..=28, 0) => whole,
        (26, 255) => Seen::Fault(26),
        (29, 0) => Seen::Made(1, 1, 0, 0),
        (29, 1) => Seen::Made(1, 1, 1, 0),
        (26..=29, _) => Seen::Fault(30),
        (45, 1) => whole,
        (45, _) => Seen::Made(1, 1, 15, 0),
        (46..=48, 0) => whole,
        (46, _) => Seen::Fault(46),
        (47, 255) => Seen::Fault(46),
        (49, 0) => Seen::Fault(46),
        (49, 1) => Seen::Made(1, 1, 15, 1),
        (47..=49, _) => Seen::Fault(50),
        (83, 1) => whole,
        (83, _) => Seen::Made(1, 1, 15, 1),
        (84..=86, 0) => whole,
        (84, _) => Seen::Fault(84),
        (85, 255) => Seen::Fault(84),
        (87, 0) => Seen::Fault(84),
        (87, 1) => whole,
        (85..=87, _) => Seen::Fault(88),
        (95, 1) => Seen::Fault(96),
        (_, _) => whole,
    }
}

#[test]
fn each_byte_is_changed(rt: HostRuntime) -> Result<(), Fail> {
    let alloc = rt.alloc();
    for place in 0..96 {
        for byte in &[0, 1, 255] {
            let mut area = AREA;
            area[place] = *byte;
            let mut disk = holding(alloc, &area)?;
            sees(
                &rt,
                place,
                look(alloc, &mut disk)?,
                changed_seen(place, *byte),
            );
        }
    }
    Ok(())
}

// What an append answers whose k-th device call failed.
fn failed_at(k: u32) -> Result<(), AppendFault>
    requires { k < 6 }
{
    Err(AppendFault { call: k as u8 })
}

// Both entries fit a trail, and a third one may be appended, at which the disk stops.
fn stops_at(
    rt: &impl Abort,
    alloc: Global,
    k: u32,
    choice: Choice,
    entries: usize,
) -> Result<(), Fail>
    requires { k < 6 }
{
    let mut disk = MemoryDisk::new(alloc);
    disk.stop_at(6 + k, choice);
    let mut log = Log::create(alloc, &mut disk, 0, 1, 1, 1, &[7])?;
    log.prepare(&mut disk, 2)?;
    let result = log.append(&mut disk, &Bytes::copy_of(alloc, &[1, 1])?);
    answer_is(rt, k, result, if k == 5 { Ok(()) } else { failed_at(k) });
    let left = look(alloc, &mut disk.crashed())?;
    sees(rt, k as usize, left, Seen::Made(1, 1, 1, entries));
    Ok(())
}

#[test]
fn an_append_stops(rt: HostRuntime) -> Result<(), Fail> {
    let alloc = rt.alloc();
    for choice in &CHOICES {
        stops_at(&rt, alloc, 1, *choice, 0)?;
        stops_at(&rt, alloc, 2, *choice, 0)?;
        stops_at(&rt, alloc, 5, *choice, 1)?;
    }
    for k in 3..5 {
        stops_at(&rt, alloc, k, Choice::Keep, 1)?;
        stops_at(&rt, alloc, k, Choice::Lose, 0)?;
        stops_at(&rt, alloc, k, Choice::Fill(1), 1)?;
        stops_at(&rt, alloc, k, Choice::Fill(9), 0)?;
    }
    Ok(())
}

// The k-th device call of an append fails: how many entries are read then. After a crash there is none.
fn fails_at(rt: &impl Abort, alloc: Global, k: u32, entries: usize) -> Result<(), Fail>
    requires { k < 6 }
{
    let mut disk = MemoryDisk::new(alloc);
    disk.fail_at(6 + k);
    let mut log = Log::create(alloc, &mut disk, 0, 1, 1, 1, &[])?;
    log.prepare(&mut disk, 1)?;
    let result = log.append(&mut disk, &Bytes::copy_of(alloc, &[3])?);
    answer_is(rt, k, result, failed_at(k));
    sees(
        rt,
        k as usize,
        look(alloc, &mut disk)?,
        Seen::Made(1, 1, 0, entries),
    );
    let left = look(alloc, &mut disk.crashed())?;
    sees(rt, k as usize, left, Seen::Made(1, 1, 0, 0));
    Ok(())
}

#[test]
fn an_append_fails(rt: HostRuntime) -> Result<(), Fail> {
    let alloc = rt.alloc();
    fails_at(&rt, alloc, 1, 0)?;
    fails_at(&rt, alloc, 2, 0)?;
    fails_at(&rt, alloc, 3, 0)?;
    fails_at(&rt, alloc, 4, 1)
}

// Making an area of generation 2 over old bytes stops at the k-th device call. It is read so after the crash.
fn making_stops(
    rt: &impl Abort,
    alloc: Global,
    old: &[u8],
    k: u32,
    choice: Choice,
    read: Seen,
) -> Result<(), Fail>
    requires { 0 < k }
{
    let mut disk = holding(alloc, old)?;
    disk.stop_at(k, choice);
    let result = Log::create(alloc, &mut disk, 0, 1, 2, 5, &[]);
    holds(
        rt,
        "stops where it fails",
        result.is_err() == disk.stopped(),
    );
    sees(rt, k as usize, look(alloc, &mut disk.crashed())?, read);
    Ok(())
}

static CHOICES: [Choice; 4] = [Choice::Keep, Choice::Lose, Choice::Fill(1), Choice::Fill(9)];

const NEW: Seen = Seen::Made(2, 5, 0, 0);

// The area is written and its gate opened by four calls that come after so many.
fn filling_stops(rt: &impl Abort, alloc: Global, old: &[u8], before: u32) -> Result<(), Fail>
    requires { before < 9 }
{
    for choice in &CHOICES {
        making_stops(rt, alloc, old, before + 1, *choice, Seen::NotMade)?;
        making_stops(rt, alloc, old, before + 2, *choice, Seen::NotMade)?;
        making_stops(rt, alloc, old, before + 5, *choice, NEW)?;
    }
    for k in 3..5 {
        making_stops(rt, alloc, old, before + k, Choice::Keep, NEW)?;
        making_stops(rt, alloc, old, before + k, Choice::Lose, Seen::NotMade)?;
        making_stops(rt, alloc, old, before + k, Choice::Fill(1), NEW)?;
        making_stops(rt, alloc, old, before + k, Choice::Fill(9), Seen::NotMade)?;
    }
    Ok(())
}

#[test]
fn an_empty_area_is_closed_and_written(rt: HostRuntime) -> Result<(), Fail> {
    let alloc = rt.alloc();
    for choice in &CHOICES {
        making_stops(&rt, alloc, &[], 1, *choice, Seen::NotMade)?;
        making_stops(&rt, alloc, &[], 2, *choice, Seen::NotMade)?;
    }
    filling_stops(&rt, alloc, &[], 2)
}

#[test]
fn a_closed_area_is_cut_and_written(rt: HostRuntime) -> Result<(), Fail> {
    let alloc = rt.alloc();
    let mut closed = AREA;
    closed[0] = 2;
    for choice in &CHOICES {
        making_stops(&rt, alloc, &closed, 1, *choice, Seen::NotMade)?;
        making_stops(&rt, alloc, &closed, 2, *choice, Seen::NotMade)?;
    }
    filling_stops(&rt, alloc, &closed, 2)
}

#[test]
fn an_open_area_is_closed_cut_and_written(rt: HostRuntime) -> Result<(), Fail> {
    let alloc = rt.alloc();
    let old = Seen::Made(1, 1, 15, 2);
    for k in 1..3 {
        making_stops(&rt, alloc, &AREA, k, Choice::Keep, Seen::NotMade)?;
        making_stops(&rt, alloc, &AREA, k, Choice::Lose, old)?;
        making_stops(&rt, alloc, &AREA, k, Choice::Fill(1), old)?;
        making_stops(&rt, alloc, &AREA, k, Choice::Fill(9), Seen::NotMade)?;
    }
    for choice in &CHOICES {
        making_stops(&rt, alloc, &AREA, 3, *choice, Seen::NotMade)?;
        making_stops(&rt, alloc, &AREA, 4, *choice, Seen::NotMade)?;
    }
    filling_stops(&rt, alloc, &AREA, 4)
}
