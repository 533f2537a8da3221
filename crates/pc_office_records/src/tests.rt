use super::*;
use pc_base::{Bytes, ReadFault};
use std::alloc::Global;
use std::test::Fail;

/// Two users, an address besides their own, a board with a message, and a mail that waits for both.
const SMALL: &[u8] =
    b"\x00\x02\x03ann\x00\x00\x00\x00\x00\x00\x00\x01\x03bob\x00\x00\x00\x00\x00\x00\x00\x00\x00\x03\x03ann\x03ann\x05inbox\x03bob\x03bob\x05inbox\x05sales\x03bob\x04work\x00\x01\x04news\x00\x00\x00\x01\x00\x00\x00\x01\x00\x02hi\x00\x00\x00\x00\x00\x00\x01\x02\x00\x00\x00\x01\x00\x00\x00\x00\x00\x00\x00\x02\x00\x02\x03bob\x04work\x03ann\x05inbox\x00\x00\x00\x02\x00\x05To:\x20x\x00\x00";

/// Where its fields begin.
const FIELDS: &[u64] = &[
    0, 2, 6, 14, 18, 26, 28, 32, 36, 42, 46, 50, 56, 62, 66, 71, 73, 78, 82, 86, 90, 98, 102, 110,
    112, 116, 121, 125, 131, 135, 142,
];

/// Where the bytes stop being a record; nothing where they are one.
fn place_of(alloc: Global, bytes: &[u8]) -> Result<Option<u64>, Fail> {
    match load(alloc, bytes) {
        Ok(_) => Ok(None),
        Err(ReadFault::Malformed { place }) => Ok(Some(place)),
        Err(ReadFault::Memory) => Err("no memory")?,
    }
}

/// The last field that begins no later than here.
fn cut_field(count: u64) -> Option<u64> {
    let mut cut = None;
    for field in FIELDS {
        if *field <= count {
            cut = Some(*field);
        }
    }
    cut
}

/// The record with another byte at this place.
fn with_byte(alloc: Global, place: u8, byte: u8) -> Result<Bytes, Fail> {
    let place = place as usize;
    let (Some(front), Some(behind)) = (SMALL.get(..place), SMALL.get(place + 1..)) else {
        return Err("a place in the record")?;
    };
    let mut bytes = Bytes::copy_of(alloc, front)?;
    bytes.append(&[byte])?;
    bytes.append(behind)?;
    Ok(bytes)
}

#[test]
fn a_record_is_loaded_and_saved(rt: HostRuntime) -> Result<(), Fail> {
    let Ok(holdings) = load(rt.alloc(), SMALL) else {
        return Err("a record")?;
    };
    let mut written = Bytes::new(rt.alloc());
    save(&holdings, &mut written)?;
    assert_eq!(rt; written.as_slice(), SMALL);
    for count in 0..SMALL.len() {
        assert_eq!(rt;
            place_of(rt.alloc(), &SMALL[..count])?,
            cut_field(count as u64)
        );
    }
    Ok(())
}

/// Each row: the place of a byte, another byte, and where the record then stops.
#[test]
fn faults_are_placed(rt: HostRuntime) -> Result<(), Fail> {
    let table: [(u8, u8, u64); 8] = [
        (1, 33, 0),
        (35, b'x', 32),
        (79, 1, 78),
        (109, 0, 102),
        (109, 1, 110),
        (111, 0, 110),
        (111, 3, 110),
        (13, 3, 110),
    ];
    for (place, byte, stop) in table {
        let bytes = with_byte(rt.alloc(), place, byte)?;
        assert_eq!(rt; place_of(rt.alloc(), bytes.as_slice())?, Some(stop));
    }
    Ok(())
}
