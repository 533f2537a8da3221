//! The store of a new account byte for byte, and what opening answers for each front of it and for each
//! of its bytes changed. The expected answers are worked out by hand.

use super::accounts::{AREA, first_entries};
use super::stores::{area_of, found_in};
use pc_account::Account;
use pc_base::StoreFault;
use std::test::Fail;

#[test]
fn a_store_byte_for_byte(rt: HostRuntime) -> Result<(), Fail> {
    let area = area_of::<Account>(rt.alloc(), first_entries(rt.alloc())?)?;
    assert_eq!(rt; area.as_slice(), AREA);
    Ok(())
}

fn at(place: u64) -> Result<usize, StoreFault> {
    Err(StoreFault::Malformed { area: 0, place })
}

/// What is found in the first so many bytes: the field that is cut off, or that would begin there.
fn in_front(count: usize) -> Result<usize, StoreFault> {
    match count {
        0 | 1 => Err(StoreFault::NotMade),
        2..=8 => at(1),
        9 => at(9),
        10..=17 => at(10),
        18..=25 => at(18),
        26..=29 => at(26),
        30..=44 => at(30),
        45 => at(45),
        46..=49 => at(46),
        50..=82 => at(50),
        83 => at(83),
        84..=87 => at(84),
        88..=94 => at(88),
        95 => at(95),
        _ => Ok(2),
    }
}

#[test]
fn each_front_of_an_area(rt: HostRuntime) -> Result<(), Fail> {
    for count in 0..=AREA.len() {
        let found = found_in::<Account>(rt.alloc(), &AREA[..count])?;
        assert_eq!(rt; found, in_front(count), "{count}");
    }
    Ok(())
}

/// What is found where one byte of the head or the base is 0, 1 or 255.
fn with_byte_in_front(place: usize, byte: u8) -> Result<usize, StoreFault> {
    match (place, byte) {
        (0, 0 | 255) => Err(StoreFault::NotMade),
        (1..=8, _) => at(1),
        (9, 0 | 255) => at(9),
        (10, 255) | (17, 0) => at(10),
        (18, 255) | (25, 0) => at(18),
        // a base too long for its field, or for the area; or one that ends in its first number
        (26, 255) => at(26),
        (26..=28, 1 | 255) | (29, _) => at(30),
        // mails pulled, the digest, clients, mailboxes, subscriptions
        (30, 255) => at(30),
        (38, 1) => at(39),
        (38, 255) => at(38),
        (39, 1 | 255) | (40, 255) => at(39),
        (40, 1) => at(41),
        (41, 1 | 255) | (42, 255) => at(41),
        (42, 1) => at(43),
        (43, 1 | 255) | (44, 255) => at(43),
        (44, 1) => at(45),
        _ => Ok(2),
    }
}

/// What is found where one byte behind the base is 0, 1 or 255.
fn with_byte_behind(place: usize, byte: u8) -> Result<usize, StoreFault> {
    match (place, byte) {
        (45, 0 | 255) => Ok(0),
        // 33 bytes: too many for an entry, past the area's end, none, or too few for a digest
        (46, 1 | 255) | (47, 255) | (49, 0) => at(46),
        (47, 1) | (48, 1 | 255) | (49, 255) => at(50),
        (49, 1) => at(51),
        (50, 0 | 255) => at(50),
        (50, 1) => at(51),
        (83, 0 | 255) => Ok(1),
        // 7 bytes
        (84, 1 | 255) | (85, 255) | (87, 0) => at(84),
        (85, 1) | (86, 1 | 255) | (87, 255) => at(88),
        (87, 1) => at(89),
        (88, 0 | 255) => at(88),
        // no name, a name of one letter with bytes behind it, or a name cut off
        (89, 0 | 255) | (90..=94, _) => at(89),
        (89, 1) => at(91),
        (95, 1) => at(96),
        _ => Ok(2),
    }
}

#[test]
fn each_byte_of_an_area(rt: HostRuntime) -> Result<(), Fail> {
    for byte in [0, 1, 255] {
        for place in 0..AREA.len() {
            let mut area = Vec::new(rt.alloc());
            area.extend_from_slice(&AREA[..place])?;
            area.push(byte)?;
            area.extend_from_slice(&AREA[place + 1..])?;
            let expected = if place < 45 {
                with_byte_in_front(place, byte)
            } else {
                with_byte_behind(place, byte)
            };
            let found = found_in::<Account>(rt.alloc(), &area)?;
            assert_eq!(rt; found, expected, "{place}: {byte}");
        }
    }
    Ok(())
}
