//! The words of a line, and the wishes that they spell.

use crate::{OfficeEntry, OfficeWish};
use pc_base::{Line, Lines, Name, Names, read_u32};
use pc_message::Message;
use std::alloc::Global;
use std::test::Fail;

/// The name at this place.
pub fn name(words: &[&str], place: usize) -> Result<Name, Fail> {
    let word = words.get(place).ok_or("a word more")?;
    Ok(Name::read(word.as_bytes()).ok_or("a name")?)
}

/// The number at this place.
pub fn number(words: &[&str], place: usize) -> Result<u32, Fail> {
    let word = words.get(place).ok_or("a word more")?;
    Ok(read_u32(word.as_bytes()).ok_or("a number")?)
}

/// The wish that a line spells, where it spells one.
pub fn wish(alloc: Global, verb: &str, words: &[&str]) -> Result<Option<OfficeWish>, Fail> {
    match verb {
        "AddUser" => Ok(Some(OfficeWish::AddUser {
            user: name(words, 0)?,
        })),
        "AddBoard" => Ok(Some(OfficeWish::AddBoard {
            board: name(words, 0)?,
        })),
        "Take" => Ok(Some(OfficeWish::TakeAddress {
            address: name(words, 0)?,
            user: name(words, 1)?,
            mailbox: name(words, 2)?,
        })),
        "Drop" => Ok(Some(OfficeWish::DropAddress {
            address: name(words, 0)?,
            user: name(words, 1)?,
        })),
        "Send" => Ok(Some(OfficeWish::Accept {
            message: message(alloc, number(words, 0)?, &field(alloc, words)?)?,
        })),
        "Commas" => Ok(Some(OfficeWish::Accept {
            message: message(alloc, number(words, 1)?, &with_commas(alloc, words)?)?,
        })),
        _ => Ok(None),
    }
}

/// The entry that a line spells, where it spells one that isn't wished for.
pub fn entry(alloc: Global, verb: &str, words: &[&str]) -> Result<Option<OfficeEntry>, Fail> {
    match verb {
        "Pulled" => Ok(Some(OfficeEntry::Pulled {
            user: name(words, 0)?,
            number: number(words, 1)? as u64,
        })),
        "EntryDrop" => Ok(Some(OfficeEntry::DropAddress {
            address: name(words, 0)?,
        })),
        "EntryTake" => Ok(Some(OfficeEntry::TakeAddress {
            address: name(words, 0)?,
            user: name(words, 1)?,
            mailbox: name(words, 1)?,
        })),
        "EntrySend" => Ok(Some(OfficeEntry::Accept {
            names: names(alloc, words)?,
            message: message(alloc, 0, "")?,
        })),
        _ => Ok(None),
    }
}

/// The names that these words are.
fn names(alloc: Global, words: &[&str]) -> Result<Names, Fail> {
    let mut names = Names::new(alloc);
    for place in 0..words.len() {
        names.push(name(words, place)?)?;
    }
    Ok(names)
}

/// A message with this field, and so many lines of 998 bytes behind an empty one.
fn message(alloc: Global, count: u32, field: &str) -> Result<Message, Fail> {
    let mut lines = Lines::new(alloc);
    lines.push(Line::copy_of(alloc, field.as_bytes())?)?;
    lines.push(Line::copy_of(alloc, b"")?)?;
    let text = [b'x'; 998];
    for _ in 0..count {
        lines.push(Line::copy_of(alloc, &text)?)?;
    }
    Ok(Message::of(lines).ok().ok_or("a message")?)
}

/// The field that names the items from the second word on.
fn field(alloc: Global, items: &[&str]) -> Result<String, Fail> {
    let mut text = String::from_str(alloc, "To:")?;
    for item in items.iter().skip(1) {
        text.push(' ')?;
        text.push_str(item)?;
    }
    Ok(text)
}

/// The field that names the item in the third word, with as many commas as the first word says.
fn with_commas(alloc: Global, words: &[&str]) -> Result<String, Fail> {
    let mut text = field(alloc, words.get(1..).ok_or("words")?)?;
    for _ in 0..number(words, 0)? {
        text.push(',')?;
    }
    Ok(text)
}
