//! A cache that is told in words what to do, so that a test is a table of lines and answers.

use crate::Cache;
use pc_base::{Line, Memory, Name, Names, read_u32};
use pc_cache_history::{CacheEntry, Item};
use pc_message::{Change, Changes, Descriptor};
use std::alloc::Global;
use std::process::Abort;
use std::test::Fail;

/// Plays each row's line over a new cache, and looks whether that gives the row's answer.
pub fn plays(rt: &impl Abort, alloc: Global, rows: &[(&str, &str)]) -> Result<(), Fail> {
    let mut cache = Cache::empty(alloc)?;
    for (line, want) in rows {
        gives(rt, alloc, &mut cache, line, want)?;
    }
    Ok(())
}

/// Plays a line, and looks whether that gives this answer.
fn gives(
    rt: &impl Abort,
    alloc: Global,
    cache: &mut Cache,
    line: &str,
    want: &str,
) -> Result<(), Fail> {
    let told = tell(alloc, cache, line)?;
    assert_eq!(rt; told.as_str(), want, "at {line}");
    Ok(())
}

/// Makes an entry, where it is allowed, and tells whether it is.
pub fn enter(alloc: Global, cache: &mut Cache, entry: &CacheEntry) -> Result<bool, Memory> {
    if !cache.allows(entry) {
        return Ok(false);
    }
    cache.apply(alloc, entry)?;
    Ok(true)
}

/// A change that shows a message with this uid and these flags.
pub fn there(alloc: Global, uid: u32, flags: u32) -> Result<Change, Fail> {
    Ok(Change::Present(Descriptor {
        uid,
        flags: (flags & 65_535) as u16,
        bytes: 300,
        lines: 4,
        date: Line::copy_of(alloc, b"")?,
        from: Line::copy_of(alloc, b"ann")?,
        to: Line::copy_of(alloc, b"bob")?,
        subject: Line::copy_of(alloc, b"one")?,
    }))
}

/// What is told of a line.
fn tell(alloc: Global, cache: &mut Cache, line: &str) -> Result<String, Fail> {
    let words: Vec<&str> = line.split_whitespace().collect(alloc)?;
    tell_split(alloc, cache, words.as_slice())
}

/// What is told of the words of a line.
fn tell_split(alloc: Global, cache: &mut Cache, words: &[&str]) -> Result<String, Fail> {
    let Some((verb, words)) = words.split_first() else {
        return Err("a word")?;
    };
    match entry(alloc, verb, words)? {
        Some(entry) => tell_entered(alloc, cache, &entry),
        None => answer(alloc, cache, verb, words),
    }
}

/// Makes an entry, where it is allowed, and tells whether it is.
fn tell_entered(alloc: Global, cache: &mut Cache, entry: &CacheEntry) -> Result<String, Fail> {
    match enter(alloc, cache, entry)? {
        true => Ok(String::from_str(alloc, "ok")?),
        false => Ok(String::from_str(alloc, "no")?),
    }
}

/// The entry that a line spells, where it spells one.
fn entry(alloc: Global, verb: &str, words: &[&str]) -> Result<Option<CacheEntry>, Fail> {
    match verb {
        "Begin" => Ok(Some(CacheEntry::Begin {
            birth: number(words, 0)? as u64,
        })),
        "Synced" => Ok(Some(CacheEntry::Synced)),
        "Took" => Ok(Some(CacheEntry::Took {
            mailbox: name(words, 0)?,
            changes: changes(alloc, words)?,
        })),
        "Kept" => Ok(Some(CacheEntry::Kept {
            names: names(alloc, words)?,
        })),
        "Queue" => Ok(Some(CacheEntry::Queue {
            mailbox: name(words, 0)?,
            uid: number(words, 1)?,
            flag: (number(words, 2)? & 255) as u8,
            on: number(words, 3)? == 1,
        })),
        "Answered" => Ok(Some(CacheEntry::Answered {
            number: number(words, 0)? as u64,
        })),
        _ => Ok(None),
    }
}

/// The answer to a question.
fn answer(alloc: Global, cache: &Cache, verb: &str, words: &[&str]) -> Result<String, Fail> {
    match verb {
        "Birth" => Ok(format!(in alloc; "{}", cache.birth())?),
        "Resetting" => Ok(format!(in alloc; "{}", cache.is_resetting())?),
        "Mailboxes" => told_names(alloc, cache.mailboxes()),
        "Waiting" => told_queue(alloc, cache),
        "Has" => Ok(format!(in alloc; "{}", cache.has(&name(words, 0)?, number(words, 1)?))?),
        "View" => told_changes(alloc, &cache.view(alloc, &name(words, 0)?)?),
        _ => Err("a verb")?,
    }
}

/// The name at this place.
fn name(words: &[&str], place: usize) -> Result<Name, Fail> {
    let word = words.get(place).ok_or("a word more")?;
    Ok(Name::read(word.as_bytes()).ok_or("a name")?)
}

/// The number at this place.
fn number(words: &[&str], place: usize) -> Result<u32, Fail> {
    let word = words.get(place).ok_or("a word more")?;
    Ok(read_u32(word.as_bytes()).ok_or("a number")?)
}

/// The names that these words are.
fn names(alloc: Global, words: &[&str]) -> Result<Names, Fail> {
    let mut names = Names::new(alloc);
    for place in 0..words.len() {
        names.push(name(words, place)?)?;
    }
    Ok(names)
}

/// The changes behind the first word, in two words each: a uid, and flags or `gone`.
fn changes(alloc: Global, words: &[&str]) -> Result<Changes, Fail> {
    let mut changes = Changes::new(alloc);
    for pair in 0..words.len() / 2 {
        changes.push(change(alloc, words, 2 * pair + 1)?)?;
    }
    Ok(changes)
}

/// The change in two words from this place on.
fn change(alloc: Global, words: &[&str], place: usize) -> Result<Change, Fail> {
    let uid = number(words, place)?;
    let second = place.saturating_add(1);
    let word = words.get(second).ok_or("a word more")?;
    if *word == "gone" {
        return Ok(Change::Expunged(uid));
    }
    there(alloc, uid, number(words, second)?)
}

/// The names, with a space behind each.
fn told_names(alloc: Global, names: &Names) -> Result<String, Fail> {
    let mut told = String::new(alloc);
    for name in names.as_slice() {
        add_name(&mut told, name)?;
    }
    Ok(told)
}

fn add_name(told: &mut String, name: &Name) -> Result<(), Fail> {
    told.push_str(str::from_utf8(name.bytes())?)?;
    Ok(told.push(' ')?)
}

/// The number, uid and flag of each change in the queue.
fn told_queue(alloc: Global, cache: &Cache) -> Result<String, Fail> {
    let mut told = String::new(alloc);
    for item in cache.queue() {
        add_item(alloc, &mut told, item)?;
    }
    Ok(told)
}

fn add_item(alloc: Global, told: &mut String, item: &Item) -> Result<(), Fail> {
    let text = format!(in alloc; "{}:{}:{}:{} ", item.number, item.uid, item.flag, item.on)?;
    Ok(told.push_str(&text)?)
}

/// The uid and flags of each message that is shown.
fn told_changes(alloc: Global, changes: &Changes) -> Result<String, Fail> {
    let mut told = String::new(alloc);
    for change in changes.as_slice() {
        add_change(alloc, &mut told, change)?;
    }
    Ok(told)
}

fn add_change(alloc: Global, told: &mut String, change: &Change) -> Result<(), Fail> {
    let Change::Present(shown) = change else {
        return Err("a message that is there")?;
    };
    let text = format!(in alloc; "{}:{} ", shown.uid, shown.flags)?;
    Ok(told.push_str(&text)?)
}
