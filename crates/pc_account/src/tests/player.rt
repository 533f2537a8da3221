//! An account that is told in words what to do, so that a test is a table of lines and answers.

ghost use Rattle.pc_account_holdings.specs.State.{said};
ghost use Rattle.pc_account.specs.Plan.{IsWish};

use super::mails::{mails, rise};
use super::telling::{ask, text, text_of_fault};
use super::words::{message, name, number, wish};
use crate::{Account, Entry, Wish};
use pc_base::{Name, Room};
use pc_message::Letters;
use std::alloc::Global;
use std::process::Abort;
use std::test::Fail;

/// Plays each row's line over a new account, and looks whether that gives the row's answer.
pub fn plays(rt: &impl Abort, alloc: Global, rows: &[(&str, &str)]) -> Result<(), Fail> {
    let mut account = Account::empty(alloc)?;
    goes_on(rt, alloc, &mut account, rows)
}

/// Plays each row's line over this account, and looks whether that gives the row's answer.
pub fn goes_on(
    rt: &impl Abort,
    alloc: Global,
    account: &mut Account,
    rows: &[(&str, &str)],
) -> Result<(), Fail> {
    for (line, want) in rows {
        gives(rt, alloc, account, line, want)?;
    }
    Ok(())
}

/// Plays a line, and looks whether that gives this answer.
pub fn gives(
    rt: &impl Abort,
    alloc: Global,
    account: &mut Account,
    line: &str,
    want: &str,
) -> Result<(), Fail> {
    let told = tell(alloc, account, line)?;
    assert_eq!(rt; told.as_str(), want, "at {line}");
    Ok(())
}

/// Plays a line of this verb for so many names, each this one with a number behind it.
pub fn each(
    rt: &impl Abort,
    alloc: Global,
    account: &mut Account,
    verb: &str,
    name: &str,
    count: u32,
) -> Result<(), Fail> {
    for place in 0..count {
        let line = format!(in alloc; "{verb} {name}{place}")?;
        gives(rt, alloc, account, &line, verb)?;
    }
    Ok(())
}

/// What is told of a line.
fn tell(alloc: Global, account: &mut Account, line: &str) -> Result<String, Fail> {
    let words: Vec<&str> = line.split_whitespace().collect(alloc)?;
    match words.as_slice().split_first() {
        Some((verb, words)) => tell_words(alloc, account, verb, words),
        None => Err("a word")?,
    }
}

/// The answer to a question, or what an entry or a wish comes to.
fn tell_words(
    alloc: Global,
    account: &mut Account,
    verb: &str,
    words: &[&str],
) -> Result<String, Fail> {
    if let Some(told) = ask(alloc, account, verb, words)? {
        return Ok(told);
    }
    match verb {
        "Pull" => pull(alloc, account, words),
        "Take" => take(alloc, account, words),
        _ => carry_out_words(alloc, account, verb, words),
    }
}

fn carry_out_words(
    alloc: Global,
    account: &mut Account,
    verb: &str,
    words: &[&str],
) -> Result<String, Fail> {
    let wish = wish(alloc, verb, words)?;
    carry_out(alloc, account, &wish)
}

/// Takes mails in a room of so many entries and bytes: those that are told behind.
fn take(alloc: Global, account: &mut Account, words: &[&str]) -> Result<String, Fail> {
    let room = Room {
        entries: number(words, 0)?,
        bytes: number(words, 1)?,
    };
    let words = words.get(2..).ok_or("words")?;
    let mails = mails(alloc, account.pulled(), words)?;
    if mails.as_slice().len() > 64 {
        return Err("fewer mails")?;
    }
    if !rise(account.pulled(), mails.as_slice()) {
        return Err("numbers that rise")?;
    }
    carry_out(alloc, account, &Wish::Take { mails, room })
}

/// What a wish comes to, whose entry is made.
fn carry_out(alloc: Global, account: &mut Account, wish: &Wish) -> Result<String, Fail>
    requires { IsWish (said account.old) wish.now }
{
    match account.plan(alloc, wish) {
        Ok(Some(entry)) => enter(alloc, account, &entry),
        Ok(None) => text(alloc, b"none"),
        Err(fault) => text_of_fault(alloc, &fault),
    }
}

/// Makes an entry, where it may come next.
fn enter(alloc: Global, account: &mut Account, entry: &Entry) -> Result<String, Fail> {
    if !account.allows(entry) {
        return text(alloc, b"not allowed");
    }
    if account.next() > 1_000_000 {
        return Err("fewer entries")?;
    }
    account.apply(alloc, entry)?;
    text(alloc, entry.word())
}

/// Pulls up to a number: so many letters of this size to each of the mailboxes.
fn pull(alloc: Global, account: &mut Account, words: &[&str]) -> Result<String, Fail> {
    let upto = number(words, 0)? as u64;
    let letters = letters(alloc, words.get(1..).ok_or("words")?)?;
    enter(alloc, account, &Entry::Pull { upto, letters })
}

/// So many letters of a size to each of the mailboxes that are named behind.
fn letters(alloc: Global, words: &[&str]) -> Result<Letters, Fail> {
    let mut letters = Letters::new(alloc);
    for place in 2..words.len() {
        add_letters(alloc, &mut letters, words, name(words, place)?)?;
    }
    Ok(letters)
}

fn add_letters(
    alloc: Global,
    letters: &mut Letters,
    words: &[&str],
    mailbox: Name,
) -> Result<(), Fail> {
    for _ in 0..number(words, 0)? {
        letters.push((mailbox, message(alloc, number(words, 1)?)?))?;
    }
    Ok(())
}
