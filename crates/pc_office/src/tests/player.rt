//! An office that is told in words what to do, so that a test is a table of lines and answers.

use super::words::{entry, name, number, wish};
use crate::{Office, OfficeWish};
use pc_base::{AskFault, Name, Names};
use pc_message::{Mail, Mails};
use pc_office_history::OfficeEntry;
use std::alloc::Global;
use std::process::Abort;
use std::test::Fail;

/// Plays each row's line over a new office, and looks whether that gives the row's answer.
pub fn plays(rt: &impl Abort, alloc: Global, rows: &[(&str, &str)]) -> Result<(), Fail> {
    let mut office = Office::empty(alloc)?;
    goes_on(rt, alloc, &mut office, rows)
}

/// Plays each row's line over this office, and looks whether that gives the row's answer.
pub fn goes_on(
    rt: &impl Abort,
    alloc: Global,
    office: &mut Office,
    rows: &[(&str, &str)],
) -> Result<(), Fail> {
    for (line, want) in rows {
        gives(rt, alloc, office, line, want)?;
    }
    Ok(())
}

/// Plays a line, and looks whether that gives this answer.
pub fn gives(
    rt: &impl Abort,
    alloc: Global,
    office: &mut Office,
    line: &str,
    want: &str,
) -> Result<(), Fail> {
    let told = tell(alloc, office, line)?;
    assert_eq!(rt; told.as_str(), want, "at {line}");
    Ok(())
}

/// Plays a line so often, and looks whether that gives `ok` each time.
pub fn repeats(
    rt: &impl Abort,
    alloc: Global,
    office: &mut Office,
    line: &str,
    count: u32,
) -> Result<(), Fail> {
    for _ in 0..count {
        gives(rt, alloc, office, line, "ok")?;
    }
    Ok(())
}

/// What is told of a line.
fn tell(alloc: Global, office: &mut Office, line: &str) -> Result<String, Fail> {
    let words: Vec<&str> = line.split_whitespace().collect(alloc)?;
    tell_split(alloc, office, words.as_slice())
}

/// What is told of the words of a line.
fn tell_split(alloc: Global, office: &mut Office, words: &[&str]) -> Result<String, Fail> {
    let Some((verb, words)) = words.split_first() else {
        return Err("a word")?;
    };
    match wish(alloc, verb, words)? {
        Some(wish) => carry_out(alloc, office, &wish),
        None => tell_words(alloc, office, verb, words),
    }
}

/// What a wish comes to, whose entry is made.
fn carry_out(alloc: Global, office: &mut Office, wish: &OfficeWish) -> Result<String, Fail> {
    match office.plan(alloc, wish) {
        Ok(entry) => enter(alloc, office, &entry),
        Err(fault) => text_of_fault(alloc, &fault),
    }
}

/// Makes an entry, where it may come next.
fn enter(alloc: Global, office: &mut Office, entry: &OfficeEntry) -> Result<String, Fail> {
    if !office.allows(entry) {
        return text(alloc, b"not allowed");
    }
    office.apply(alloc, entry)?;
    text(alloc, b"ok")
}

/// What an entry comes to that isn't wished for, or the answer to a question.
fn tell_words(
    alloc: Global,
    office: &mut Office,
    verb: &str,
    words: &[&str],
) -> Result<String, Fail> {
    match entry(alloc, verb, words)? {
        Some(entry) => enter(alloc, office, &entry),
        None => answer(alloc, office, verb, words),
    }
}

/// The answer to a question.
fn answer(alloc: Global, office: &Office, verb: &str, words: &[&str]) -> Result<String, Fail> {
    match verb {
        "Users" => names(alloc, office.users()),
        "Boards" => names(alloc, office.boards()),
        "Accepted" => text_of_number(alloc, office.accepted()),
        "Addresses" => addresses(alloc, office, &name(words, 0)?, &name(words, 1)?),
        _ => answer_of_name(alloc, office, verb, &name(words, 0)?, words),
    }
}

/// The answer to a question about a user or a board.
fn answer_of_name(
    alloc: Global,
    office: &Office,
    verb: &str,
    name: &Name,
    words: &[&str],
) -> Result<String, Fail> {
    match verb {
        "Noted" => text_of_number(alloc, office.noted(name)),
        "Board" => board(alloc, office, name),
        "Waiting" => waiting(alloc, office, name, number(words, 1)? as u64),
        "Told" => told(alloc, office, name, number(words, 1)? as u64),
        _ => Err("a verb")?,
    }
}

fn text_of_number(alloc: Global, number: u64) -> Result<String, Fail> {
    Ok(format!(in alloc; "{number}")?)
}

/// The mails that wait for a user.
fn waiting(alloc: Global, office: &Office, user: &Name, after: u64) -> Result<String, Fail> {
    mails(alloc, &office.waiting(alloc, user, after)?)
}

/// How many mails a user is told of.
fn told(alloc: Global, office: &Office, user: &Name, after: u64) -> Result<String, Fail> {
    let told = office.waiting(alloc, user, after)?;
    text_of_number(alloc, told.as_slice().len() as u64)
}

fn addresses(alloc: Global, office: &Office, user: &Name, mailbox: &Name) -> Result<String, Fail> {
    names(alloc, &office.addresses(alloc, user, mailbox)?)
}

/// How many messages stand on a board.
fn board(alloc: Global, office: &Office, board: &Name) -> Result<String, Fail> {
    match office.board(board) {
        Some(messages) => text_of_number(alloc, messages.len() as u64),
        None => text(alloc, b"none"),
    }
}

/// The names, with spaces between them.
fn names(alloc: Global, names: &Names) -> Result<String, Fail> {
    let mut told = String::new(alloc);
    for name in names.as_slice() {
        add_name(&mut told, name)?;
    }
    Ok(told)
}

fn add_name(told: &mut String, name: &Name) -> Result<(), Fail> {
    told.push_str(str::from_utf8(name.bytes())?)?;
    Ok(told.push(' ')?)
}

/// The number of each mail and its mailbox, with spaces between them.
fn mails(alloc: Global, mails: &Mails) -> Result<String, Fail> {
    let mut told = String::new(alloc);
    for mail in mails.as_slice() {
        add_mail(alloc, &mut told, mail)?;
    }
    Ok(told)
}

fn add_mail(alloc: Global, told: &mut String, mail: &Mail) -> Result<(), Fail> {
    let item = format!(in alloc;
        "{} {} ",
        mail.number,
        str::from_utf8(mail.mailbox.bytes())?
    )?;
    Ok(told.push_str(&item)?)
}

fn text_of_fault(alloc: Global, fault: &AskFault) -> Result<String, Fail> {
    match fault {
        AskFault::Refused(refusal) => text(alloc, refusal.head().bytes()),
        AskFault::Memory => text(alloc, b"want of memory"),
    }
}

fn text(alloc: Global, bytes: &[u8]) -> Result<String, Fail> {
    Ok(String::from_str(alloc, str::from_utf8(bytes)?)?)
}
