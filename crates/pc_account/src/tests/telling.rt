//! What is told of an account, as text.

use super::words::{digest, name, number};
use crate::{Account, Answer, ClientRow, MailboxRow, Question, SubscriptionRow};
use pc_account_history::Listed;
use pc_base::{AskFault, Name};
use pc_message::{Change, Descriptor};
use std::alloc::Global;
use std::test::Fail;

/// These bytes as text.
pub fn text(alloc: Global, bytes: &[u8]) -> Result<String, Fail> {
    Ok(String::from_str(alloc, str::from_utf8(bytes)?)?)
}

/// The answer to a question, where these words are one.
pub fn ask(
    alloc: Global,
    account: &Account,
    verb: &str,
    words: &[&str],
) -> Result<Option<String>, Fail> {
    match number_of(account, verb, words)? {
        Some(number) => Ok(Some(format!(in alloc; "{number}")?)),
        None => ask_for_list(alloc, account, verb, words),
    }
}

/// The answer to a question for more than a number.
fn ask_for_list(
    alloc: Global,
    account: &Account,
    verb: &str,
    words: &[&str],
) -> Result<Option<String>, Fail> {
    match verb {
        "Listed" => Ok(Some(listed(alloc, account, words)?)),
        _ => match question(verb, words)? {
            Some(question) => Ok(Some(answer(alloc, account, &question)?)),
            None => Ok(None),
        },
    }
}

/// A number that an account tells: 0 is no birth, and 1 the right password.
fn number_of(account: &Account, verb: &str, words: &[&str]) -> Result<Option<u64>, Fail> {
    match verb {
        "Next" => Ok(Some(account.next())),
        "Pulled" => Ok(Some(account.pulled())),
        "Birth" => birth(account, words),
        "PasswordIs" => password_is(account, words),
        _ => Ok(None),
    }
}

fn birth(account: &Account, words: &[&str]) -> Result<Option<u64>, Fail> {
    let client = name(words, 0)?;
    Ok(Some(account.birth(&client).unwrap_or(0)))
}

fn password_is(account: &Account, words: &[&str]) -> Result<Option<u64>, Fail> {
    let digest = digest(words)?;
    if account.password_is(&digest) {
        return Ok(Some(1));
    }
    Ok(Some(0))
}

/// The question that these words are.
fn question(verb: &str, words: &[&str]) -> Result<Option<Question>, Fail> {
    match verb {
        "Clients" => Ok(Some(Question::Clients)),
        "Mailboxes" => Ok(Some(Question::Mailboxes)),
        "Subscriptions" => Ok(Some(Question::Subscriptions)),
        "Alive" => Ok(Some(alive(words)?)),
        "Descriptors" => Ok(Some(descriptors(words)?)),
        "Changed" => Ok(Some(changed(words)?)),
        "Letter" => Ok(Some(letter(words)?)),
        _ => Ok(None),
    }
}

fn alive(words: &[&str]) -> Result<Question, Fail> {
    Ok(Question::Alive {
        mailbox: name(words, 0)?,
    })
}

fn descriptors(words: &[&str]) -> Result<Question, Fail> {
    Ok(Question::Descriptors {
        mailbox: name(words, 0)?,
        low: number(words, 1)?,
        high: number(words, 2)?,
    })
}

fn changed(words: &[&str]) -> Result<Question, Fail> {
    Ok(Question::Changed {
        client: name(words, 0)?,
        mailbox: name(words, 1)?,
        count: number(words, 2)?,
    })
}

fn letter(words: &[&str]) -> Result<Question, Fail> {
    Ok(Question::Letter {
        mailbox: name(words, 0)?,
        uid: number(words, 1)?,
    })
}

/// What an account answers, or the head of its refusal.
fn answer(alloc: Global, account: &Account, question: &Question) -> Result<String, Fail> {
    match account.answer(alloc, question) {
        Ok(answer) => text_of(alloc, &answer),
        Err(fault) => text_of_fault(alloc, &fault),
    }
}

/// The head of a refusal.
pub fn text_of_fault(alloc: Global, fault: &AskFault) -> Result<String, Fail> {
    match fault {
        AskFault::Refused(refusal) => text(alloc, refusal.head().bytes()),
        AskFault::Memory => Err("memory")?,
    }
}

fn text_of(alloc: Global, answer: &Answer) -> Result<String, Fail> {
    match answer {
        Answer::Clients(rows) => clients(alloc, rows.as_slice()),
        Answer::Mailboxes(rows) => mailboxes(alloc, rows.as_slice()),
        Answer::Subscriptions(rows) => subscriptions(alloc, rows.as_slice()),
        Answer::Yes => text(alloc, b"yes"),
        Answer::Descriptors(list) => changes(alloc, list.as_slice()),
        Answer::Changed(list, _) => changes(alloc, list.as_slice()),
        Answer::Letter(message) => Ok(format!(in alloc; "{} bytes", message.size())?),
    }
}

/// Appends a number behind these letters.
fn add(alloc: Global, told: &mut String, before: &str, number: u64) -> Result<(), Fail> {
    let number = format!(in alloc; "{before}{number}")?;
    told.push_str(&number)?;
    Ok(())
}

/// Appends a name with a number.
fn add_name(alloc: Global, told: &mut String, name: &Name, number: u64) -> Result<(), Fail> {
    told.push_str(str::from_utf8(name.bytes())?)?;
    add(alloc, told, " ", number)
}

/// Ends a row.
fn end(told: &mut String) -> Result<(), Fail> {
    told.push_str(";")?;
    Ok(())
}

fn clients(alloc: Global, rows: &[ClientRow]) -> Result<String, Fail> {
    let mut told = String::new(alloc);
    for row in rows {
        add_name(alloc, &mut told, &row.name, row.birth)?;
        end(&mut told)?;
    }
    Ok(told)
}

fn mailboxes(alloc: Global, rows: &[MailboxRow]) -> Result<String, Fail> {
    let mut told = String::new(alloc);
    for row in rows {
        add_name(alloc, &mut told, &row.name, row.live as u64)?;
        add(alloc, &mut told, " ", row.highest as u64)?;
        end(&mut told)?;
    }
    Ok(told)
}

fn subscriptions(alloc: Global, rows: &[SubscriptionRow]) -> Result<String, Fail> {
    let mut told = String::new(alloc);
    for row in rows {
        add_name(alloc, &mut told, &row.board, row.mark as u64)?;
        end(&mut told)?;
    }
    Ok(told)
}

/// Each change: the uid with its flags, bytes and lines, or that it is gone.
fn changes(alloc: Global, list: &[Change]) -> Result<String, Fail> {
    let mut told = String::new(alloc);
    for change in list {
        add_change(alloc, &mut told, change)?;
    }
    Ok(told)
}

fn add_change(alloc: Global, told: &mut String, change: &Change) -> Result<(), Fail> {
    match change {
        Change::Present(descriptor) => add_descriptor(alloc, told, descriptor)?,
        Change::Expunged(uid) => {
            add(alloc, told, "", *uid as u64)?;
            told.push_str(" EXPUNGED")?;
        }
    }
    end(told)
}

fn add_descriptor(alloc: Global, told: &mut String, descriptor: &Descriptor) -> Result<(), Fail> {
    add(alloc, told, "", descriptor.uid as u64)?;
    add(alloc, told, " ", descriptor.flags as u64)?;
    add(alloc, told, " ", descriptor.bytes as u64)?;
    add(alloc, told, " ", descriptor.lines as u64)
}

/// The list of a client in a mailbox that lives: each uid with its stamp.
fn listed(alloc: Global, account: &Account, words: &[&str]) -> Result<String, Fail> {
    let question = Question::Changed {
        client: name(words, 0)?,
        mailbox: name(words, 1)?,
        count: 256,
    };
    match account.answer(alloc, &question) {
        Ok(answer) => stamps_of(alloc, &answer),
        Err(_) => Err("a list")?,
    }
}

fn stamps_of(alloc: Global, answer: &Answer) -> Result<String, Fail> {
    match answer {
        Answer::Changed(_, shown) => stamps(alloc, shown.as_slice()),
        _ => Err("a list")?,
    }
}

fn stamps(alloc: Global, list: &[Listed]) -> Result<String, Fail> {
    let mut told = String::new(alloc);
    for listed in list {
        add(alloc, &mut told, "", listed.uid as u64)?;
        add(alloc, &mut told, " ", listed.stamp)?;
        end(&mut told)?;
    }
    Ok(told)
}
