//! The words of a line, and the wishes that they spell.

ghost use Rattle.std.specs.Prelude.{◌≤◌, IfOk};
ghost use Rattle.pc_account_history.specs.Known.{Known};
ghost use Rattle.pc_account.specs.Plan.{IsWish};

use crate::Wish;
use pc_account_history::Listed;
use pc_base::{Line, Lines, Name, read_u32};
use pc_mailbox::Shown;
use pc_message::Message;
use std::alloc::Global;
use std::test::Fail;

/// The word at this place.
fn word<'a>(words: &[&'a str], place: usize) -> Result<&'a str, Fail> {
    Ok(words.get(place).copied().ok_or("a word more")?)
}

/// The name at this place.
pub fn name(words: &[&str], place: usize) -> Result<Name, Fail> {
    let word = word(words, place)?;
    Ok(Name::read(word.as_bytes()).ok_or("a name")?)
}

/// The number at this place.
pub fn number(words: &[&str], place: usize) -> Result<u32, Fail> {
    let word = word(words, place)?;
    Ok(read_u32(word.as_bytes()).ok_or("a number")?)
}

/// The number of a flag at this place.
fn flag(words: &[&str], place: usize) -> Result<u8, Fail>
    ensures { IfOk result (λ flag. flag ≤ 15) }
{
    let number = number(words, place)?;
    if number > 15 {
        return Err("a flag")?;
    }
    Ok(number as u8)
}

/// A digest that is told by its first byte.
pub fn digest(words: &[&str]) -> Result<[u8; 32], Fail> {
    let byte = u8::try_from(number(words, 0)?)?;
    Ok([byte; 32])
}

/// The uids and stamps from the fifth word on.
fn shown(alloc: Global, words: &[&str]) -> Result<Shown, Fail> {
    let mut shown = Shown::new(alloc);
    for index in (4..words.len()).step_by(2) {
        shown.push(Listed {
            uid: number(words, index)?,
            stamp: number(words, index + 1)? as u64,
        })?;
    }
    Ok(shown)
}

/// A message of this size, which isn't one past a thousand: lines of 998 bytes, and one that is
/// shorter.
pub fn message(alloc: Global, size: u32) -> Result<Message, Fail> {
    let mut lines = Lines::new(alloc);
    let text = [b'x'; 998];
    let last = size % 1_000;
    for _ in 0..size / 1_000 {
        lines.push(Line::copy_of(alloc, &text)?)?;
    }
    if last >= 2 {
        let line = text.get(..last as usize - 2).ok_or("a line")?;
        lines.push(Line::copy_of(alloc, line)?)?;
    }
    Ok(Message::of(lines).ok().ok_or("a message")?)
}

/// The wish that a line spells, but for that to take mails.
pub fn wish(alloc: Global, verb: &str, words: &[&str]) -> Result<Wish, Fail>
    ensures { IfOk result (λ wish. (k : Known) → IsWish k wish) }
{
    match verb {
        "Flag" => wish_for_flag(words),
        "Copy" => wish_for_copy(words),
        "ResetMailbox" => wish_for_reset(words),
        "Forget" => wish_to_forget(alloc, words),
        "Password" => {
            let digest = digest(words)?;
            Ok(Wish::Password { digest })
        }
        "Mark" => wish_for_mark(words),
        _ => wish_for_name(verb, name(words, 0)?),
    }
}

fn wish_for_flag(words: &[&str]) -> Result<Wish, Fail>
    ensures { IfOk result (λ wish. (k : Known) → IsWish k wish) }
{
    Ok(Wish::Flag {
        mailbox: name(words, 0)?,
        uid: number(words, 1)?,
        flag: flag(words, 2)?,
        on: word(words, 3)? == "on",
    })
}

fn wish_for_copy(words: &[&str]) -> Result<Wish, Fail>
    ensures { IfOk result (λ wish. (k : Known) → IsWish k wish) }
{
    Ok(Wish::Copy {
        mailbox: name(words, 0)?,
        uid: number(words, 1)?,
        target: name(words, 2)?,
    })
}

fn wish_for_reset(words: &[&str]) -> Result<Wish, Fail>
    ensures { IfOk result (λ wish. (k : Known) → IsWish k wish) }
{
    Ok(Wish::ResetMailbox {
        client: name(words, 0)?,
        mailbox: name(words, 1)?,
    })
}

fn wish_to_forget(alloc: Global, words: &[&str]) -> Result<Wish, Fail>
    ensures { IfOk result (λ wish. (k : Known) → IsWish k wish) }
{
    Ok(Wish::Forget {
        client: name(words, 0)?,
        mailbox: name(words, 1)?,
        low: number(words, 2)?,
        high: number(words, 3)?,
        shown: shown(alloc, words)?,
    })
}

fn wish_for_mark(words: &[&str]) -> Result<Wish, Fail>
    ensures { IfOk result (λ wish. (k : Known) → IsWish k wish) }
{
    Ok(Wish::Mark {
        board: name(words, 0)?,
        uid: number(words, 1)?,
    })
}

fn wish_for_name(verb: &str, name: Name) -> Result<Wish, Fail>
    ensures { IfOk result (λ wish. (k : Known) → IsWish k wish) }
{
    match verb {
        "MakeMailbox" => Ok(Wish::MakeMailbox { mailbox: name }),
        "DropMailbox" => Ok(Wish::DropMailbox { mailbox: name }),
        "Expunge" => Ok(Wish::Expunge { mailbox: name }),
        "MakeClient" => Ok(Wish::MakeClient { client: name }),
        "DropClient" => Ok(Wish::DropClient { client: name }),
        "ResetClient" => Ok(Wish::ResetClient { client: name }),
        "Subscribe" => Ok(Wish::Subscribe { board: name }),
        "Unsubscribe" => Ok(Wish::Unsubscribe { board: name }),
        _ => Err("a wish")?,
    }
}
