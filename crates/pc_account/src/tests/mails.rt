//! Mails that wait, as words tell them.

ghost use Rattle.std.specs.Prelude.{IsTrue};
ghost use Rattle.pc_account.specs.Plan.{NumbersRise};

use super::words::{message, name, number};
use pc_message::{LAST_MAIL, Mail, Mails};
use std::alloc::Global;
use std::test::Fail;

/// The mails that are told three words at a time: so many, of a size, for a mailbox. Their numbers
/// go up by three, from past the last mail that was taken.
pub fn mails(alloc: Global, pulled: u64, words: &[&str]) -> Result<Mails, Fail> {
    let mut mails = Mails::new(alloc);
    let mut last = pulled;
    for place in (0..words.len()).step_by(3) {
        last = add_mails(alloc, &mut mails, last, words.get(place..).ok_or("words")?)?;
    }
    Ok(mails)
}

/// Adds the mails of the first three words, and answers the number of the last one.
fn add_mails(alloc: Global, mails: &mut Mails, pulled: u64, words: &[&str]) -> Result<u64, Fail> {
    let mut number_of_last = pulled;
    for _ in 0..number(words, 0)? {
        number_of_last = number_of_last.saturating_add(3);
        mails.push(Mail {
            number: number_of_last,
            mailbox: name(words, 2)?,
            message: message(alloc, number(words, 1)?)?,
        })?;
    }
    Ok(number_of_last)
}

/// Whether the numbers of these mails rise from past this one on.
pub fn rise(low: u64, mails: &[Mail]) -> bool
    ensures { IsTrue result → NumbersRise low mails.now }
{
    match mails.split_first() {
        None => true,
        Some((mail, mails)) => {
            low < mail.number && mail.number <= LAST_MAIL && rise(mail.number, mails)
        }
    }
}
