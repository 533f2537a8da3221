//! What the office answers.

ghost use Rattle.std.specs.Prelude.{◌≡◌, ℕ, ◌<◌, ◌==◌, List, ◌++◌, [], ◌∷◌, length, take, IfOk, OnOk, option_copied};
ghost use Rattle.std.specs.List.{filter};
ghost use Rattle.pc_office_history.specs.Record.{mails_for};
ghost use Rattle.pc_office_history.specs.Known.{said_by, is_past};
ghost use Rattle.pc_office_history.specs.History.{History, known};
ghost use Rattle.pc_office_history.specs.Answers.{addresses_of, waiting_past, board_of};
ghost use Rattle.pc_tables.specs.Order.{Ordered};
ghost use Rattle.pc_office_history.specs.declared.kept.KeptMail.{KeptMail as Kept};
ghost use Rattle.pc_office_holdings.specs.State.{StandsFor, IsSound};

use crate::office::Office;
use pc_base::{Memory, Name, Names};
use pc_message::{MOST_LETTERS, Mail, Mails, Message};
use pc_office_history::KeptMail;
use pc_office_holdings::Holdings;
use std::alloc::Global;

impl Office {
    /// The users, in order of making.
    pub fn users(&self) -> &Names
        ensures held { result.now ≡ (said_by self.now).users }
        ensures history { (h : History) → StandsFor self.now h → result.now ≡ (known h).users }
    {
        self.holdings.users().names()
    }

    /// The boards, in order of making.
    pub fn boards(&self) -> &Names
        ensures held { result.now ≡ (said_by self.now).boards }
        ensures history { (h : History) → StandsFor self.now h → result.now ≡ (known h).boards }
    {
        self.holdings.boards().names()
    }

    /// How many mails were accepted.
    pub fn accepted(&self) -> u64
        ensures held { result ≡ (said_by self.now).accepted }
        ensures history { (h : History) → StandsFor self.now h → result ≡ (known h).accepted }
    {
        self.holdings.accepted()
    }

    /// The number up to which a user is noted to have pulled; 0 where none is noted, or where there
    /// is no such user.
    pub fn noted(&self, user: &Name) -> u64
        ensures held { result ≡ (said_by self.now).noted user.now }
        ensures history { (h : History) → StandsFor self.now h → result ≡ (known h).noted user.now }
    {
        match self.holdings.users().get(user) {
            Some(standing) => standing.noted,
            None => 0,
        }
    }

    /// The messages of a board, the one with uid 1 first, where there is such a board.
    pub fn board(&self, board: &Name) -> Option<&[Message]>
        ensures held { option_copied result ≡ board_of (said_by self.now) board.now }
        ensures history { (h : History) → StandsFor self.now h → option_copied result ≡ board_of (known h) board.now }
    {
        let messages = self.holdings.boards().get(board)?;
        Some(messages.as_slice())
    }

    /// The addresses that are for a mailbox of a user, in order of their last taking.
    pub fn addresses(&self, alloc: Global, user: &Name, mailbox: &Name) -> Result<Names, Memory>
        ensures held { IfOk result (λ names. names ≡ addresses_of (said_by self.now) user.now mailbox.now) }
        ensures history { (h : History) → StandsFor self.now h → IfOk result (λ names. names ≡ addresses_of (known h) user.now mailbox.now) }
    {
        let mut names = Names::new(alloc);
        for (address, target) in self.holdings.addresses().iter() {
            if *user == target.user && *mailbox == target.mailbox {
                names.push(*address)?;
            }
        }
        Ok(names)
    }

    /// The first 64 mails that wait for a user with numbers past `after`, rising. Each is also past
    /// what is noted of the user.
    pub fn waiting(&self, alloc: Global, user: &Name, after: u64) -> Result<Mails, Memory>
        ensures held { IfOk result (λ mails. mails ≡ waiting_past (said_by self.now) user.now after) }
        ensures history { (h : History) → StandsFor self.now h → IfOk result (λ mails. mails ≡ waiting_past (known h) user.now after) }
    {
        if nothing_waits(&self.holdings, user) {
            return Ok(Mails::new(alloc));
        }
        first_for(alloc, past(self.holdings.kept(), after), user)
    }
}

/// Whether nothing waits for the user, by what is counted.
fn nothing_waits(holdings: &Holdings, user: &Name) -> bool
    requires { IsSound holdings.now }
    ensures { result ≡ (length (mails_for user.now holdings.now.kept) == 0) }
{
    match holdings.users().get(user) {
        Some(standing) => standing.mails == 0,
        None => true,
    }
}

/// Those of the mails that have numbers past this one. They stand behind the others, since numbers
/// rise.
fn past(kept: &[KeptMail], after: u64) -> &[KeptMail]
    requires { Ordered (λ (mail later : Kept). mail.number < later.number) kept.now }
    ensures { (user : List ℕ) → mails_for user result.now ≡ filter (is_past after) (mails_for user kept.now) }
{
    let count = kept.partition_point(|mail| mail.number <= after);
    &kept[count..]
}

/// The first 64 of the mails that are for the user.
fn first_for(alloc: Global, kept: &[KeptMail], user: &Name) -> Result<Mails, Memory>
    ensures { IfOk result (λ mails. mails ≡ take MOST_LETTERS (mails_for user.now kept.now)) }
{
    let mut mails = Mails::new(alloc);
    for mail in kept {
        if mails.as_slice().len() == MOST_LETTERS {
            return Ok(mails);
        }
        tell(alloc, &mut mails, mail, user)?;
    }
    Ok(mails)
}

/// Adds a copy of the mail, where it is for the user.
fn tell(alloc: Global, mails: &mut Mails, kept: &KeptMail, user: &Name) -> Result<(), Memory>
    ensures { OnOk result (mails.new ≡ mails.old ++ mails_for user.now (kept.now ∷ [])) }
{
    let Some(target) = kept.targets.of(user) else {
        return Ok(());
    };
    mails.push(Mail {
        number: kept.number,
        mailbox: target.mailbox,
        message: kept.message.copy(alloc)?,
    })
}
