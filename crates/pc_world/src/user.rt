//! A user of a world.

ghost use Rattle.std.specs.Prelude.{◌≡◌, ◌++◌, [], ◌∷◌, IsTrue, IfOk, OnOk};
ghost use Rattle.pc_base.specs.AskFault.{Tells};
ghost use Rattle.pc_account_history.specs.Allowed.{is_mailbox};
ghost use Rattle.pc_account_history.specs.History.{known};
ghost use Rattle.pc_account_history.specs.Known.{Known};
ghost use Rattle.pc_tables.specs.Table.{same};
ghost use Rattle.pc_account.specs.Answers.{answered};
ghost use Rattle.pc_account.specs.Plan.{IsWish, planned};
ghost use Rattle.pc_account_holdings.specs.State.{StandsFor, may_follow, said, step};
ghost use Rattle.pc_world.specs.Account.{history_of};
ghost use Rattle.pc_world.specs.Changes.{Changes};
ghost use Rattle.pc_world.specs.Heading.{heading_of};
ghost use Rattle.pc_world.specs.Steps.{enrolled};

use pc_account::{Account, Answer, Entry, Question, Wish, digest};
use pc_base::{AskFault, Memory, Name, Password};
use std::alloc::Global;
use std::marker::Model;

/// A user with the account, and beside it the entries that the account was given. Contracts see
/// the name and the entries.
#[derive(Drop)]
pub(crate) struct User {
    name: Name,
    // kept, so that a reply puts it down at once
    heading: Vec<u8>,
    account: Account,
    entries: Vec<Entry>,
}

impl Model for User {
    ghost use Rattle.std.specs.Prelude.{◌≡◌};
    ghost use Rattle.pc_account_holdings.specs.State.{StandsFor};
    ghost use Rattle.pc_world.specs.Account.{Account as Kept, history_of};
    ghost use Rattle.pc_world.specs.Heading.{heading_of};

    ghost Value = { Kept };

    ghost view = { λ user. record { user = user.name; entries = user.entries.items } };

    ghost invariant = { λ user. StandsFor user.account (history_of user.entries.items) × (user.heading.items ≡ heading_of user.name) };
}

impl User {
    /// A new user, with a password and an inbox.
    pub(crate) fn enrol(alloc: Global, name: &Name, password: &Password) -> Result<User, Memory>
        ensures { IfOk result (λ user. user ≡ record { user = name.now; entries = enrolled name.now password.now }) }
    {
        let mut account = Account::empty(alloc)?;
        let mut entries = Vec::new(alloc);
        let digest = digest(name, password);
        let password = Entry::Password { digest };
        keep(alloc, &mut account, &mut entries, password)?;
        let mailbox = Name::inbox();
        let inbox = Entry::MakeMailbox { mailbox };
        keep(alloc, &mut account, &mut entries, inbox)?;
        let heading = heading(alloc, name)?;
        Ok(User {
            name: *name,
            heading,
            account,
            entries,
        })
    }

    /// The user's name.
    pub(crate) fn name(&self) -> &Name
        ensures { result.now ≡ self.now.user }
    {
        &self.name
    }

    /// Whether the user has this name.
    #[inline]
    pub(crate) fn is_named(&self, name: &[u8]) -> bool
        ensures { result ≡ same self.now.user name.now }
    {
        self.name.bytes() == name
    }

    /// What is in front of each reply to the user.
    pub(crate) fn heading(&self) -> &[u8]
        ensures { result.now ≡ heading_of self.now.user }
    {
        self.heading.as_slice()
    }

    /// Whether the user has a mailbox of this name.
    pub(crate) fn has_mailbox(&self, mailbox: &Name) -> bool
        ensures { result ≡ is_mailbox (known (history_of self.now.entries)) mailbox.now }
    {
        self.account.has_mailbox(mailbox)
    }

    /// What the account answers to a question.
    pub(crate) fn answer(&self, alloc: Global, question: &Question) -> Result<Answer, AskFault>
        ensures { Tells (answered (known (history_of self.now.entries)) question.now) result }
    {
        self.account.answer(alloc, question)
    }

    /// Makes the change that is wished for, where there is one to make. After want of memory the
    /// user isn't used again.
    pub(crate) fn change(&mut self, alloc: Global, wish: &Wish) -> Result<(), AskFault>
        requires { (k : Known) → IsWish k wish.now }
        ensures user { self.new.user ≡ self.old.user }
        ensures entries { Changes self.old.entries self.new.entries (planned (known (history_of self.old.entries)) wish.now) result }
    {
        let plan = self.account.plan(alloc, wish)?;
        if let Some(entry) = plan {
            keep(alloc, &mut self.account, &mut self.entries, entry)?;
        }
        Ok(())
    }
}

/// What is in front of each reply to a user of this name.
fn heading(alloc: Global, name: &Name) -> Result<Vec<u8>, Memory>
    ensures { IfOk result (λ heading. heading.items ≡ heading_of name.now) }
{
    let mut heading = Vec::new(alloc);
    heading.extend_from_slice(b"ask ")?;
    heading.extend_from_slice(name.bytes())?;
    heading.extend_from_slice(b": ")?;
    Ok(heading)
}

/// Makes the step of an entry, and puts the entry behind the others. After `Err` neither is used
/// again.
fn keep(
    alloc: Global,
    account: &mut Account,
    entries: &mut Vec<Entry>,
    entry: Entry,
) -> Result<(), Memory>
    requires stands { StandsFor account.old (history_of entries.old.items) }
    requires follows { IsTrue (may_follow (said account.old) entry) }
    ensures stands { StandsFor account.new (history_of entries.new.items) }
    ensures account { OnOk result (account.new ≡ step account.old entry) }
    ensures entries { OnOk result (entries.new.items ≡ entries.old.items ++ entry ∷ []) }
{
    entries.reserve(1)?;
    let Ok(()) = account.apply(alloc, &entry) else {
        entries.clear();
        return Err(Memory);
    };
    entries.push(entry).unwrap();
    Ok(())
}
