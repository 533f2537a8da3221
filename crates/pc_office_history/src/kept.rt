//! What the office keeps of a mail until all for whom it is have pulled it.

ghost use Rattle.std.specs.Prelude.{◌≡◌, not, [], ◌∷◌, ◌++◌, OnOk, OnErr};
ghost use Rattle.std.specs.Option.{option_copied};
ghost use Rattle.pc_office_history.specs.Record.{target_of};
ghost use Rattle.pc_office_history.specs.Effect.{other_targets};
ghost use Rattle.pc_office_history.specs.Step.{is_awaited, pulled_by};

use pc_base::{Memory, Name};
use pc_message::Message;
use std::alloc::Global;
use std::marker::Model;

/// For whom something is: a user, and which of its mailboxes.
#[derive(Clone, Copy)]
pub struct Target {
    pub user: Name,
    pub mailbox: Name,
}

/// A list of targets.
#[derive(Drop)]
pub struct Targets {
    targets: Vec<Target>,
}

impl Model for Targets {
    ghost use Rattle.std.specs.Prelude.{List};
    ghost use Rattle.pc_office_history.specs.declared.kept.Target.{Target};

    ghost Value = { List Target };

    ghost view = { λ l. l.targets.items };
}

impl Targets {
    /// An empty list.
    pub fn new(alloc: Global) -> Targets
        ensures { result ≡ [] }
    {
        Targets {
            targets: Vec::new(alloc),
        }
    }

    /// Puts one more at the end. After `Err` nothing has changed.
    pub fn push(&mut self, target: Target) -> Result<(), Memory>
        ensures ok { OnOk result (self.new ≡ self.old ++ target ∷ []) }
        ensures err { OnErr result (self.new ≡ self.old) }
    {
        self.targets.push(target)?;
        Ok(())
    }

    /// Takes away what is a user's.
    pub fn remove(&mut self, user: &Name)
        ensures { self.new ≡ other_targets user.now self.old }
    {
        self.targets.retain(|target| *user != target.user);
    }

    /// What is a user's, if anything is.
    pub fn of(&self, user: &Name) -> Option<&Target>
        ensures { option_copied result ≡ target_of user.now self.now }
    {
        self.targets.iter().find(|target| *user == target.user)
    }

    /// Whether there is none.
    pub fn is_empty(&self) -> bool
        ensures { result ≡ not (is_awaited self.now) }
    {
        self.targets.is_empty()
    }

    /// The items, in order.
    pub fn as_slice(&self) -> &[Target]
        ensures { result.now ≡ self.now }
    {
        self.targets.as_slice()
    }
}

/// A mail that was accepted, with the targets for which it still waits.
#[derive(Drop)]
pub struct KeptMail {
    pub number: u64,
    pub targets: Targets,
    pub message: Message,
}

impl KeptMail {
    /// Notes that a user has pulled its mails up to this number.
    pub fn note(&mut self, user: &Name, number: u64)
        ensures { self.new ≡ pulled_by user.now number self.old }
    {
        if self.number <= number {
            self.targets.remove(user);
        }
    }
}
