//! What the office holds, and what each entry makes of it.

ghost use Rattle.std.specs.Prelude.{◌≡◌, ◌<◌, ◌^◌, ◌-◌, [], ◌∷◌, ◌++◌, map, None, IsTrue, IfOk, OnOk};
ghost use Rattle.std.specs.Map.{lookup};
ghost use Rattle.pc_base.specs.Name.{inbox};
ghost use Rattle.pc_tables.specs.Table.{same};
ghost use Rattle.pc_message.specs.Message.{weight_of};
ghost use Rattle.pc_office_history.specs.declared.entry.OfficeEntry.TheVariants as entry;
ghost use Rattle.pc_office_history.specs.Effect.{targets_of};
ghost use Rattle.pc_office_history.specs.Known.{said_by};
ghost use Rattle.pc_office_history.specs.Record.{mails_for};
ghost use Rattle.pc_office_history.specs.Step.{still_waiting};
ghost use Rattle.pc_office_holdings.specs.Held.{nothing_held, record_in};
ghost use Rattle.pc_office_holdings.specs.Step.{awaited, standing_of, with_target, entered};
ghost use Rattle.pc_office_holdings.specs.State.{may_follow, IsSound};

use crate::boards::Boards;
use crate::users::{Standing, Users};
use indexmap::IndexMap;
use pc_base::{Memory, Name};
use pc_message::Message;
use pc_office_history::{KeptMail, OfficeEntry, Target, Targets};
use pc_tables::tables;
use std::alloc::Global;
use std::marker::Model;

/// The record of the office, with what is counted of the mails that wait.
#[derive(Drop)]
pub struct Holdings {
    users: Users,
    addresses: IndexMap<Name, Target>,
    boards: Boards,
    accepted: u64,
    kept: Vec<KeptMail>,
}

impl Model for Holdings {
    ghost use Rattle.pc_office_holdings.specs.Held.{Held};

    ghost Value = { Held };

    ghost view = { λ h. record {
      users = h.users;
      addresses = h.addresses.entries;
      boards = h.boards;
      accepted = h.accepted;
      kept = h.kept.items;
    } };
}

impl Holdings {
    /// Those of a new office. They take no memory.
    pub fn empty(alloc: Global) -> Holdings
        ensures { result ≡ nothing_held }
    {
        Holdings {
            users: Users::new(alloc),
            addresses: IndexMap::new(alloc),
            boards: Boards::new(alloc),
            accepted: 0,
            kept: Vec::new(alloc),
        }
    }

    /// What a record says of an office.
    pub fn of(
        users: Users,
        addresses: IndexMap<Name, Target>,
        boards: Boards,
        accepted: u64,
        kept: Vec<KeptMail>,
    ) -> Holdings
        ensures { result ≡ record { users = users; addresses = addresses.entries; boards = boards; accepted = accepted; kept = kept.items } }
    {
        Holdings {
            users,
            addresses,
            boards,
            accepted,
            kept,
        }
    }

    /// The users, in order of making.
    pub fn users(&self) -> &Users
        ensures { result.now ≡ self.now.users }
    {
        &self.users
    }

    /// The addresses with whom they are for, in order of their last taking.
    pub fn addresses(&self) -> &IndexMap<Name, Target>
        ensures { result.now.entries ≡ self.now.addresses }
    {
        &self.addresses
    }

    /// For whom an address is.
    pub fn owner(&self, address: &Name) -> Option<Target>
        ensures { result ≡ lookup (same address.now) self.now.addresses }
    {
        self.addresses.get(address).copied()
    }

    /// The boards, in order of making.
    pub fn boards(&self) -> &Boards
        ensures { result.now ≡ self.now.boards }
    {
        &self.boards
    }

    /// How many mails were accepted.
    pub fn accepted(&self) -> u64
        ensures { result ≡ self.now.accepted }
    {
        self.accepted
    }

    /// The mails that wait for somebody, in order.
    pub fn kept(&self) -> &[KeptMail]
        ensures { result.now ≡ self.now.kept }
    {
        self.kept.as_slice()
    }

    /// Makes the step of an entry that may come next. After `Err` the holdings aren't used again.
    pub fn step(&mut self, alloc: Global, entry: &OfficeEntry) -> Result<(), Memory>
        requires sound { IsSound self.old }
        requires allowed { IsTrue (may_follow (said_by (record_in self.old)) entry.now) }
        ensures { OnOk result (self.new ≡ entered self.old entry.now) }
    {
        match entry {
            OfficeEntry::AddUser { user } => self.add_user(alloc, user),
            OfficeEntry::AddBoard { board } => self.boards.add(alloc, *board),
            OfficeEntry::TakeAddress {
                address,
                user,
                mailbox,
            } => self.take_address(address, user, mailbox),
            OfficeEntry::DropAddress { address } => {
                tables::take(&mut self.addresses, address);
                Ok(())
            }
            OfficeEntry::Accept { names, message } => {
                self.accept(alloc, names.as_slice(), message)
            }
            OfficeEntry::Pulled { user, number } => {
                self.note_pulled(user, *number);
                Ok(())
            }
        }
    }

    /// Makes a user, for whose inbox its own name is.
    fn add_user(&mut self, alloc: Global, user: &Name) -> Result<(), Memory>
        requires user { lookup (same user.now) self.old.users ≡ None }
        requires address { lookup (same user.now) self.old.addresses ≡ None }
        ensures { OnOk result (self.new ≡ entered self.old (entry.AddUser user.now)) }
    {
        self.users.add(alloc, *user)?;
        self.take_address(user, user, &Name::inbox())
    }

    /// Takes an address for a mailbox of a user.
    fn take_address(&mut self, address: &Name, user: &Name, mailbox: &Name) -> Result<(), Memory>
        requires { lookup (same address.now) self.old.addresses ≡ None }
        ensures { OnOk result (self.new ≡ entered self.old (entry.TakeAddress address.now user.now mailbox.now)) }
    {
        let target = Target {
            user: *user,
            mailbox: *mailbox,
        };
        tables::put(&mut self.addresses, *address, target)
    }

    /// Accepts a mail for those to whom the names belong.
    fn accept(&mut self, alloc: Global, names: &[Name], message: &Message) -> Result<(), Memory>
        requires { self.old.accepted < 2 ^ 63 - 1 }
        ensures { OnOk result (self.new ≡ entered self.old (entry.Accept names.now message.now)) }
    {
        let targets = self.targets_of(alloc, names)?;
        self.boards.post(alloc, names, message)?;
        self.accepted += 1;
        self.keep(alloc, targets, message)
    }

    /// Keeps the last mail that was accepted for its targets, where it has any.
    fn keep(&mut self, alloc: Global, targets: Targets, message: &Message) -> Result<(), Memory>
        ensures { OnOk result (self.new ≡ record self.old {
          users = map (awaited targets (weight_of message.now)) self.old.users;
          kept = self.old.kept ++ still_waiting (record { number = self.old.accepted; targets = targets; message = message.now } ∷ []);
        }) }
    {
        if targets.is_empty() {
            return Ok(());
        }
        let message = message.copy(alloc)?;
        self.users.await_mail(&targets, message.weight());
        self.kept.push(KeptMail {
            number: self.accepted,
            targets,
            message,
        })?;
        Ok(())
    }

    /// The users to whom these names belong, each once, with the mailbox of its first name.
    fn targets_of(&self, alloc: Global, names: &[Name]) -> Result<Targets, Memory>
        ensures { IfOk result (λ targets. targets ≡ targets_of (λ name. lookup (same name) self.now.addresses) names.now) }
    {
        let mut targets = Targets::new(alloc);
        for name in names {
            self.add_target(&mut targets, name)?;
        }
        Ok(targets)
    }

    /// Adds the user to whom a name belongs, unless it is there.
    fn add_target(&self, targets: &mut Targets, name: &Name) -> Result<(), Memory>
        ensures { OnOk result (targets.new ≡ with_target (lookup (same name.now) self.now.addresses) targets.old) }
    {
        let Some(target) = self.owner(name) else {
            return Ok(());
        };
        if targets.of(&target.user).is_some() {
            return Ok(());
        }
        targets.push(target)
    }

    /// Notes that a user has pulled its mails up to this number. What waited for it alone goes.
    fn note_pulled(&mut self, user: &Name, number: u64)
        ensures { self.new ≡ entered self.old (entry.Pulled user.now number) }
    {
        for mail in self.kept.iter_mut() {
            mail.note(user, number);
        }
        self.kept.retain(|mail| !mail.targets.is_empty());
        let standing = self.count_for(user, number);
        self.users.set(user, standing);
    }

    /// The standing of a user that has pulled up to this number, by what is kept.
    fn count_for(&self, user: &Name, number: u64) -> Standing
        ensures { result ≡ standing_of number (mails_for user.now self.now.kept) }
    {
        let mut standing = Standing::new();
        standing.noted = number;
        for mail in self.kept.iter() {
            if mail.targets.of(user).is_some() {
                standing.add(mail.message.weight());
            }
        }
        standing
    }
}
