//! How a user is enrolled.

ghost use Rattle.std.specs.Prelude.{◌≡◌, ◌+◌, ◌^◌, ◌<◌, ◌≤◌, false, IfOk, IfErr, OnOk};
ghost use Rattle.pc_base.specs.Stream.{Rose};
ghost use Rattle.pc_base.specs.Name.{inbox};
ghost use Rattle.pc_base.specs.CommitFault.{OnDevice};
ghost use Rattle.pc_account_history.specs.History.{known};
ghost use Rattle.pc_account_history.specs.Known.{Known};
ghost use Rattle.pc_account.specs.Plan.{IsAtOnce, IsWish, planned};
ghost use Rattle.pc_store.specs.Current.{NoneMade};
ghost use Rattle.pc_store.specs.Opening.{IfDevice, IsOutside};
ghost use Rattle.pc_session.specs.Desk.{Are};
ghost use Rattle.pc_house.specs.Desk.{DeskFails, FailsAhead, told_by};
ghost use Rattle.pc_house.specs.Enrolling.{Carries, Enrols, IsEnrolled, OnDisk, enrolled, new_desk, refused_as};
ghost use Rattle.pc_house.specs.Sessions.{latest_in};

use crate::desk::Desk;
use pc_account::{Wish, digest};
use pc_base::{AskFault, CommitFault, Name, Password, Refusal};
use pc_disk::Disk;
use pc_session::DeskAccess;
use pc_store::{OpenFault, Store};
use std::alloc::Global;

impl<D: Disk + Drop> Desk<D> {
    /// Makes the store of a new account on a disk of which neither area is made, and the user's desk over it. The cause
    /// of a refusal is `Device` or `Memory` alone.
    pub fn make(alloc: Global, user: Name, disk: D) -> Result<Desk<D>, OpenFault<D>>
        requires { D.tells → NoneMade (D.seen disk) }
        ensures made { IfOk result (λ desk. desk ≡ new_desk user desk.store.disk) }
        ensures outside { IfErr result (λ fault. IsOutside fault.cause) }
        ensures cause { IfErr result (λ fault. IfDevice fault.cause (Rose (D.faults disk) (D.faults fault.disk))) }
        ensures faults { OnDisk result (λ now. D.faults disk ≤ D.faults now) }

        // The disk fails only where a device call was to fail, unless nearly all was read that can be counted.
        ensures device { D.tells → D.taken disk + 1 < 2 ^ 64 → IfErr result (λ fault. IfDevice fault.cause (FailsAhead D.tells_due D.moment D.due disk)) }
        ensures ahead { D.tells → OnDisk result (λ now. FailsAhead D.tells_due D.moment D.due now → FailsAhead D.tells_due D.moment D.due disk) }
    {
        match Store::create(alloc, disk) {
            Ok(store) => Ok(Desk::new(alloc, user, store)),
            Err(fault) => Err(fault),
        }
    }

    /// Sets the user's password and makes the inbox, each where it isn't so yet. `Full` comes where the journal has no
    /// room for the entry, or where the account has as many mailboxes as may be. After an error the password may be set.
    pub fn enrol(&mut self, alloc: Global, password: &Password) -> Result<(), CommitFault>
        requires { self.old.store.broken ≡ false }
        ensures enrols { Enrols self.old.user password.now (told_by D.faults self.old) result (told_by D.faults self.new) }
        ensures history { OnOk result ((told_by D.faults self.new).history ≡ enrolled self.old.user password.now (told_by D.faults self.old).history) }
        ensures there { OnOk result (IsEnrolled self.old.user password.now (told_by D.faults self.new).history) }
        ensures whole { OnOk result (self.new.store.broken ≡ false) }
        ensures drawn { self.new.drawn ≡ self.old.drawn }
        ensures latest { Are (latest_in self.new.sessions) (latest_in self.old.sessions) }
        ensures cause { OnDevice result (Rose (D.faults self.old.store.disk) (D.faults self.new.store.disk)) }
        ensures faults { D.faults self.old.store.disk ≤ D.faults self.new.store.disk }
        ensures user { self.new.user ≡ self.old.user }

        // The disk fails only where a device call was to fail.
        ensures device { OnDevice result (DeskFails D.tells_due D.moment D.due self.old) }
        ensures ahead { DeskFails D.tells_due D.moment D.due self.new → DeskFails D.tells_due D.moment D.due self.old }
    {
        let digest = digest(&self.user, password);
        self.carry_out(alloc, &Wish::Password { digest })?;
        let mailbox = Name::inbox();
        self.carry_out(alloc, &Wish::MakeMailbox { mailbox })
    }

    // Carries out a wish that is settled without memory, where it isn't so yet.
    fn carry_out(&mut self, alloc: Global, wish: &Wish) -> Result<(), CommitFault>
        requires whole { self.old.store.broken ≡ false }
        requires wish { (k : Known) → IsWish k wish.now }
        requires at_once { IsAtOnce wish.now }
        ensures carries { Carries (planned (known (told_by D.faults self.old).history) wish.now) (told_by D.faults self.old) result (told_by D.faults self.new) }
        ensures device { OnDevice result (DeskFails D.tells_due D.moment D.due self.old) }
        ensures ahead { DeskFails D.tells_due D.moment D.due self.new → DeskFails D.tells_due D.moment D.due self.old }
        ensures faults { D.faults self.old.store.disk ≤ D.faults self.new.store.disk }
        ensures user { self.new.user ≡ self.old.user }
    {
        let plan = match self.account().plan(alloc, wish) {
            Ok(plan) => plan,
            Err(AskFault::Refused(why)) => return refused_as(why),
            Err(AskFault::Memory) => return Err(CommitFault::Memory),
        };
        let Some(entry) = plan else {
            return Ok(());
        };
        self.commit(alloc, entry)?;
        Ok(())
    }
}

// What comes of a wish that is refused: there is a mailbox of the name already, or the account has no room for it.
fn refused_as(why: Refusal) -> Result<(), CommitFault>
    ensures { result ≡ refused_as why }
{
    match why {
        Refusal::MailboxExists => Ok(()),
        _ => Err(CommitFault::Full),
    }
}
