//! Requests that change an account.

ghost use Rattle.std.specs.Prelude.{◌≡◌, ◌≤◌, false, true, None, IfOk, IfErr, IsTrue};
ghost use Rattle.pc_account.specs.Plan.{IsWish};
ghost use Rattle.pc_account_holdings.specs.State.{said};
ghost use Rattle.pc_account_records.specs.Legal.{accepts};
ghost use Rattle.pc_account_spelling.specs.EntryForm.{entry_fits};
ghost use Rattle.pc_account_spelling.specs.Spelling.{spelled_entry};
ghost use Rattle.pc_session.specs.Answering.{Comes, Makes, OnDevice};
ghost use Rattle.pc_session.specs.Repository.{as_user, changes, sets_password, takes_away};
ghost use Rattle.pc_session.specs.declared.answered.Failure.TheVariants as failure;

use crate::access::DeskAccess;
use crate::answered::{Answered, Failure, Move, plainly};
use crate::receipts::{Receipt, Receipts};
use crate::state::SessionState;
use pc_account::{Wish, digest};
use pc_account_history::Entry;
use pc_account_spelling::write_entry;
use pc_base::{Bytes, CommitFault, Name, Password, Refusal, StoreName};
use pc_reply::Head;
use std::alloc::Global;

/// Carries out a wish: its entry is made, where it comes to one.
pub(crate) fn change<K: DeskAccess>(
    alloc: Global,
    desk: &mut K,
    state: &SessionState,
    receipts: &mut Receipts,
    user: &Name,
    wish: &Wish,
) -> Result<Answered, Failure>
    requires whole { (K.told desk.old).broken ≡ false }
    requires doubt { (K.told desk.old).doubt ≡ None }
    requires user { user.now ≡ K.user desk.old }
    requires wish { IsWish (said (K.told desk.old).state) wish.now }
    ensures comes { Comes user.now (changes (K.told desk.old) state.now wish.now) (K.told desk.old) state.now receipts.old result (K.told desk.new) receipts.new }
    ensures device { OnDevice result (K.fails desk.old) }
    ensures ahead { K.fails desk.new → K.fails desk.old }
    ensures taken { K.taken desk.new ≡ K.taken desk.old }
    ensures faults { (K.told desk.old).faults ≤ (K.told desk.new).faults }
    ensures user { K.user desk.new ≡ K.user desk.old }
{
    if let Some(entry) = desk.account().plan(alloc, wish)? {
        make(alloc, desk, receipts, user, entry)?;
    }
    Ok(plainly(alloc, &Head::Ok, Move::Stays))
}

/// Takes a client away that is there and whose latest session isn't live.
pub(crate) fn take_away<K: DeskAccess>(
    alloc: Global,
    desk: &mut K,
    state: &SessionState,
    receipts: &mut Receipts,
    user: &Name,
    client: &Name,
) -> Result<Answered, Failure>
    requires whole { (K.told desk.old).broken ≡ false }
    requires doubt { (K.told desk.old).doubt ≡ None }
    requires user { user.now ≡ K.user desk.old }
    ensures comes { Comes user.now (takes_away (K.told desk.old) state.now client.now) (K.told desk.old) state.now receipts.old result (K.told desk.new) receipts.new }
    ensures device { OnDevice result (K.fails desk.old) }
    ensures ahead { K.fails desk.new → K.fails desk.old }
    ensures taken { K.taken desk.new ≡ K.taken desk.old }
    ensures faults { (K.told desk.old).faults ≤ (K.told desk.new).faults }
    ensures user { K.user desk.new ≡ K.user desk.old }
{
    if desk.account().birth(client).is_none() {
        return Err(Failure::Refused(Refusal::NoSuchClient));
    }
    if desk.latest(client).is_some_and(|latest| latest.live) {
        return Err(Failure::Refused(Refusal::ClientHasSession));
    }
    let wish = Wish::DropClient { client: *client };
    change(alloc, desk, state, receipts, user, &wish)
}

/// Sets another password of the session's user, for one who knows the present one.
pub(crate) fn set_password<K: DeskAccess>(
    alloc: Global,
    desk: &mut K,
    state: &SessionState,
    receipts: &mut Receipts,
    user: &Name,
    present: &Password,
    next: &Password,
) -> Result<Answered, Failure>
    requires whole { (K.told desk.old).broken ≡ false }
    requires doubt { (K.told desk.old).doubt ≡ None }
    requires user { user.now ≡ K.user desk.old }
    ensures comes { Comes user.now (as_user state.now (λ owner. sets_password (K.told desk.old) state.now owner present.now next.now)) (K.told desk.old) state.now receipts.old result (K.told desk.new) receipts.new }
    ensures device { OnDevice result (K.fails desk.old) }
    ensures ahead { K.fails desk.new → K.fails desk.old }
    ensures taken { K.taken desk.new ≡ K.taken desk.old }
    ensures faults { (K.told desk.old).faults ≤ (K.told desk.new).faults }
    ensures user { K.user desk.new ≡ K.user desk.old }
{
    let Some(owner) = state.who.user() else {
        return Err(Failure::Refused(Refusal::NotLoggedIn));
    };
    if !desk.account().password_is(&digest(&owner, present)) {
        return Err(Failure::Refused(Refusal::BadUserOrPassword));
    }
    let wish = Wish::Password {
        digest: digest(&owner, next),
    };
    change(alloc, desk, state, receipts, user, &wish)
}

/// Makes an entry with its receipt, and answers its number. All memory is taken before the commit.
pub(crate) fn make<K: DeskAccess>(
    alloc: Global,
    desk: &mut K,
    receipts: &mut Receipts,
    user: &Name,
    entry: Entry,
) -> Result<u64, Failure>
    requires whole { (K.told desk.old).broken ≡ false }
    requires doubt { (K.told desk.old).doubt ≡ None }
    requires user { user.now ≡ K.user desk.old }
    requires accepted { accepts (K.told desk.old).state entry ≡ true }
    ensures makes { Makes user.now entry (K.told desk.old) receipts.old result (K.told desk.new) receipts.new }
    ensures device { OnDevice result (K.fails desk.old) }
    ensures ahead { K.fails desk.new → K.fails desk.old }
    ensures taken { K.taken desk.new ≡ K.taken desk.old }
    ensures faults { (K.told desk.old).faults ≤ (K.told desk.new).faults }
    ensures user { K.user desk.new ≡ K.user desk.old }
{
    let bytes = spell(alloc, &entry)?;
    // its receipt is there before the commit, which takes no memory after its first device call
    let number = desk.account().next();
    receipts.push(Receipt {
        owner: StoreName::Account { user: *user },
        number,
        entry: bytes,
    })?;
    let Err(fault) = desk.commit(alloc, entry) else {
        return Ok(number);
    };
    receipts.take_back();
    match fault {
        CommitFault::Full => Err(Failure::Refused(Refusal::JournalFull)),
        CommitFault::Device => Err(Failure::Device),
        CommitFault::Memory => Err(Failure::Memory),
    }
}

/// The bytes of an entry, as a journal has them.
pub(crate) fn spell(alloc: Global, entry: &Entry) -> Result<Bytes, Failure>
    requires { IsTrue (entry_fits entry.now) }
    ensures bytes { IfOk result (λ bytes. bytes ≡ spelled_entry entry.now) }
    ensures memory { IfErr result (λ why. why ≡ failure.Memory) }
{
    let mut bytes = Bytes::new(alloc);
    write_entry(entry, &mut bytes)?;
    Ok(bytes)
}
