//! Logging in.

ghost use Rattle.std.specs.Prelude.{◌≡◌, ℕ, ◌≤◌, false, true, List, None, IfOk, IfErr, IsTrue};
ghost use Rattle.pc_account_history.specs.History.{known};
ghost use Rattle.pc_account.specs.Plan.{planned};
ghost use Rattle.pc_account.specs.declared.wish.Wish.TheVariants as wish;
ghost use Rattle.pc_account_records.specs.Legal.{accepts};
ghost use Rattle.pc_session.specs.Answering.{Comes, Draws, OnDevice, PlansClient};
ghost use Rattle.pc_session.specs.Desk.{has_room};
ghost use Rattle.pc_reply.specs.declared.head.Head.TheVariants as head;
ghost use Rattle.pc_account_spelling.specs.EntryForm.{entry_fits};
ghost use Rattle.pc_session.specs.Repository.{enters, logs_in_knowing, makes_client, plain, unless_drawn};
ghost use Rattle.pc_session.specs.declared.answered.Failure.TheVariants as failure;
ghost use Rattle.pc_session.specs.declared.answered.Move.TheVariants as moves;
ghost use Rattle.pc_session.specs.declared.receipts.Receipt.{Receipt};
ghost use Rattle.pc_session.specs.declared.state.SessionState.{SessionState};

use crate::access::{DeskAccess, TakeFault};
use crate::answered::{Answered, Failure, Move, plainly};
use crate::changing::{make, spell};
use crate::receipts::Receipts;
use crate::state::SessionState;
use pc_account::{Wish, digest};
use pc_account_history::Entry;
use pc_base::{LimitWord, Name, Password, Refusal};
use pc_reply::Head;
use std::alloc::Global;

/// The last number of a session.
const LAST_SESSION: u64 = 9_223_372_036_854_775_807;

/// What LOGIN says.
#[derive(Clone, Copy)]
pub struct Login {
    pub user: Name,
    pub password: Password,
    pub client: Name,
    /// Whether the client is made where it isn't there.
    pub create: bool,
    pub batch: bool,
}

/// Logs a client in: it draws the next session number, and is made where it isn't there and LOGIN says so.
pub(crate) fn log_in<K: DeskAccess>(
    alloc: Global,
    desk: &mut K,
    state: &SessionState,
    receipts: &mut Receipts,
    user: &Name,
    login: &Login,
) -> Result<Answered, Failure>
    requires whole { (K.told desk.old).broken ≡ false }
    requires doubt { (K.told desk.old).doubt ≡ None }
    requires user { user.now ≡ K.user desk.old }
    ensures comes { Comes user.now (logs_in_knowing (K.told desk.old) state.now login.now.user login.now.password login.now.client login.now.create login.now.batch) (K.told desk.old) state.now receipts.old result (K.told desk.new) receipts.new }
    ensures device { OnDevice result (K.fails desk.old) }
    ensures ahead { K.fails desk.new → K.fails desk.old }
    ensures taken { K.taken desk.new ≡ K.taken desk.old }
    ensures faults { (K.told desk.old).faults ≤ (K.told desk.new).faults }
    ensures user { K.user desk.new ≡ K.user desk.old }
{
    let digest = digest(&login.user, &login.password);
    if !desk.account().password_is(&digest) {
        return Err(Failure::Refused(Refusal::BadUserOrPassword));
    }
    if let Some(birth) = desk.account().birth(&login.client) {
        return enter(alloc, desk, login, birth);
    }
    if !login.create {
        return Err(Failure::Refused(Refusal::NoSuchClient));
    }
    make_client(alloc, desk, state, receipts, user, login)
}

// Logs in a client that is there.
fn enter<K: DeskAccess>(
    alloc: Global,
    desk: &mut K,
    login: &Login,
    birth: u64,
) -> Result<Answered, Failure>
    requires whole { (K.told desk.old).broken ≡ false }
    requires doubt { (K.told desk.old).doubt ≡ None }
    ensures comes { (user : List ℕ) (s : SessionState) (receipts : List Receipt) → Comes user (unless_drawn (K.told desk.old) s (enters (K.told desk.old) login.now.user login.now.client login.now.batch birth None)) (K.told desk.old) s receipts result (K.told desk.new) receipts }
    ensures device { OnDevice result (K.fails desk.old) }
    ensures ahead { K.fails desk.new → K.fails desk.old }
    ensures taken { K.taken desk.new ≡ K.taken desk.old }
    ensures faults { (K.told desk.old).faults ≤ (K.told desk.new).faults }
    ensures user { K.user desk.new ≡ K.user desk.old }
{
    let number = draw(desk, login)?;
    Ok(entered(alloc, login, birth, number))
}

// The session of a client that has drawn its number.
fn entered(alloc: Global, login: &Login, birth: u64, number: u64) -> Answered
    ensures { result ≡ record { reply = plain (head.Birth birth); heard = plain (head.Birth birth); then = moves.LogsIn login.now.user login.now.client number } }
{
    let then = Move::LogsIn {
        user: login.user,
        client: login.client,
        number,
    };
    plainly(alloc, &Head::Birth { birth }, then)
}

// Draws the next session number for the client.
fn draw<K: DeskAccess>(desk: &mut K, login: &Login) -> Result<u64, Failure>
    ensures draws { Draws login.now.client login.now.batch (K.told desk.old) result (K.told desk.new) }
    ensures ahead { K.fails desk.new → K.fails desk.old }
    ensures taken { K.taken desk.new ≡ K.taken desk.old }
    ensures faults { (K.told desk.old).faults ≤ (K.told desk.new).faults }
    ensures user { K.user desk.new ≡ K.user desk.old }
{
    match desk.take_over(login.client, login.batch) {
        Ok(number) => Ok(number),
        Err(TakeFault::Limit) => {
            let limit = LimitWord::Sessions;
            Err(Failure::Refused(Refusal::LimitReached { limit }))
        }
        Err(TakeFault::Memory) => Err(Failure::Memory),
    }
}

// Makes a client and logs it in. The number is drawn before the entry is made; where that fails, nobody has it.
fn make_client<K: DeskAccess>(
    alloc: Global,
    desk: &mut K,
    state: &SessionState,
    receipts: &mut Receipts,
    user: &Name,
    login: &Login,
) -> Result<Answered, Failure>
    requires whole { (K.told desk.old).broken ≡ false }
    requires doubt { (K.told desk.old).doubt ≡ None }
    requires user { user.now ≡ K.user desk.old }
    ensures comes { Comes user.now (unless_drawn (K.told desk.old) state.now (makes_client (K.told desk.old) state.now login.now.user login.now.client login.now.batch (planned (known (K.told desk.old).history) (wish.MakeClient login.now.client)))) (K.told desk.old) state.now receipts.old result (K.told desk.new) receipts.new }
    ensures device { OnDevice result (K.fails desk.old) }
    ensures ahead { K.fails desk.new → K.fails desk.old }
    ensures taken { K.taken desk.new ≡ K.taken desk.old }
    ensures faults { (K.told desk.old).faults ≤ (K.told desk.new).faults }
    ensures user { K.user desk.new ≡ K.user desk.old }
{
    if desk.drawn() == LAST_SESSION {
        let limit = LimitWord::Sessions;
        return Err(Failure::Refused(Refusal::LimitReached { limit }));
    }
    let entry = plan_client(alloc, desk, &login.client)?;
    if !takes(alloc, desk, &entry)? {
        return Err(Failure::Refused(Refusal::JournalFull));
    }
    let birth = desk.account().next();
    let number = draw(desk, login)?;
    match make(alloc, desk, receipts, user, entry) {
        Ok(_) => Ok(entered(alloc, login, birth, number)),
        Err(failure) => {
            desk.release(login.client, number);
            Err(failure)
        }
    }
}

// The entry that makes the client.
fn plan_client<K: DeskAccess>(alloc: Global, desk: &K, client: &Name) -> Result<Entry, Failure>
    requires whole { (K.told desk.now).broken ≡ false }
    ensures plan { PlansClient (planned (known (K.told desk.now).history) (wish.MakeClient client.now)) result }
    ensures accepted { IfOk result (λ entry. accepts (K.told desk.now).state entry ≡ true) }
{
    let wish = Wish::MakeClient { client: *client };
    match desk.account().plan(alloc, &wish)? {
        Some(entry) => Ok(entry),
        None => Err(Failure::Refused(Refusal::NoSuchClient)),
    }
}

// Whether the journal has room for the entry.
fn takes<K: DeskAccess>(alloc: Global, desk: &K, entry: &Entry) -> Result<bool, Failure>
    requires { IsTrue (entry_fits entry.now) }
    ensures room { IfOk result (λ takes. takes ≡ has_room (K.told desk.now).history entry.now) }
    ensures memory { IfErr result (λ why. why ≡ failure.Memory) }
{
    let bytes = spell(alloc, entry)?;
    let room = desk.room();
    Ok(room.entries > 0 && bytes.as_slice().len() as u64 <= u64::from(room.bytes))
}
