//! What the office allows, and what wishes come to.

ghost use Rattle.std.specs.Prelude.{◌≡◌, ◌<◌, ◌≤◌, length, true, Ok, Err, IsTrue, IfOk, option_copied};
ghost use Rattle.std.specs.Option.{option_map_or};
ghost use Rattle.std.specs.List.{list_all};
ghost use Rattle.pc_base.specs.Name.{is_name};
ghost use Rattle.pc_base.specs.declared.refusal.Refusal.TheVariants.{UnknownRecipient, LimitReached};
ghost use Rattle.pc_base.specs.declared.ask_fault.AskFault.TheVariants.{Refused};
ghost use Rattle.pc_base.specs.AskFault.{Tells, IsNoMemory};
ghost use Rattle.pc_office_history.specs.declared.limits.TheConstants.{MOST_RECIPIENTS};
ghost use Rattle.pc_office_history.specs.Allowed.{are_apart};
ghost use Rattle.pc_office_history.specs.Known.{said_by};
ghost use Rattle.pc_office_spelling.specs.EntryForm.{entry_fits};
ghost use Rattle.pc_office.specs.Machine.{accepts};
ghost use Rattle.pc_office_history.specs.History.{History, known};
ghost use Rattle.pc_office.specs.declared.wish.OfficeWish.TheVariants as wish;
ghost use Rattle.pc_office_holdings.specs.Held.{record_in};
ghost use Rattle.pc_office_holdings.specs.State.{StandsFor, may_follow, IsSound};
ghost use Rattle.pc_office.specs.Plan.{fault_of, first_stranger, sent_to_names, sent, planned, may_give_up as gives_up, IsAtOnce};

use crate::allowing::{is_allowed, is_free, is_recipient, is_user};
use crate::limits::{
    limit_of_address, limit_of_mail, limit_of_new_board, limit_of_user, limit_passed,
};
use crate::office::Office;
use crate::wish::OfficeWish;
use pc_base::{AskFault, LimitWord, Name, Names, Recipient, Refusal};
use pc_message::{Message, RecipientFault, recipients};
use pc_office_history::{MOST_RECIPIENTS, OfficeEntry};
use pc_office_holdings::Holdings;
use std::alloc::Global;

impl Office {
    /// Whether the entry may come next: it is allowed, and passes no limit.
    pub fn allows(&self, entry: &OfficeEntry) -> bool
        ensures held { result ≡ may_follow (said_by self.now) entry.now }
        ensures history { (h : History) → StandsFor self.now h → result ≡ may_follow (known h) entry.now }
    {
        may_follow(&self.holdings, entry)
    }

    /// The entry that a wish comes to, which may come next and which a store may commit, or the
    /// first refusal. Memory is wanted only to send.
    pub fn plan(&self, alloc: Global, wish: &OfficeWish) -> Result<OfficeEntry, AskFault>
        ensures held { Tells (planned (said_by self.now) wish.now) result }
        ensures history { (h : History) → StandsFor self.now h → Tells (planned (known h) wish.now) result }
        ensures follows { IfOk result (λ entry. IsTrue (may_follow (said_by self.now) entry)) }
        ensures accepted { IfOk result (λ entry. IsTrue (accepts self.now entry)) }
        ensures memory { IsAtOnce wish.now → IsNoMemory result }
    {
        plan(alloc, &self.holdings, wish)
    }
}

/// What a wish comes to. The entry fits its fields.
fn plan(alloc: Global, holdings: &Holdings, wish: &OfficeWish) -> Result<OfficeEntry, AskFault>
    requires { IsSound holdings.now }
    ensures tells { Tells (planned (said_by (record_in holdings.now)) wish.now) result }
    ensures fits { IfOk result (λ entry. IsTrue (entry_fits entry)) }
    ensures memory { IsAtOnce wish.now → IsNoMemory result }
{
    match wish {
        OfficeWish::AddUser { user } => add_user(holdings, user),
        OfficeWish::AddBoard { board } => add_board(holdings, board),
        OfficeWish::TakeAddress {
            address,
            user,
            mailbox,
        } => take_address(holdings, address, user, mailbox),
        OfficeWish::DropAddress { address, user } => drop_address(holdings, address, user),
        OfficeWish::Accept { message } => send(alloc, holdings, message),
    }
}

/// Whether the entry may come next. A mail to more names than there may be is refused before
/// they are compared.
fn may_follow(holdings: &Holdings, entry: &OfficeEntry) -> bool
    requires { IsSound holdings.now }
    ensures { result ≡ may_follow (said_by (record_in holdings.now)) entry.now }
{
    if let OfficeEntry::Accept { names, .. } = entry {
        if names.as_slice().len() > MOST_RECIPIENTS {
            return false;
        }
    }
    if !is_allowed(holdings, entry) {
        return false;
    }
    limit_passed(holdings, entry).is_none()
}

/// The entry, unless it passes a limit.
fn within(limit: Option<LimitWord>, entry: OfficeEntry) -> Result<OfficeEntry, AskFault>
    requires { IsTrue (entry_fits entry) }
    ensures tells { Tells (option_map_or (λ passed. Err (LimitReached passed)) limit (Ok entry)) result }
    ensures fits { IfOk result (λ entry. IsTrue (entry_fits entry)) }
    ensures memory { IsNoMemory result }
{
    match limit {
        Some(limit) => Err(AskFault::Refused(Refusal::LimitReached { limit })),
        None => Ok(entry),
    }
}

fn add_user(holdings: &Holdings, user: &Name) -> Result<OfficeEntry, AskFault>
    requires { IsSound holdings.now }
    ensures tells { Tells (planned (said_by (record_in holdings.now)) (wish.AddUser user.now)) result }
    ensures fits { IfOk result (λ entry. IsTrue (entry_fits entry)) }
    ensures memory { IsNoMemory result }
{
    if !is_free(holdings, user) {
        return Err(AskFault::Refused(Refusal::AddressTaken));
    }
    within(
        limit_of_user(holdings, user),
        OfficeEntry::AddUser { user: user.copy() },
    )
}

fn add_board(holdings: &Holdings, board: &Name) -> Result<OfficeEntry, AskFault>
    requires { IsSound holdings.now }
    ensures tells { Tells (planned (said_by (record_in holdings.now)) (wish.AddBoard board.now)) result }
    ensures fits { IfOk result (λ entry. IsTrue (entry_fits entry)) }
    ensures memory { IsNoMemory result }
{
    if !is_free(holdings, board) {
        return Err(AskFault::Refused(Refusal::AddressTaken));
    }
    within(
        limit_of_new_board(holdings, board),
        OfficeEntry::AddBoard {
            board: board.copy(),
        },
    )
}

fn take_address(
    holdings: &Holdings,
    address: &Name,
    user: &Name,
    mailbox: &Name,
) -> Result<OfficeEntry, AskFault>
    requires { IsSound holdings.now }
    ensures tells { Tells (planned (said_by (record_in holdings.now)) (wish.TakeAddress address.now user.now mailbox.now)) result }
    ensures fits { IfOk result (λ entry. IsTrue (entry_fits entry)) }
    ensures memory { IsNoMemory result }
{
    if !is_user(holdings, user) {
        return Err(AskFault::Refused(Refusal::NoSuchAddress));
    }
    if !is_free(holdings, address) {
        return Err(AskFault::Refused(Refusal::AddressTaken));
    }
    within(
        limit_of_address(holdings, address, user, mailbox),
        OfficeEntry::TakeAddress {
            address: address.copy(),
            user: user.copy(),
            mailbox: mailbox.copy(),
        },
    )
}

fn drop_address(holdings: &Holdings, address: &Name, user: &Name) -> Result<OfficeEntry, AskFault>
    ensures tells { Tells (planned (said_by (record_in holdings.now)) (wish.DropAddress address.now user.now)) result }
    ensures fits { IfOk result (λ entry. IsTrue (entry_fits entry)) }
    ensures memory { IsNoMemory result }
{
    if !may_give_up(holdings, user, address) {
        return Err(AskFault::Refused(Refusal::NoSuchAddress));
    }
    Ok(OfficeEntry::DropAddress {
        address: address.copy(),
    })
}

/// Whether the address is this user's to give up: it is for the user, and no user's own name.
fn may_give_up(holdings: &Holdings, user: &Name, address: &Name) -> bool
    ensures { result ≡ gives_up (said_by (record_in holdings.now)) user.now address.now }
{
    match holdings.owner(address) {
        Some(target) => *user == target.user && !is_user(holdings, address),
        None => false,
    }
}

/// What sending a message to those whom it names comes to.
fn send(alloc: Global, holdings: &Holdings, message: &Message) -> Result<OfficeEntry, AskFault>
    requires { IsSound holdings.now }
    ensures tells { Tells (sent (said_by (record_in holdings.now)) message.now) result }
    ensures fits { IfOk result (λ entry. IsTrue (entry_fits entry)) }
{
    let names = match recipients(alloc, message) {
        Ok(names) => names,
        Err(fault) => return Err(fault_of(&fault)),
    };
    send_to(alloc, holdings, names, message)
}

/// What sending a message to these names comes to.
fn send_to(
    alloc: Global,
    holdings: &Holdings,
    names: Names,
    message: &Message,
) -> Result<OfficeEntry, AskFault>
    requires sound { IsSound holdings.now }
    requires some { 0 < length names }
    requires apart { are_apart names ≡ true }
    requires few { length names ≤ MOST_RECIPIENTS }
    requires names { IsTrue (list_all is_name names) }
    ensures tells { Tells (sent_to_names (said_by (record_in holdings.now)) message.now names) result }
    ensures fits { IfOk result (λ entry. IsTrue (entry_fits entry)) }
{
    if let Some(name) = first_stranger(holdings, names.as_slice()) {
        return Err(unknown(&Recipient::shown(name.bytes())));
    }
    if let Some(limit) = limit_of_mail(holdings, names.as_slice(), message) {
        return Err(AskFault::Refused(Refusal::LimitReached { limit }));
    }
    let message = message.copy(alloc)?;
    Ok(OfficeEntry::Accept { names, message })
}

/// The first of the names that is neither an address nor a board.
fn first_stranger<'a>(holdings: &Holdings, names: &'a [Name]) -> Option<&'a Name>
    ensures { option_copied result ≡ first_stranger (said_by (record_in holdings.now)) names.now }
{
    names.iter().find(|name| !is_recipient(holdings, *name))
}

/// What is answered where the names that a message is for can't be told.
fn fault_of(fault: &RecipientFault) -> AskFault
    ensures { result ≡ fault_of fault.now }
{
    match fault {
        RecipientFault::Unknown { shown } => unknown(shown),
        RecipientFault::TooMany => AskFault::Refused(Refusal::LimitReached {
            limit: LimitWord::Recipients,
        }),
        RecipientFault::Memory => AskFault::Memory,
    }
}

fn unknown(shown: &Recipient) -> AskFault
    ensures { result ≡ Refused (UnknownRecipient shown.now) }
{
    AskFault::Refused(Refusal::UnknownRecipient { shown: *shown })
}
