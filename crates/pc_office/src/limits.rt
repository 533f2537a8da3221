//! Which limit an entry would pass first, by what is counted.

ghost use Rattle.std.specs.Prelude.{◌≡◌, ◌≤◌, length, None, IsTrue};
ghost use Rattle.std.specs.List.{list_any};
ghost use Rattle.pc_fields.specs.Fitting.{is_message};
ghost use Rattle.pc_office_history.specs.declared.entry.OfficeEntry.TheVariants as entry;
ghost use Rattle.pc_office_history.specs.declared.limits.TheConstants.{MOST_RECIPIENTS};
ghost use Rattle.pc_office_history.specs.Known.{said_by};
ghost use Rattle.pc_office_history.specs.Allowed.{is_allowed};
ghost use Rattle.pc_office_history.specs.Limits.{limit_passed};
ghost use Rattle.pc_office_holdings.specs.Held.{record_in};
ghost use Rattle.pc_office.specs.Limits.{IsSendable, is_over as over, has_room as fits_in, are_full};
ghost use Rattle.pc_office_holdings.specs.State.{IsSound};

use pc_base::{LimitWord, Name};
use pc_message::{LAST_MAIL, Message};
use pc_office_history::{
    MOST_ADDRESSES, MOST_BOARD_MESSAGES, MOST_BOARD_WEIGHT, MOST_BOARDS, MOST_RECIPIENTS,
    MOST_USERS, MOST_WAITING, MOST_WAITING_WEIGHT, OfficeEntry,
};
use pc_office_holdings::{Holdings, Standing};

/// The limit that an allowed entry would pass first.
pub fn limit_passed(holdings: &Holdings, entry: &OfficeEntry) -> Option<LimitWord>
    requires sound { IsSound holdings.now }
    requires allowed { IsTrue (is_allowed (said_by (record_in holdings.now)) entry.now) }
    ensures { result ≡ limit_passed (said_by (record_in holdings.now)) entry.now }
{
    match entry {
        OfficeEntry::AddUser { user } => limit_of_user(holdings, user),
        OfficeEntry::AddBoard { board } => limit_of_new_board(holdings, board),
        OfficeEntry::TakeAddress {
            address,
            user,
            mailbox,
        } => limit_of_address(holdings, address, user, mailbox),
        OfficeEntry::DropAddress { .. } => None,
        OfficeEntry::Accept { names, message } => {
            limit_of_mail(holdings, names.as_slice(), message)
        }
        OfficeEntry::Pulled { .. } => None,
    }
}

/// The limit that a new user would pass.
pub fn limit_of_user(holdings: &Holdings, user: &Name) -> Option<LimitWord>
    requires { IsSound holdings.now }
    ensures { result ≡ limit_passed (said_by (record_in holdings.now)) (entry.AddUser user.now) }
{
    if holdings.users().count() >= MOST_USERS {
        return Some(LimitWord::Users);
    }
    if holdings.addresses().len() >= MOST_ADDRESSES {
        return Some(LimitWord::Addresses);
    }
    None
}

/// The limit that a new board would pass.
pub fn limit_of_new_board(holdings: &Holdings, board: &Name) -> Option<LimitWord>
    requires { IsSound holdings.now }
    ensures { result ≡ limit_passed (said_by (record_in holdings.now)) (entry.AddBoard board.now) }
{
    if holdings.boards().count() >= MOST_BOARDS {
        return Some(LimitWord::Boards);
    }
    None
}

/// The limit that a new address would pass.
pub fn limit_of_address(
    holdings: &Holdings,
    address: &Name,
    user: &Name,
    mailbox: &Name,
) -> Option<LimitWord>
    requires { IsSound holdings.now }
    ensures { result ≡ limit_passed (said_by (record_in holdings.now)) (entry.TakeAddress address.now user.now mailbox.now) }
{
    if holdings.addresses().len() >= MOST_ADDRESSES {
        return Some(LimitWord::Addresses);
    }
    None
}

/// The limit that a mail to these names would pass, each of which is there and comes once. A message
/// that passes none fits its fields.
pub fn limit_of_mail(holdings: &Holdings, names: &[Name], message: &Message) -> Option<LimitWord>
    requires sound { IsSound holdings.now }
    requires names { IsSendable (said_by (record_in holdings.now)) names.now }
    ensures limit { result ≡ limit_passed (said_by (record_in holdings.now)) (entry.Accept names.now message.now) }
    ensures fits { result ≡ None → IsTrue (is_message message.now) }
{
    if names.len() > MOST_RECIPIENTS {
        return Some(LimitWord::Recipients);
    }
    if holdings.accepted() >= LAST_MAIL {
        return Some(LimitWord::Waiting);
    }
    let weight = message.weight();
    if too_much_waits(holdings, names, weight) {
        return Some(LimitWord::Waiting);
    }
    if boards_are_full(holdings, names, weight) {
        return Some(LimitWord::Board);
    }
    None
}

/// Whether more would wait than may for a user to whom one of the names belongs.
fn too_much_waits(holdings: &Holdings, names: &[Name], weight: u32) -> bool
    ensures { result ≡ list_any (over weight holdings.now) names.now }
{
    names.iter().any(|name| is_over(holdings, name, weight))
}

/// Whether more would wait than may for the user to whom the name belongs.
fn is_over(holdings: &Holdings, name: &Name, weight: u32) -> bool
    ensures { result ≡ over weight holdings.now name.now }
{
    let Some(target) = holdings.owner(name) else {
        return false;
    };
    let Some(standing) = holdings.users().get(&target.user) else {
        return false;
    };
    !has_room(&standing, weight)
}

/// Whether one mail more of this weight may wait beside what is counted.
fn has_room(standing: &Standing, weight: u32) -> bool
    ensures { result ≡ fits_in weight standing.now }
{
    standing.mails < MOST_WAITING as u64
        && standing.weight.saturating_add(weight as u64) <= MOST_WAITING_WEIGHT as u64
}

/// Whether one of the boards among the names has no place, or all boards have no room.
fn boards_are_full(holdings: &Holdings, names: &[Name], weight: u32) -> bool
    requires sound { IsSound holdings.now }
    requires few { length names.now ≤ MOST_RECIPIENTS }
    ensures { result ≡ are_full weight holdings.now names.now }
{
    let mut more: u64 = 0;
    for name in names {
        if let Some(messages) = holdings.boards().get(name) {
            if messages.as_slice().len() >= MOST_BOARD_MESSAGES {
                return true;
            }
            more += weight as u64;
        }
    }
    holdings.boards().weight().saturating_add(more) > MOST_BOARD_WEIGHT as u64
}
