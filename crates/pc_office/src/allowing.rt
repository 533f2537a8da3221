//! Which entries are allowed, the limits apart.

ghost use Rattle.std.specs.Prelude.{◌≡◌, []};
ghost use Rattle.std.specs.List.{list_all};
ghost use Rattle.pc_office_history.specs.declared.entry.OfficeEntry.TheVariants as entry;
ghost use Rattle.pc_office_history.specs.Known.{said_by};
ghost use Rattle.pc_office_history.specs.Allowed.{is_user, is_board, is_address, is_free, is_recipient, are_apart, is_allowed};
ghost use Rattle.pc_office_holdings.specs.Held.{record_in};

use pc_base::Name;
use pc_message::LAST_MAIL;
use pc_office_history::OfficeEntry;
use pc_office_holdings::Holdings;

/// Whether the entry is allowed. Its limits aren't tried.
pub fn is_allowed(holdings: &Holdings, entry: &OfficeEntry) -> bool
    ensures { result ≡ is_allowed (said_by (record_in holdings.now)) entry.now }
{
    match entry {
        OfficeEntry::AddUser { user } => is_free(holdings, user),
        OfficeEntry::AddBoard { board } => is_free(holdings, board),
        OfficeEntry::TakeAddress { address, user, .. } => {
            is_free(holdings, address) && is_user(holdings, user)
        }
        OfficeEntry::DropAddress { address } => {
            is_address(holdings, address) && !is_user(holdings, address)
        }
        OfficeEntry::Accept { names, .. } => may_accept(holdings, names.as_slice()),
        OfficeEntry::Pulled { user, number } => may_note(holdings, user, *number),
    }
}

/// Whether the name is a user's.
pub fn is_user(holdings: &Holdings, name: &Name) -> bool
    ensures { result ≡ is_user (said_by (record_in holdings.now)) name.now }
{
    holdings.users().get(name).is_some()
}

/// Whether the name is a board's.
pub fn is_board(holdings: &Holdings, name: &Name) -> bool
    ensures { result ≡ is_board (said_by (record_in holdings.now)) name.now }
{
    holdings.boards().get(name).is_some()
}

/// Whether the name is an address.
pub fn is_address(holdings: &Holdings, name: &Name) -> bool
    ensures { result ≡ is_address (said_by (record_in holdings.now)) name.now }
{
    holdings.owner(name).is_some()
}

/// Whether the name is none of the three.
pub fn is_free(holdings: &Holdings, name: &Name) -> bool
    ensures { result ≡ is_free (said_by (record_in holdings.now)) name.now }
{
    !is_user(holdings, name) && !is_board(holdings, name) && !is_address(holdings, name)
}

/// Whether mail may be sent to the name.
pub fn is_recipient(holdings: &Holdings, name: &Name) -> bool
    ensures { result ≡ is_recipient (said_by (record_in holdings.now)) name.now }
{
    is_address(holdings, name) || is_board(holdings, name)
}

fn may_accept(holdings: &Holdings, names: &[Name]) -> bool
    ensures { result ≡ is_allowed (said_by (record_in holdings.now)) (entry.Accept names.now []) }
{
    !names.is_empty()
        && are_apart(names)
        && are_recipients(holdings, names)
        && holdings.accepted() < LAST_MAIL
}

/// Whether no name comes twice. It takes time by the square of their number.
fn are_apart(names: &[Name]) -> bool
    ensures { result ≡ are_apart names.now }
{
    let mut rest = names;
    while let [name, others @ ..] = rest {
        if others.contains(name) {
            return false;
        }
        rest = others;
    }
    true
}

/// Whether mail may be sent to each of the names.
fn are_recipients(holdings: &Holdings, names: &[Name]) -> bool
    ensures { result ≡ list_all (is_recipient (said_by (record_in holdings.now))) names.now }
{
    names.iter().all(|name| is_recipient(holdings, name))
}

fn may_note(holdings: &Holdings, user: &Name, number: u64) -> bool
    ensures { result ≡ is_allowed (said_by (record_in holdings.now)) (entry.Pulled user.now number) }
{
    match holdings.users().get(user) {
        Some(standing) => standing.noted < number && number <= holdings.accepted(),
        None => false,
    }
}
