//! Which entries are allowed, the limits apart.

ghost use Rattle.std.specs.Prelude.{◌≡◌, not, ◌&&◌, nat_lt, nat_le, true, false, length, is_some, option_map, IsTrue, if◌then◌else◌};
ghost use Rattle.std.specs.Option.{option_map_or};
ghost use Rattle.std.specs.List.{list_any, list_all};
ghost use Rattle.std.specs.Map.{lookup};
ghost use Rattle.pc_base.specs.Name.{inbox};
ghost use Rattle.pc_account_history.specs.declared.kept.Kept.{Kept};
ghost use Rattle.pc_account_history.specs.declared.entry.Entry.TheVariants as entry;
ghost use Rattle.pc_message.specs.Flags.{flag_of};
ghost use Rattle.pc_tables.specs.Table.{same};
ghost use Rattle.pc_account_history.specs.Record.{list_of, stamp_at};
ghost use Rattle.pc_tables.specs.Order.{rises_from};
ghost use Rattle.pc_account_history.specs.Allowed.{is_mailbox, is_client, is_subscribed, messages, is_allowed};
ghost use Rattle.pc_account_history.specs.Legal.{IsCanonical};
ghost use Rattle.pc_account_holdings.specs.State.{said};
ghost use Rattle.pc_account.specs.LookUps.{is_set, has_flag, are_live};

use pc_account_history::Entry;
use pc_account_holdings::Holdings;
use pc_base::Name;
use pc_mailbox::Mailbox;
use pc_message::{LAST_MAIL, MOST_LETTERS, Message, is_on};

/// Whether the entry is allowed. Its limits aren't tried.
pub fn is_allowed(holdings: &Holdings, entry: &Entry) -> bool
    requires { IsCanonical holdings.now.held holdings.now.next }
    ensures { result ≡ is_allowed (said holdings.now) entry.now }
{
    match entry {
        Entry::MakeMailbox { mailbox } => !is_mailbox(holdings, mailbox),
        Entry::DropMailbox { mailbox } => { is_mailbox(holdings, mailbox) && !is_inbox(mailbox) }
        Entry::Flag {
            mailbox,
            uid,
            flag,
            on,
        } => *flag <= 15 && changes_flag(holdings, mailbox, *uid, *flag, *on),
        Entry::Expunge { mailbox } => {
            is_mailbox(holdings, mailbox) && any_deleted(holdings, mailbox)
        }
        Entry::Copy {
            mailbox,
            uid,
            target,
        } => {
            is_mailbox(holdings, mailbox)
                && is_mailbox(holdings, target)
                && has_message(holdings, mailbox, *uid)
        }
        Entry::MakeClient { client } => !is_client(holdings, client),
        Entry::DropClient { client } => is_client(holdings, client),
        Entry::ResetClient { client } => is_client(holdings, client),
        Entry::ResetMailbox { client, mailbox } => {
            is_client(holdings, client) && is_mailbox(holdings, mailbox)
        }
        Entry::Forget {
            client,
            mailbox,
            uids,
        } => may_forget(holdings, client, mailbox, uids.as_slice()),
        Entry::Pull { upto, letters } => may_pull(holdings, *upto, letters.as_slice()),
        Entry::Password { digest } => !is_digest(holdings, digest),
        Entry::Subscribe { board } => !is_subscribed(holdings, board),
        Entry::Unsubscribe { board } => is_subscribed(holdings, board),
        Entry::Mark { board, uid } => changes_mark(holdings, board, *uid),
    }
}

/// Whether the mailbox lives.
pub fn is_mailbox(holdings: &Holdings, mailbox: &Name) -> bool
    ensures { result ≡ is_mailbox (said holdings.now) mailbox.now }
{
    holdings.is_live(mailbox)
}

/// Whether this is the mailbox that can't be dropped.
pub fn is_inbox(mailbox: &Name) -> bool
    ensures { result ≡ same mailbox.now inbox }
{
    mailbox.bytes() == b"inbox".as_slice()
}

/// Whether the client is there.
pub fn is_client(holdings: &Holdings, client: &Name) -> bool
    ensures { result ≡ is_client (said holdings.now) client.now }
{
    holdings.birth(client).is_some()
}

/// Whether the board is subscribed to.
pub fn is_subscribed(holdings: &Holdings, board: &Name) -> bool
    ensures { result ≡ is_subscribed (said holdings.now) board.now }
{
    holdings.mark(board).is_some()
}

/// The flags of a message, where it lives. Flag 0 is the lowest bit.
pub fn flags_of(holdings: &Holdings, mailbox: &Name, uid: u32) -> Option<u16>
    requires { IsCanonical holdings.now.held holdings.now.next }
    ensures { result ≡ option_map (λ (kept : Kept). kept.flags) ((said holdings.now).kept mailbox.now uid) }
{
    holdings.mailbox(mailbox)?.live(uid)
}

/// Whether a message lives.
pub fn has_message(holdings: &Holdings, mailbox: &Name, uid: u32) -> bool
    requires { IsCanonical holdings.now.held holdings.now.next }
    ensures { result ≡ is_some ((said holdings.now).kept mailbox.now uid) }
{
    flags_of(holdings, mailbox, uid).is_some()
}

/// Whether a message lives whose flag has this value.
pub fn has_flag(holdings: &Holdings, mailbox: &Name, uid: u32, flag: u8, on: bool) -> bool
    requires canonical { IsCanonical holdings.now.held holdings.now.next }
    requires flag { IsTrue (nat_le flag 15) }
    ensures { result ≡ option_map_or (has_flag flag on) ((said holdings.now).kept mailbox.now uid) false }
{
    match flags_of(holdings, mailbox, uid) {
        Some(flags) => is_on(flags, flag) == on,
        None => false,
    }
}

/// Whether flag 0 of a message that lives is on.
pub fn any_deleted(holdings: &Holdings, mailbox: &Name) -> bool
    requires { IsCanonical holdings.now.held holdings.now.next }
    ensures { result ≡ list_any (λ (kept : Kept). flag_of kept.flags 0) (messages (said holdings.now) mailbox.now) }
{
    match holdings.mailbox(mailbox) {
        Some(mailbox) => mailbox.deletes(),
        None => false,
    }
}

/// Whether this is the digest of the password.
pub fn is_digest(holdings: &Holdings, digest: &[u8; 32]) -> bool
    ensures { result ≡ option_map_or (same digest.now) (said holdings.now).digest false }
{
    match holdings.digest() {
        Some(present) => *digest == present,
        None => false,
    }
}

/// Whether this is the mark of a board that is subscribed to.
pub fn has_mark(holdings: &Holdings, board: &Name, uid: u32) -> bool
    ensures { result ≡ option_map_or (is_set uid) (lookup (same board.now) (said holdings.now).subscriptions) false }
{
    match holdings.mark(board) {
        Some(mark) => mark == uid,
        None => false,
    }
}

fn changes_mark(holdings: &Holdings, board: &Name, uid: u32) -> bool
    ensures { result ≡ is_allowed (said holdings.now) (entry.Mark board.now uid) }
{
    match holdings.mark(board) {
        Some(mark) => mark != uid,
        None => false,
    }
}

fn changes_flag(holdings: &Holdings, mailbox: &Name, uid: u32, flag: u8, on: bool) -> bool
    requires canonical { IsCanonical holdings.now.held holdings.now.next }
    requires flag { IsTrue (nat_le flag 15) }
    ensures { result ≡ is_allowed (said holdings.now) (entry.Flag mailbox.now uid flag on) }
{
    has_flag(holdings, mailbox, uid, flag, !on)
}

fn may_forget(holdings: &Holdings, client: &Name, mailbox: &Name, uids: &[u32]) -> bool
    ensures { result ≡ is_allowed (said holdings.now) (entry.Forget client.now mailbox.now uids.now) }
{
    is_client(holdings, client)
        && is_mailbox(holdings, mailbox)
        && rise(uids)
        && !uids.is_empty()
        && are_listed(holdings, client, mailbox, uids)
}

/// Whether the uids rise, from 1 on.
fn rise(uids: &[u32]) -> bool
    ensures { result ≡ rises_from 0 uids.now }
{
    let mut last = 0;
    for uid in uids {
        if *uid <= last {
            return false;
        }
        last = *uid;
    }
    true
}

/// Whether the client has all these uids listed in a mailbox that lives.
fn are_listed(holdings: &Holdings, client: &Name, mailbox: &Name, uids: &[u32]) -> bool
    requires { IsTrue (is_mailbox (said holdings.now) mailbox.now) }
    ensures { result ≡ list_all (λ uid. is_some ((said holdings.now).listed client.now mailbox.now uid)) uids.now }
{
    match holdings.mailbox(mailbox) {
        Some(holder) => are_listed_in(holder, client, uids),
        None => false,
    }
}

fn are_listed_in(mailbox: &Mailbox, client: &Name, uids: &[u32]) -> bool
    ensures { result ≡ list_all (λ uid. is_some (stamp_at uid (list_of mailbox.now client.now))) uids.now }
{
    uids.iter()
        .all(|uid| mailbox.is_listed(*client, *uid).is_some())
}

fn may_pull(holdings: &Holdings, upto: u64, letters: &[(Name, Message)]) -> bool
    ensures { result ≡ is_allowed (said holdings.now) (entry.Pull upto letters.now) }
{
    holdings.pulled() < upto
        && upto <= LAST_MAIL
        && !letters.is_empty()
        && letters.len() <= MOST_LETTERS
        && are_live(holdings, letters)
}

/// Whether the mailbox of each letter lives.
fn are_live(holdings: &Holdings, letters: &[(Name, Message)]) -> bool
    ensures { result ≡ are_live (said holdings.now) letters.now }
{
    letters.iter().all(|letter| is_mailbox(holdings, &letter.0))
}
