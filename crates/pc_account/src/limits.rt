//! Which limit an entry would pass first, by what is counted.

ghost use Rattle.std.specs.Prelude.{◌≡◌, ◌+◌, ◌*◌, ◌≤◌, nat_lt, true, is_some, length, map, Some, None, IsTrue, if◌then◌else◌};
ghost use Rattle.std.specs.Map.{lookup};
ghost use Rattle.pc_account_history.specs.declared.entry.Entry.TheVariants as entry;
ghost use Rattle.pc_tables.specs.Table.{same, total};
ghost use Rattle.pc_account_history.specs.Known.{after_entry};
ghost use Rattle.pc_account_history.specs.Allowed.{is_allowed};
ghost use Rattle.pc_account_history.specs.Limits.{listed_count, limit_passed};
ghost use Rattle.pc_account_history.specs.Legal.{IsCanonical};
ghost use Rattle.pc_account_holdings.specs.State.{said};
ghost use Rattle.pc_account.specs.Limits.{limit_where, counts_in, unlisted_in};

use crate::parcels::{Parcels, limit_of_parcels};
use pc_account_history::{Entry, MOST_CHANGES, MOST_CLIENTS, MOST_MAILBOXES, MOST_SUBSCRIPTIONS};
use pc_account_holdings::Holdings;
use pc_base::{LimitWord, Name};
use pc_message::Message;

/// The limit that an allowed entry would pass first.
pub fn limit_passed(holdings: &Holdings, entry: &Entry) -> Option<LimitWord>
    requires canonical { IsCanonical holdings.now.held holdings.now.next }
    requires allowed { IsTrue (is_allowed (said holdings.now) entry.now) }
    ensures { result ≡ limit_passed (said holdings.now) entry.now }
{
    match entry {
        Entry::MakeMailbox { mailbox } => limit_of_names(holdings, mailbox),
        Entry::DropMailbox { mailbox } => {
            limit_of_changes(holdings, growth_of_drop(holdings, mailbox))
        }
        Entry::Flag {
            mailbox,
            uid,
            flag,
            on,
        } => limit_of_changes(
            holdings,
            growth_of_flag(holdings, mailbox, *uid, *flag, *on),
        ),
        Entry::Expunge { mailbox } => {
            limit_of_changes(holdings, growth_of_expunge(holdings, mailbox))
        }
        Entry::MakeClient { client } => limit_of_clients(holdings, client),
        Entry::ResetClient { client } => {
            limit_of_changes(holdings, growth_of_resets(holdings, client))
        }
        Entry::ResetMailbox { client, mailbox } => {
            limit_of_changes(holdings, growth_of_reset(holdings, client, mailbox))
        }
        Entry::Copy {
            mailbox,
            uid,
            target,
        } => limit_of_copied(holdings, mailbox, *uid, target),
        Entry::Pull { upto, letters } => limit_of_pull(holdings, *upto, letters.as_slice()),
        Entry::Subscribe { board } => limit_of_subscriptions(holdings, board),
        _ => None,
    }
}

/// The limit of changes, where it is passed with so many more on the lists.
pub fn limit_of_changes(holdings: &Holdings, growth: u64) -> Option<LimitWord>
    requires { IsCanonical holdings.now.held holdings.now.next }
    ensures { result ≡ limit_where (nat_lt MOST_CHANGES (listed_count (said holdings.now) + growth)) LimitWord.Changes None }
{
    if holdings.changes().saturating_add(growth) > MOST_CHANGES as u64 {
        return Some(LimitWord::Changes);
    }
    None
}

fn limit_of_copied(
    holdings: &Holdings,
    mailbox: &Name,
    uid: u32,
    target: &Name,
) -> Option<LimitWord>
    requires canonical { IsCanonical holdings.now.held holdings.now.next }
    requires allowed { IsTrue (is_allowed (said holdings.now) (entry.Copy mailbox.now uid target.now)) }
    ensures { result ≡ limit_passed (said holdings.now) (entry.Copy mailbox.now uid target.now) }
{
    let message = holdings.mailbox(mailbox)?.body(uid)?;
    limit_of_parcels(holdings, &[(*target, message.size())])
}

fn limit_of_pull(holdings: &Holdings, upto: u64, letters: &[(Name, Message)]) -> Option<LimitWord>
    requires canonical { IsCanonical holdings.now.held holdings.now.next }
    requires allowed { IsTrue (is_allowed (said holdings.now) (entry.Pull upto letters.now)) }
    ensures { result ≡ limit_passed (said holdings.now) (entry.Pull upto letters.now) }
{
    limit_of_parcels(holdings, Parcels::of_letters(letters).as_slice())
}

fn limit_of_names(holdings: &Holdings, mailbox: &Name) -> Option<LimitWord>
    requires canonical { IsCanonical holdings.now.held holdings.now.next }
    requires allowed { IsTrue (is_allowed (said holdings.now) (entry.MakeMailbox mailbox.now)) }
    ensures { result ≡ limit_passed (said holdings.now) (entry.MakeMailbox mailbox.now) }
{
    if is_dropped(holdings, mailbox) {
        return None;
    }
    if holdings.live().count() + holdings.dropped().count() >= MOST_MAILBOXES {
        return Some(LimitWord::Mailboxes);
    }
    None
}

/// Whether the mailbox was dropped and not made again.
fn is_dropped(holdings: &Holdings, mailbox: &Name) -> bool
    ensures { result ≡ is_some (lookup (same mailbox.now) holdings.now.held.dropped) }
{
    holdings.dropped().get(mailbox).is_some()
}

fn limit_of_subscriptions(holdings: &Holdings, board: &Name) -> Option<LimitWord>
    requires { IsTrue (is_allowed (said holdings.now) (entry.Subscribe board.now)) }
    ensures { result ≡ limit_passed (said holdings.now) (entry.Subscribe board.now) }
{
    if holdings.subscriptions().len() >= MOST_SUBSCRIPTIONS {
        return Some(LimitWord::Subscriptions);
    }
    None
}

fn limit_of_clients(holdings: &Holdings, client: &Name) -> Option<LimitWord>
    requires canonical { IsCanonical holdings.now.held holdings.now.next }
    requires allowed { IsTrue (is_allowed (said holdings.now) (entry.MakeClient client.now)) }
    ensures { result ≡ limit_passed (said holdings.now) (entry.MakeClient client.now) }
{
    if holdings.clients().len() >= MOST_CLIENTS {
        return Some(LimitWord::Clients);
    }
    limit_of_changes(holdings, growth_of_client(holdings, client))
}

/// How many changes more the lists have once a flag is set.
fn growth_of_flag(holdings: &Holdings, mailbox: &Name, uid: u32, flag: u8, on: bool) -> u64
    requires canonical { IsCanonical holdings.now.held holdings.now.next }
    requires allowed { IsTrue (is_allowed (said holdings.now) (entry.Flag mailbox.now uid flag on)) }
    ensures { listed_count (after_entry (said holdings.now) (entry.Flag mailbox.now uid flag on)) ≡ listed_count (said holdings.now) + result }
{
    let clients = holdings.clients().len() as u64;
    match holdings.mailbox(mailbox) {
        Some(holder) => clients - holder.takers(uid) as u64,
        None => 0,
    }
}

/// How many changes more the lists have once the messages whose flag 0 is on are taken away.
fn growth_of_expunge(holdings: &Holdings, mailbox: &Name) -> u64
    requires canonical { IsCanonical holdings.now.held holdings.now.next }
    requires allowed { IsTrue (is_allowed (said holdings.now) (entry.Expunge mailbox.now)) }
    ensures { listed_count (after_entry (said holdings.now) (entry.Expunge mailbox.now)) ≡ listed_count (said holdings.now) + result }
{
    match holdings.mailbox(mailbox) {
        Some(holder) => holder.unlisted_deleted(),
        None => 0,
    }
}

/// How many changes more the lists have once a mailbox is deleted.
fn growth_of_drop(holdings: &Holdings, mailbox: &Name) -> u64
    requires canonical { IsCanonical holdings.now.held holdings.now.next }
    requires allowed { IsTrue (is_allowed (said holdings.now) (entry.DropMailbox mailbox.now)) }
    ensures { listed_count (after_entry (said holdings.now) (entry.DropMailbox mailbox.now)) ≡ listed_count (said holdings.now) + result }
{
    match holdings.mailbox(mailbox) {
        Some(holder) => holder.unlisted(),
        None => 0,
    }
}

/// How many changes more the lists have once all that lives in a mailbox is listed for a client.
fn growth_of_reset(holdings: &Holdings, client: &Name, mailbox: &Name) -> u64
    requires canonical { IsCanonical holdings.now.held holdings.now.next }
    requires allowed { IsTrue (is_allowed (said holdings.now) (entry.ResetMailbox client.now mailbox.now)) }
    ensures { listed_count (after_entry (said holdings.now) (entry.ResetMailbox client.now mailbox.now)) ≡ listed_count (said holdings.now) + result }
{
    match holdings.mailbox(mailbox) {
        Some(holder) => holder.unlisted_of(*client),
        None => 0,
    }
}

/// How many changes more the lists have once all that lives is listed for a client.
fn growth_of_resets(holdings: &Holdings, client: &Name) -> u64
    requires canonical { IsCanonical holdings.now.held holdings.now.next }
    requires allowed { IsTrue (is_allowed (said holdings.now) (entry.ResetClient client.now)) }
    ensures { listed_count (after_entry (said holdings.now) (entry.ResetClient client.now)) ≡ listed_count (said holdings.now) + result }
{
    sum_of_unlisted(holdings, client)
}

/// How many changes more the lists have once a client is made.
fn growth_of_client(holdings: &Holdings, client: &Name) -> u64
    requires canonical { IsCanonical holdings.now.held holdings.now.next }
    requires allowed { IsTrue (is_allowed (said holdings.now) (entry.MakeClient client.now)) }
    ensures { listed_count (after_entry (said holdings.now) (entry.MakeClient client.now)) ≡ listed_count (said holdings.now) + result }
{
    sum_of_counts(holdings)
}

/// How many messages live.
fn sum_of_counts(holdings: &Holdings) -> u64
    requires { IsCanonical holdings.now.held holdings.now.next }
    ensures { result ≡ total counts_in holdings.now.held.live }
{
    let mut sum: u64 = 0;
    for mailbox in holdings.live().table().values() {
        sum += mailbox.count() as u64;
    }
    sum
}

/// How many of the messages that live aren't listed for a client.
fn sum_of_unlisted(holdings: &Holdings, client: &Name) -> u64
    requires { IsCanonical holdings.now.held holdings.now.next }
    ensures { result ≡ total (unlisted_in client.now) holdings.now.held.live }
{
    let mut sum: u64 = 0;
    for mailbox in holdings.live().table().values() {
        sum += mailbox.unlisted_of(*client);
    }
    sum
}
