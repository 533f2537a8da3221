//! What an account allows, and what wishes come to.

ghost use Rattle.std.specs.Prelude.{◌≡◌, not, is_none, None, IsTrue, IfOk, IfSome};
ghost use Rattle.pc_base.specs.Name.{inbox};
ghost use Rattle.pc_base.specs.AskFault.{Tells, IsNoMemory};
ghost use Rattle.pc_account_history.specs.Allowed.{is_mailbox, is_client};
ghost use Rattle.pc_account_history.specs.History.{History, known};
ghost use Rattle.pc_tables.specs.Table.{same};
ghost use Rattle.pc_account.specs.declared.wish.Wish.TheVariants as wish;
ghost use Rattle.pc_account_history.specs.Legal.{IsCanonical};
ghost use Rattle.pc_account_spelling.specs.EntryForm.{entry_fits};
ghost use Rattle.pc_account_records.specs.Legal.{accepts};
ghost use Rattle.pc_account_holdings.specs.State.{said, StandsFor, may_follow};
ghost use Rattle.pc_account.specs.Plan.{refused_where, refusal_of, holds, planned, IsWish, IsAtOnce};

use crate::account::Account;
use crate::allowing::{
    any_deleted, has_flag, has_mark, has_message, is_allowed, is_client, is_digest, is_inbox,
    is_mailbox, is_subscribed,
};
use crate::forgetting::forget;
use crate::limits::limit_passed;
use crate::taking::take;
use crate::wish::Wish;
use pc_account_history::Entry;
use pc_account_holdings::Holdings;
use pc_base::{AskFault, Name, Refusal};
use std::alloc::Global;

impl Account {
    /// Whether the entry may come next: it is allowed, and passes no limit.
    pub fn allows(&self, entry: &Entry) -> bool
        ensures held { result ≡ may_follow (said self.now) entry.now }
        ensures history { (h : History) → StandsFor self.now h → result ≡ may_follow (known h) entry.now }
    {
        may_follow(&self.holdings, entry)
    }

    /// Whether the mailbox lives.
    pub fn has_mailbox(&self, mailbox: &Name) -> bool
        ensures held { result ≡ is_mailbox (said self.now) mailbox.now }
        ensures history { (h : History) → StandsFor self.now h → result ≡ is_mailbox (known h) mailbox.now }
    {
        is_mailbox(&self.holdings, mailbox)
    }

    /// The entry that a wish comes to, or none where it holds already. Refused is what isn't there,
    /// or is there already, and then the limit that its entry would pass first. Memory is wanted
    /// only to forget and to take. A store that holds the account may commit the entry.
    pub fn plan(&self, alloc: Global, wish: &Wish) -> Result<Option<Entry>, AskFault>
        requires { IsWish (said self.now) wish.now }
        ensures exact { Tells (planned (said self.now) wish.now) result }
        ensures allowed { IfOk result (λ plan. IfSome plan (λ entry. IsTrue (may_follow (said self.now) entry))) }
        ensures accepted { IfOk result (λ plan. IfSome plan (λ entry. IsTrue (accepts self.now entry))) }
        ensures memory { IsAtOnce wish.now → IsNoMemory result }
        ensures history { (h : History) → StandsFor self.now h → Tells (planned (known h) wish.now) result }
    {
        plan(alloc, &self.holdings, wish)
    }
}

fn may_follow(holdings: &Holdings, entry: &Entry) -> bool
    requires { IsCanonical holdings.now.held holdings.now.next }
    ensures { result ≡ may_follow (said holdings.now) entry.now }
{
    is_allowed(holdings, entry) && limit_passed(holdings, entry).is_none()
}

/// What a wish comes to. The entry fits its fields.
fn plan(alloc: Global, holdings: &Holdings, wish: &Wish) -> Result<Option<Entry>, AskFault>
    requires canonical { IsCanonical holdings.now.held holdings.now.next }
    requires wish { IsWish (said holdings.now) wish.now }
    ensures exact { Tells (planned (said holdings.now) wish.now) result }
    ensures fits { IfOk result (λ plan. IfSome plan (λ entry. IsTrue (entry_fits entry))) }
    ensures memory { IsAtOnce wish.now → IsNoMemory result }
{
    match wish {
        Wish::Forget {
            client,
            mailbox,
            low,
            high,
            shown,
        } => forget(
            alloc,
            holdings,
            client,
            mailbox,
            *low,
            *high,
            shown.as_slice(),
        ),
        Wish::Take { mails, room } => take(alloc, holdings, mails.as_slice(), *room),
        _ => settle(holdings, wish),
    }
}

/// What a wish comes to that is settled without memory.
fn settle(holdings: &Holdings, wish: &Wish) -> Result<Option<Entry>, AskFault>
    requires canonical { IsCanonical holdings.now.held holdings.now.next }
    requires wish { IsWish (said holdings.now) wish.now }
    requires at_once { IsAtOnce wish.now }
    ensures exact { Tells (planned (said holdings.now) wish.now) result }
    ensures fits { IfOk result (λ plan. IfSome plan (λ entry. IsTrue (entry_fits entry))) }
    ensures memory { IsNoMemory result }
{
    if let Some(refusal) = refusal_of(holdings, wish) {
        return Err(AskFault::Refused(refusal));
    }
    if holds(holdings, wish) {
        return Ok(None);
    }
    let entry = wish.entry();
    if let Some(limit) = limit_passed(holdings, &entry) {
        return Err(AskFault::Refused(Refusal::LimitReached { limit }));
    }
    Ok(Some(entry))
}

/// The first thing that a wish needs and that isn't there, or that is there already.
fn refusal_of(holdings: &Holdings, wish: &Wish) -> Option<Refusal>
    requires { IsCanonical holdings.now.held holdings.now.next }
    ensures { result ≡ refusal_of (said holdings.now) wish.now }
{
    match wish {
        Wish::MakeMailbox { mailbox } => {
            refused_where(is_mailbox(holdings, mailbox), Refusal::MailboxExists)
        }
        Wish::DropMailbox { mailbox } => refusal_of_drop(holdings, mailbox),
        Wish::Flag { mailbox, uid, .. } => refusal_of_message(holdings, mailbox, *uid),
        Wish::Expunge { mailbox } => {
            refused_where(!is_mailbox(holdings, mailbox), Refusal::NoSuchMailbox)
        }
        Wish::Copy {
            mailbox,
            uid,
            target,
        } => refusal_of_copy(holdings, mailbox, *uid, target),
        Wish::MakeClient { client } => {
            refused_where(is_client(holdings, client), Refusal::ClientExists)
        }
        Wish::DropClient { client } => {
            refused_where(!is_client(holdings, client), Refusal::NoSuchClient)
        }
        Wish::ResetClient { client } => {
            refused_where(!is_client(holdings, client), Refusal::NoSuchClient)
        }
        Wish::ResetMailbox { client, mailbox } => refusal_of_list(holdings, client, mailbox),
        Wish::Forget {
            client,
            mailbox,
            ..
        } => refusal_of_list(holdings, client, mailbox),
        Wish::Take { .. } => None,
        Wish::Password { .. } => None,
        Wish::Subscribe { board } => {
            refused_where(is_subscribed(holdings, board), Refusal::AlreadySubscribed)
        }
        Wish::Unsubscribe { board } => {
            refused_where(!is_subscribed(holdings, board), Refusal::NotSubscribed)
        }
        Wish::Mark { board, .. } => {
            refused_where(!is_subscribed(holdings, board), Refusal::NotSubscribed)
        }
    }
}

fn refused_where(wrong: bool, refusal: Refusal) -> Option<Refusal>
    ensures { result ≡ refused_where wrong refusal None }
{
    if wrong {
        return Some(refusal);
    }
    None
}

fn refusal_of_drop(holdings: &Holdings, mailbox: &Name) -> Option<Refusal>
    ensures { result ≡ refused_where (not (is_mailbox (said holdings.now) mailbox.now)) Refusal.NoSuchMailbox (refused_where (same mailbox.now inbox) Refusal.ReadOnly None) }
{
    if !is_mailbox(holdings, mailbox) {
        return Some(Refusal::NoSuchMailbox);
    }
    refused_where(is_inbox(mailbox), Refusal::ReadOnly)
}

/// The refusal where the mailbox or the message isn't there.
fn refusal_of_message(holdings: &Holdings, mailbox: &Name, uid: u32) -> Option<Refusal>
    requires { IsCanonical holdings.now.held holdings.now.next }
    ensures { result ≡ refused_where (not (is_mailbox (said holdings.now) mailbox.now)) Refusal.NoSuchMailbox (refused_where (is_none ((said holdings.now).kept mailbox.now uid)) Refusal.NoSuchMessage None) }
{
    if !is_mailbox(holdings, mailbox) {
        return Some(Refusal::NoSuchMailbox);
    }
    refused_where(!has_message(holdings, mailbox, uid), Refusal::NoSuchMessage)
}

fn refusal_of_copy(holdings: &Holdings, mailbox: &Name, uid: u32, target: &Name) -> Option<Refusal>
    requires { IsCanonical holdings.now.held holdings.now.next }
    ensures { result ≡ refusal_of (said holdings.now) (wish.Copy mailbox.now uid target.now) }
{
    if !is_mailbox(holdings, mailbox) {
        return Some(Refusal::NoSuchMailbox);
    }
    if !has_message(holdings, mailbox, uid) {
        return Some(Refusal::NoSuchMessage);
    }
    refused_where(!is_mailbox(holdings, target), Refusal::NoSuchMailbox)
}

/// The refusal where the client or the mailbox isn't there.
pub fn refusal_of_list(holdings: &Holdings, client: &Name, mailbox: &Name) -> Option<Refusal>
    ensures { result ≡ refused_where (not (is_client (said holdings.now) client.now)) Refusal.NoSuchClient (refused_where (not (is_mailbox (said holdings.now) mailbox.now)) Refusal.NoSuchMailbox None) }
{
    if !is_client(holdings, client) {
        return Some(Refusal::NoSuchClient);
    }
    refused_where(!is_mailbox(holdings, mailbox), Refusal::NoSuchMailbox)
}

/// Whether a wish holds already that needs no memory.
fn holds(holdings: &Holdings, wish: &Wish) -> bool
    requires canonical { IsCanonical holdings.now.held holdings.now.next }
    requires wish { IsWish (said holdings.now) wish.now }
    requires at_once { IsAtOnce wish.now }
    ensures { result ≡ holds (said holdings.now) wish.now }
{
    match wish {
        Wish::Flag {
            mailbox,
            uid,
            flag,
            on,
        } => has_flag(holdings, mailbox, *uid, *flag, *on),
        Wish::Expunge { mailbox } => !any_deleted(holdings, mailbox),
        Wish::Password { digest } => is_digest(holdings, digest),
        Wish::Mark { board, uid } => has_mark(holdings, board, *uid),
        _ => false,
    }
}
