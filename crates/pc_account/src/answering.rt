//! What an account answers to questions.

ghost use Rattle.std.specs.Prelude.{◌≡◌, map, IfOk};
ghost use Rattle.pc_base.specs.AskFault.{Tells, IsNoMemory};
ghost use Rattle.pc_account_history.specs.History.{History, known};
ghost use Rattle.pc_account_history.specs.Legal.{IsCanonical};
ghost use Rattle.pc_account_holdings.specs.State.{said, StandsFor};
ghost use Rattle.pc_account.specs.Answers.{answered, client_row, row_in, subscription_row, told_at, told_of, IsPlain};
ghost use Rattle.pc_account.specs.declared.answer.Question.TheVariants as question;

use crate::account::Account;
use crate::allowing::{is_client, is_mailbox};
use crate::answer::{
    Answer, ClientRow, ClientRows, MailboxRow, MailboxRows, Question, SubscriptionRow,
    SubscriptionRows,
};
use pc_account_holdings::Holdings;
use pc_base::{AskFault, Memory, Name, Refusal};
use pc_mailbox::{Mailbox, Shown};
use pc_message::{Change, Changes, describe};
use std::alloc::Global;

impl Account {
    /// The answer to a question. Refused is what isn't there: first the client (406), then the
    /// mailbox (409), then the message (412). Memory is wanted only where there is something to list or to lend.
    pub fn answer(&self, alloc: Global, asked: &Question) -> Result<Answer, AskFault>
        ensures exact { Tells (answered (said self.now) asked.now) result }
        ensures memory { IsPlain (answered (said self.now) asked.now) → IsNoMemory result }
        ensures history { (h : History) → StandsFor self.now h → Tells (answered (known h) asked.now) result }
    {
        answer(alloc, &self.holdings, asked)
    }
}

fn answer(alloc: Global, holdings: &Holdings, asked: &Question) -> Result<Answer, AskFault>
    requires { IsCanonical holdings.now.held holdings.now.next }
    ensures told { Tells (answered (said holdings.now) asked.now) result }
    ensures memory { IsPlain (answered (said holdings.now) asked.now) → IsNoMemory result }
{
    match asked {
        Question::Clients => {
            let rows = client_rows(alloc, holdings)?;
            Ok(Answer::Clients(rows))
        }
        Question::Mailboxes => mailboxes(alloc, holdings),
        Question::Alive { mailbox } => alive(holdings, mailbox),
        Question::Descriptors { mailbox, low, high } => {
            descriptors(alloc, holdings, mailbox, *low, *high)
        }
        Question::Changed {
            client,
            mailbox,
            count,
        } => changed(alloc, holdings, client, mailbox, *count),
        Question::Letter { mailbox, uid } => letter(alloc, holdings, mailbox, *uid),
        Question::Subscriptions => {
            let rows = subscription_rows(alloc, holdings)?;
            Ok(Answer::Subscriptions(rows))
        }
    }
}

fn mailboxes(alloc: Global, holdings: &Holdings) -> Result<Answer, AskFault>
    requires { IsCanonical holdings.now.held holdings.now.next }
    ensures told { Tells (answered (said holdings.now) question.Mailboxes) result }
    ensures memory { IsPlain (answered (said holdings.now) question.Mailboxes) → IsNoMemory result }
{
    let rows = mailbox_rows(alloc, holdings)?;
    Ok(Answer::Mailboxes(rows))
}

fn alive(holdings: &Holdings, mailbox: &Name) -> Result<Answer, AskFault>
    ensures told { Tells (answered (said holdings.now) (question.Alive mailbox.now)) result }
    ensures memory { IsPlain (answered (said holdings.now) (question.Alive mailbox.now)) → IsNoMemory result }
{
    if is_mailbox(holdings, mailbox) {
        return Ok(Answer::Yes);
    }
    Err(AskFault::Refused(Refusal::NoSuchMailbox))
}

fn descriptors(
    alloc: Global,
    holdings: &Holdings,
    mailbox: &Name,
    low: u32,
    high: u32,
) -> Result<Answer, AskFault>
    requires { IsCanonical holdings.now.held holdings.now.next }
    ensures told { Tells (answered (said holdings.now) (question.Descriptors mailbox.now low high)) result }
    ensures memory { IsPlain (answered (said holdings.now) (question.Descriptors mailbox.now low high)) → IsNoMemory result }
{
    let Some(holder) = holdings.mailbox(mailbox) else {
        return Err(AskFault::Refused(Refusal::NoSuchMailbox));
    };
    let Ok(descriptors) = holder.descriptors(alloc, low, high) else {
        return Err(AskFault::Memory);
    };
    Ok(Answer::Descriptors(descriptors))
}

fn letter(alloc: Global, holdings: &Holdings, mailbox: &Name, uid: u32) -> Result<Answer, AskFault>
    requires { IsCanonical holdings.now.held holdings.now.next }
    ensures told { Tells (answered (said holdings.now) (question.Letter mailbox.now uid)) result }
    ensures memory { IsPlain (answered (said holdings.now) (question.Letter mailbox.now uid)) → IsNoMemory result }
{
    let Some(holder) = holdings.mailbox(mailbox) else {
        return Err(AskFault::Refused(Refusal::NoSuchMailbox));
    };
    let Some(message) = holder.body(uid) else {
        return Err(AskFault::Refused(Refusal::NoSuchMessage));
    };
    let Ok(copy) = message.copy(alloc) else {
        return Err(AskFault::Memory);
    };
    Ok(Answer::Letter(copy))
}

fn changed(
    alloc: Global,
    holdings: &Holdings,
    client: &Name,
    mailbox: &Name,
    count: u32,
) -> Result<Answer, AskFault>
    requires { IsCanonical holdings.now.held holdings.now.next }
    ensures told { Tells (answered (said holdings.now) (question.Changed client.now mailbox.now count)) result }
    ensures memory { IsPlain (answered (said holdings.now) (question.Changed client.now mailbox.now count)) → IsNoMemory result }
{
    if !is_client(holdings, client) {
        return Err(AskFault::Refused(Refusal::NoSuchClient));
    }
    let Some(holder) = holdings.mailbox(mailbox) else {
        return Err(AskFault::Refused(Refusal::NoSuchMailbox));
    };
    let Ok(shown) = holder.changed(alloc, *client, count) else {
        return Err(AskFault::Memory);
    };
    let Ok(changes) = changes_of(alloc, holder, &shown) else {
        return Err(AskFault::Memory);
    };
    Ok(Answer::Changed(changes, shown))
}

/// What is told of each of these uids: its descriptor, or that the message is gone.
fn changes_of(alloc: Global, mailbox: &Mailbox, shown: &Shown) -> Result<Changes, Memory>
    ensures { IfOk result (λ changes. changes ≡ map (told_of mailbox.now) shown.now) }
{
    let mut changes = Changes::new(alloc);
    for listed in shown.as_slice() {
        changes.push(change_of(alloc, mailbox, listed.uid)?)?;
    }
    Ok(changes)
}

fn change_of(alloc: Global, mailbox: &Mailbox, uid: u32) -> Result<Change, Memory>
    ensures { IfOk result (λ change. change ≡ told_at uid mailbox.now) }
{
    let Some(flags) = mailbox.live(uid) else {
        return Ok(Change::Expunged(uid));
    };
    let Some(message) = mailbox.body(uid) else {
        return Ok(Change::Expunged(uid));
    };
    let descriptor = describe(alloc, message, uid, flags)?;
    Ok(Change::Present(descriptor))
}

fn client_rows(alloc: Global, holdings: &Holdings) -> Result<ClientRows, Memory>
    ensures { IfOk result (λ rows. rows ≡ map client_row holdings.now.held.clients) }
{
    let mut rows = ClientRows::new(alloc);
    for (name, birth) in holdings.clients().iter() {
        rows.push(ClientRow {
            name: *name,
            birth: *birth,
        })?;
    }
    Ok(rows)
}

fn mailbox_rows(alloc: Global, holdings: &Holdings) -> Result<MailboxRows, Memory>
    ensures { IfOk result (λ rows. rows ≡ map row_in holdings.now.held.live) }
{
    let mut rows = MailboxRows::new(alloc);
    for (name, mailbox) in holdings.live().table().iter() {
        rows.push(MailboxRow {
            name: *name,
            live: mailbox.count(),
            highest: mailbox.highest(),
        })?;
    }
    Ok(rows)
}

fn subscription_rows(alloc: Global, holdings: &Holdings) -> Result<SubscriptionRows, Memory>
    ensures { IfOk result (λ rows. rows ≡ map subscription_row holdings.now.held.subscriptions) }
{
    let mut rows = SubscriptionRows::new(alloc);
    for (board, mark) in holdings.subscriptions().iter() {
        rows.push(SubscriptionRow {
            board: *board,
            mark: *mark,
        })?;
    }
    Ok(rows)
}
