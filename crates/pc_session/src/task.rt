//! What a request asks of the account.

ghost use Rattle.std.specs.Prelude.{◌≡◌, IfOk};
ghost use Rattle.pc_request.specs.Request.{IsWritable};
ghost use Rattle.pc_base.specs.declared.refusal.Refusal.TheVariants.{NoMailboxSelected, NoSuchClient};
ghost use Rattle.pc_session.specs.States.{client_of};
ghost use Rattle.pc_session.specs.Tasks.{FoundOr, IsBoxTask, IsTask, WishesRightly};

use crate::answered::Failure;
use crate::logging_in::Login;
use crate::state::SessionState;
use pc_account::{Question, Wish};
use pc_base::{Name, Password, Refusal};
use pc_request::Request;
use std::alloc::Global;

/// What a request asks of the account.
#[derive(Drop)]
pub enum Task {
    LogIn(Login),
    SetPassword { present: Password, next: Password },
    /// To take a client away that has no live session.
    TakeAway { client: Name },
    ListClients,
    Select { mailbox: Name },
    Header { mailbox: Name, uid: u32 },
    Ask(Question),
    Change(Wish),
}

/// What the request asks of the account, or why the session has no such request. Memory is wanted only to copy the
/// changes that were shown.
#[tactic(auto, unfolding(crate::specs::Repository::answer_of))]
pub(crate) fn task_of(
    alloc: Global,
    state: &SessionState,
    request: &Request,
) -> Result<Task, Failure>
    requires { IsWritable request.now }
    ensures task { IsTask state.now request.now result }
    ensures wish { IfOk result WishesRightly }
{
    let task = match request {
        Request::Login {
            user,
            password,
            client,
            create,
            batch,
        } => Task::LogIn(Login {
            user: *user,
            password: *password,
            client: *client,
            create: *create,
            batch: *batch,
        }),
        Request::SetPassword { present, next } => Task::SetPassword {
            present: *present,
            next: *next,
        },
        Request::ListClients => Task::ListClients,
        Request::DeleteClient { client } => Task::TakeAway { client: *client },
        Request::CreateClient { client } => Task::Change(Wish::MakeClient { client: *client }),
        Request::ResetClient { client } => Task::Change(Wish::ResetClient { client: *client }),
        Request::ListMailboxes => Task::Ask(Question::Mailboxes),
        Request::CreateMailbox { mailbox } => {
            Task::Change(Wish::MakeMailbox { mailbox: *mailbox })
        }
        Request::DeleteMailbox { mailbox } => {
            Task::Change(Wish::DropMailbox { mailbox: *mailbox })
        }
        Request::SelectMailbox { mailbox } => Task::Select { mailbox: *mailbox },
        Request::DeleteSubscription { board } => Task::Change(Wish::Unsubscribe { board: *board }),
        Request::ResetMailbox { mailbox } => {
            Task::Change(Wish::ResetMailbox {
                client: client_of(state)?,
                mailbox: *mailbox,
            })
        }
        _ => {
            let mailbox = mailbox_of(state)?;
            return task_in_box(alloc, state, &mailbox, request);
        }
    };
    Ok(task)
}

// What a request asks of the selected mailbox.
#[tactic(auto, unfolding(crate::specs::Repository::answer_in_box))]
fn task_in_box(
    alloc: Global,
    state: &SessionState,
    mailbox: &Name,
    request: &Request,
) -> Result<Task, Failure>
    requires { IsWritable request.now }
    ensures task { IsBoxTask state.now mailbox.now request.now result }
    ensures wish { IfOk result WishesRightly }
{
    let mailbox = *mailbox;
    let task = match request {
        Request::ExpungeMailbox => Task::Change(Wish::Expunge { mailbox }),
        Request::FetchDescriptors { low, high } => Task::Ask(Question::Descriptors {
            mailbox,
            low: *low,
            high: *high,
        }),
        Request::FetchChangedDescriptors { count } => Task::Ask(Question::Changed {
            client: client_of(state)?,
            mailbox,
            count: *count,
        }),
        Request::ResetDescriptors { low, high } => Task::Change(Wish::Forget {
            client: client_of(state)?,
            mailbox,
            low: *low,
            high: *high,
            shown: state.shown.copied(alloc)?,
        }),
        Request::FetchHeaders { uid } => Task::Header { mailbox, uid: *uid },
        Request::FetchMessage { uid } => Task::Ask(Question::Letter { mailbox, uid: *uid }),
        Request::CopyMessage {
            uid,
            mailbox: target,
        } => Task::Change(Wish::Copy {
            mailbox,
            uid: *uid,
            target: *target,
        }),
        Request::SetMessageFlag { uid, flag, on } => Task::Change(Wish::Flag {
            mailbox,
            uid: *uid,
            flag: *flag,
            on: *on,
        }),
        _ => return Err(Failure::Refused(Refusal::UnknownOperation)),
    };
    Ok(task)
}

// The session's client; a session at the console has none.
fn client_of(state: &SessionState) -> Result<Name, Failure>
    ensures { FoundOr (client_of state.now.who) NoSuchClient result }
{
    match state.who.client() {
        Some(client) => Ok(client),
        None => Err(Failure::Refused(Refusal::NoSuchClient)),
    }
}

fn mailbox_of(state: &SessionState) -> Result<Name, Failure>
    ensures { FoundOr state.now.selected NoMailboxSelected result }
{
    match state.selected {
        Some(mailbox) => Ok(mailbox),
        None => Err(Failure::Refused(Refusal::NoMailboxSelected)),
    }
}
