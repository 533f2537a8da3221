//! Requests that ask.

ghost use Rattle.std.specs.Prelude.{◌≡◌, false, map, IfOk};
ghost use Rattle.std.specs.List.{flat_map};
ghost use Rattle.pc_account_history.specs.History.{known};
ghost use Rattle.pc_account.specs.Answers.{answered as answers};
ghost use Rattle.pc_account.specs.declared.answer.Question.TheVariants as question;
ghost use Rattle.pc_reply.specs.Items.{change_lines};
ghost use Rattle.pc_request.specs.Operation.{operations, word_of};
ghost use Rattle.pc_session.specs.Answering.{Tells};
ghost use Rattle.pc_session.specs.Lists.{client_lines, mailbox_lines, mode_of, row_line};
ghost use Rattle.pc_session.specs.Repository.{asks, headed, listed, replied, selects, tells, told};

use crate::access::{DeskAccess, Latest};
use crate::answered::{Answered, Failure, Move, plainly, with_lines};
use crate::state::SessionState;
use pc_account::{Answer, ClientRow, MailboxRow, Question};
use pc_base::{Line, Lines, Memory, Name, Refusal};
use pc_message::Change;
use pc_reply::{Head, Mode, client_line, counted_line, push_change};
use pc_request::Operation;
use std::alloc::Global;

/// Tells what the account answers to a question.
pub(crate) fn ask<K: DeskAccess>(
    alloc: Global,
    desk: &K,
    state: &SessionState,
    question: &Question,
) -> Result<Answered, Failure>
    requires { (K.told desk.now).broken ≡ false }
    ensures { Tells (asks (K.told desk.now) state.now question.now) state.now result }
{
    let answer = desk.account().answer(alloc, question)?;
    tell(alloc, state, answer)
}

// Tells an answer.
fn tell(alloc: Global, state: &SessionState, answer: Answer) -> Result<Answered, Failure>
    ensures { Tells (told state.now answer) state.now result }
{
    match answer {
        Answer::Clients(_) => Err(Failure::Refused(Refusal::UnknownOperation)),
        Answer::Subscriptions(_) => Err(Failure::Refused(Refusal::UnknownOperation)),
        Answer::Mailboxes(rows) => {
            let lines = lines_of_mailboxes(alloc, rows.as_slice())?;
            with_lines(alloc, &Head::ListFollows, lines, Move::Stays)
        }
        Answer::Yes => Ok(plainly(alloc, &Head::Ok, Move::Stays)),
        Answer::Descriptors(changes) => {
            let lines = lines_of_changes(alloc, changes.as_slice())?;
            with_lines(alloc, &Head::ListFollows, lines, Move::Stays)
        }
        Answer::Changed(changes, shown) => {
            let lines = lines_of_changes(alloc, changes.as_slice())?;
            with_lines(alloc, &Head::ListFollows, lines, Move::Shows { shown })
        }
        Answer::Letter(message) => {
            with_lines(
                alloc,
                &Head::MessageFollows,
                message.into_lines(),
                Move::Stays,
            )
        }
    }
}

/// Tells the header of a message.
pub(crate) fn header<K: DeskAccess>(
    alloc: Global,
    desk: &K,
    state: &SessionState,
    mailbox: &Name,
    uid: u32,
) -> Result<Answered, Failure>
    requires { (K.told desk.now).broken ≡ false }
    ensures { Tells (tells state.now (headed (answers (known (K.told desk.now).history) (question.Letter mailbox.now uid)))) state.now result }
{
    let question = Question::Letter {
        mailbox: *mailbox,
        uid,
    };
    let answer = desk.account().answer(alloc, &question)?;
    let Answer::Letter(message) = answer else {
        return tell(alloc, state, answer);
    };
    let lines = message.header(alloc)?;
    with_lines(alloc, &Head::MessageFollows, lines, Move::Stays)
}

/// Selects a mailbox that lives.
pub(crate) fn select<K: DeskAccess>(
    alloc: Global,
    desk: &K,
    state: &SessionState,
    mailbox: &Name,
) -> Result<Answered, Failure>
    requires { (K.told desk.now).broken ≡ false }
    ensures { Tells (selects state.now mailbox.now (answers (known (K.told desk.now).history) (question.Alive mailbox.now))) state.now result }
{
    let question = Question::Alive { mailbox: *mailbox };
    let _alive = desk.account().answer(alloc, &question)?;
    let then = Move::Selects { mailbox: *mailbox };
    Ok(plainly(alloc, &Head::Ok, then))
}

/// Lists the clients, each with how it is used.
pub(crate) fn list_clients<K: DeskAccess>(
    alloc: Global,
    desk: &K,
    state: &SessionState,
) -> Result<Answered, Failure>
    requires { (K.told desk.now).broken ≡ false }
    ensures { Tells (replied state.now (listed (client_lines (K.told desk.now).latest (known (K.told desk.now).history).clients))) state.now result }
{
    let answer = desk.account().answer(alloc, &Question::Clients)?;
    let Answer::Clients(rows) = answer else {
        unreachable!()
    };
    let lines = lines_of_clients(alloc, desk, rows.as_slice())?;
    with_lines(alloc, &Head::ListFollows, lines, Move::Stays)
}

fn lines_of_clients<K: DeskAccess>(
    alloc: Global,
    desk: &K,
    rows: &[ClientRow],
) -> Result<Lines, Memory>
    ensures { IfOk result (λ lines. lines ≡ map (row_line (K.told desk.now).latest) rows.now) }
{
    let mut lines = Lines::new(alloc);
    for row in rows {
        let mode = mode(desk.latest(&row.name));
        lines.push(client_line(alloc, &row.name, row.birth, mode)?)?;
    }
    Ok(lines)
}

// How a client is used whose latest session is this.
fn mode(latest: Option<Latest>) -> Mode
    ensures { result ≡ mode_of latest }
{
    match latest {
        Some(latest) if latest.live && latest.batch => Mode::Batch,
        Some(latest) if latest.live => Mode::Interactive,
        _ => Mode::Away,
    }
}

fn lines_of_mailboxes(alloc: Global, rows: &[MailboxRow]) -> Result<Lines, Memory>
    ensures { IfOk result (λ lines. lines ≡ mailbox_lines rows.now) }
{
    let mut lines = Lines::new(alloc);
    for row in rows {
        lines.push(counted_line(alloc, &row.name, row.live, row.highest)?)?;
    }
    Ok(lines)
}

fn lines_of_changes(alloc: Global, changes: &[Change]) -> Result<Lines, Memory>
    ensures { IfOk result (λ lines. lines ≡ flat_map change_lines changes.now) }
{
    let mut lines = Lines::new(alloc);
    for change in changes {
        push_change(alloc, &mut lines, change)?;
    }
    Ok(lines)
}

/// The words of all operations.
pub(crate) fn lines_of_help(alloc: Global) -> Result<Lines, Memory>
    ensures { IfOk result (λ lines. lines ≡ map word_of operations) }
{
    let mut lines = Lines::new(alloc);
    for operation in Operation::all() {
        lines.push(Line::of(alloc, operation.word())?)?;
    }
    Ok(lines)
}
