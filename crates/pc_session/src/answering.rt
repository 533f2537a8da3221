//! What a session answers to a request: alone, and at a desk whose store isn't broken.

ghost use Rattle.std.specs.Prelude.{◌≡◌, ◌≤◌, false, None};
ghost use Rattle.pc_request.specs.Request.{IsWritable};
ghost use Rattle.pc_session.specs.Answering.{AnswersAlone, Comes, OnDevice};
ghost use Rattle.pc_session.specs.Repository.{answer_alone, answer_of};
ghost use Rattle.pc_session.specs.Tasks.{WishesRightly, outcome_of};

use crate::access::DeskAccess;
use crate::answered::{Answered, Failure, Move, plainly, with_lines};
use crate::asking::{ask, header, lines_of_help, list_clients, select};
use crate::changing::{change, set_password, take_away};
use crate::logging_in::log_in;
use crate::needs::Needs;
use crate::receipts::Receipts;
use crate::state::SessionState;
use crate::task::{Task, task_of};
use pc_base::{Name, Refusal};
use pc_reply::Head;
use pc_request::Request;
use std::alloc::Global;

/// Answers a request that reaches nobody.
#[tactic(auto, unfolding(crate::specs::Repository::answer_alone))]
pub(crate) fn alone(
    alloc: Global,
    state: &SessionState,
    request: &Request,
) -> Result<Answered, Failure>
    ensures { AnswersAlone state.now (answer_alone state.now request.now) result }
{
    match request {
        Request::SendVersion { version: 1 } => Ok(plainly(alloc, &Head::Ok, Move::Stays)),
        Request::SendVersion { .. } => Err(Failure::Refused(Refusal::VersionUnknown)),
        Request::Help => {
            let lines = lines_of_help(alloc)?;
            with_lines(alloc, &Head::ListFollows, lines, Move::Stays)
        }
        Request::Logout => Ok(plainly(alloc, &Head::Closing, Move::Stays)),
        _ => {
            let why = state.refusal(Needs::of(request));
            Err(Failure::Refused(why.unwrap_or(Refusal::UnknownOperation)))
        }
    }
}

/// Answers a request that reaches the account, and that the session's state doesn't refuse.
pub(crate) fn answer<K: DeskAccess>(
    alloc: Global,
    desk: &mut K,
    state: &SessionState,
    receipts: &mut Receipts,
    user: &Name,
    request: &Request,
) -> Result<Answered, Failure>
    requires whole { (K.told desk.old).broken ≡ false }
    requires doubt { (K.told desk.old).doubt ≡ None }
    requires user { user.now ≡ K.user desk.old }
    requires writable { IsWritable request.now }
    ensures comes { Comes user.now (answer_of (K.told desk.old) state.now request.now) (K.told desk.old) state.now receipts.old result (K.told desk.new) receipts.new }
    ensures device { OnDevice result (K.fails desk.old) }
    ensures ahead { K.fails desk.new → K.fails desk.old }
    ensures taken { K.taken desk.new ≡ K.taken desk.old }
    ensures faults { (K.told desk.old).faults ≤ (K.told desk.new).faults }
    ensures user { K.user desk.new ≡ K.user desk.old }
{
    let task = task_of(alloc, state, request)?;
    carry_out(alloc, desk, state, receipts, user, task)
}

fn carry_out<K: DeskAccess>(
    alloc: Global,
    desk: &mut K,
    state: &SessionState,
    receipts: &mut Receipts,
    user: &Name,
    task: Task,
) -> Result<Answered, Failure>
    requires whole { (K.told desk.old).broken ≡ false }
    requires doubt { (K.told desk.old).doubt ≡ None }
    requires user { user.now ≡ K.user desk.old }
    requires wish { WishesRightly task }
    ensures comes { Comes user.now (outcome_of (K.told desk.old) state.now task) (K.told desk.old) state.now receipts.old result (K.told desk.new) receipts.new }
    ensures device { OnDevice result (K.fails desk.old) }
    ensures ahead { K.fails desk.new → K.fails desk.old }
    ensures taken { K.taken desk.new ≡ K.taken desk.old }
    ensures faults { (K.told desk.old).faults ≤ (K.told desk.new).faults }
    ensures user { K.user desk.new ≡ K.user desk.old }
{
    match task {
        Task::LogIn(login) => log_in(alloc, desk, state, receipts, user, &login),
        Task::SetPassword { present, next } => {
            set_password(alloc, desk, state, receipts, user, &present, &next)
        }
        Task::TakeAway { client } => take_away(alloc, desk, state, receipts, user, &client),
        Task::ListClients => list_clients(alloc, desk, state),
        Task::Select { mailbox } => select(alloc, desk, state, &mailbox),
        Task::Header { mailbox, uid } => header(alloc, desk, state, &mailbox, uid),
        Task::Ask(question) => ask(alloc, desk, state, &question),
        Task::Change(wish) => change(alloc, desk, state, receipts, user, &wish),
    }
}
