//! A request at the desk: what is told of the outcome, and what the session keeps.

ghost use Rattle.std.specs.Prelude.{◌≡◌, ◌+◌, ◌^◌, ◌<◌, ◌≤◌, false, None, Some, IfOk, MatchOption};
ghost use Rattle.pc_reply.specs.declared.head.Head.TheVariants as head;
ghost use Rattle.pc_request.specs.Request.{IsWritable};
ghost use Rattle.pc_session.specs.Answering.{Concludes, OnDevice, OpensOr, SeesPass, head_of_failure};
ghost use Rattle.pc_session.specs.Receipts.{is_account_of as is_account, missing, missing_in, number_of_pass, pass_of};
ghost use Rattle.pc_session.specs.Repository.{plain};
ghost use Rattle.pc_session.specs.States.{reach_of, stale as staled, superseded};
ghost use Rattle.pc_session.specs.Turn.{Attended, Heard, Keeps};
ghost use Rattle.pc_session.specs.declared.state.Reach.TheVariants as reach;

use crate::access::DeskAccess;
use crate::answered::{Answered, Failure, plain_reply};
use crate::answering::answer;
use crate::needs::Needs;
use crate::receipts::Receipt;
use crate::session::Session;
use crate::state::{SessionState, Who};
use pc_account_spelling::write_entry;
use pc_base::{Bytes, Name, Refusal, StoreFault, StoreName};
use pc_reply::Reply;
use pc_request::Request;
use std::alloc::Global;

/// The refusal of a request by the session's state: that another session took its client over, or that the client
/// isn't there, and then what the session alone refuses.
pub(crate) fn stale<K: DeskAccess>(
    desk: &K,
    state: &SessionState,
    request: &Request,
) -> Option<Refusal>
    ensures { result ≡ staled (K.told desk.now).latest state.now request.now }
{
    if let Some(why) = superseded(desk, &state.who) {
        return Some(why);
    }
    state.refusal(Needs::of(request))
}

fn superseded<K: DeskAccess>(desk: &K, who: &Who) -> Option<Refusal>
    ensures { result ≡ superseded (K.told desk.now).latest who.now }
{
    let Who::Client { client, number, .. } = who else {
        return None;
    };
    let Some(latest) = desk.latest(client) else {
        return Some(Refusal::NoSuchClient);
    };
    if latest.number == *number {
        return None;
    }
    Some(Refusal::Superseded {
        number: latest.number,
    })
}

/// Opens a broken store again. The number is that of the change that is told as missing where the disk doesn't hold
/// the store any more.
pub(crate) fn open<K: DeskAccess>(alloc: Global, desk: &mut K, number: u64) -> Result<(), Failure>
    ensures opens { OpensOr K.tells number (K.told desk.old) result (K.told desk.new) }
    ensures device { K.taken desk.old + 2 ^ 31 < 2 ^ 64 → OnDevice result (K.fails desk.old) }
    ensures ahead { K.fails desk.new → K.fails desk.old }
    ensures taken { K.taken desk.new ≤ K.taken desk.old + 2 ^ 31 }
    ensures faults { (K.told desk.old).faults ≤ (K.told desk.new).faults }
    ensures user { K.user desk.new ≡ K.user desk.old }
{
    if !desk.is_broken() {
        return Ok(());
    }
    match desk.mend(alloc) {
        Ok(()) => Ok(()),
        Err(StoreFault::Memory) => Err(Failure::Memory),
        Err(StoreFault::Device) => Err(Failure::Device),
        Err(StoreFault::NotMade) => Err(Failure::Missing { number }),
        Err(StoreFault::Malformed { .. }) => Err(Failure::Missing { number }),
    }
}

/// Sees that the history has the change of a receipt.
fn see<K: DeskAccess>(alloc: Global, desk: &K, receipt: &Receipt) -> Result<(), Failure>
    ensures { SeesPass (missing_in (K.told desk.now).history receipt.now) result }
{
    let Some(entry) = desk.kept(receipt.number) else {
        return Err(Failure::Missing {
            number: receipt.number,
        });
    };
    let mut bytes = Bytes::new(alloc);
    write_entry(entry, &mut bytes)?;
    if bytes.as_slice() == receipt.entry.as_slice() {
        return Ok(());
    }
    Err(Failure::Missing {
        number: receipt.number,
    })
}

/// The last receipt of the user's account.
pub(crate) fn pass<'a>(receipts: &'a [Receipt], user: &Name) -> Option<&'a Receipt>
    ensures { MatchOption result (pass_of user.now receipts.now ≡ None) (λ receipt. pass_of user.now receipts.now ≡ Some receipt.now) }
{
    receipts
        .iter()
        .rev()
        .find(|receipt| is_account_of(user, &receipt.owner))
}

fn is_account_of(user: &Name, owner: &StoreName) -> bool
    ensures { result ≡ is_account user.now owner.now }
{
    match owner {
        StoreName::Account { user: other } => other == user,
        _ => false,
    }
}

impl Session {
    // The number of the last change of this account that the session was told of, or 0.
    pub(crate) fn pass_number(&self, user: &Name) -> u64
        ensures { result ≡ number_of_pass user.now self.now.receipts }
    {
        match pass(self.receipts.as_slice(), user) {
            None => 0,
            Some(receipt) => receipt.number,
        }
    }

    // Sees that the history has that change.
    fn see_pass<K: DeskAccess>(&self, alloc: Global, desk: &K, user: &Name) -> Result<(), Failure>
        ensures { SeesPass (missing user.now self.now.receipts (K.told desk.now).history) result }
    {
        match pass(self.receipts.as_slice(), user) {
            None => Ok(()),
            Some(receipt) => see(alloc, desk, receipt),
        }
    }

    // Meets a request at a desk whose store isn't broken.
    pub(crate) fn attend<K: DeskAccess>(
        &mut self,
        alloc: Global,
        desk: &mut K,
        user: &Name,
        request: &Request,
    ) -> Reply
        requires whole { (K.told desk.old).broken ≡ false }
        requires doubt { (K.told desk.old).doubt ≡ None }
        requires user { user.now ≡ K.user desk.old }
        requires reach { reach_of self.old.state request.now ≡ reach.Account user.now }
        requires writable { IsWritable request.now }
        ensures attended { Attended user.now request.now (K.told desk.old) self.old result (K.told desk.new) self.new }
        ensures heard { Heard request.now false result self.old self.new }
        ensures device { result.head ≡ head.DeviceFailed → K.fails desk.old }
        ensures ahead { K.fails desk.new → K.fails desk.old }
        ensures taken { K.taken desk.new ≡ K.taken desk.old }
        ensures faults { (K.told desk.old).faults ≤ (K.told desk.new).faults }
        ensures user { K.user desk.new ≡ K.user desk.old }
    {
        if let Err(failure) = self.see_pass(alloc, desk, user) {
            return self.fail(alloc, request, failure);
        }
        let answered = answer(alloc, desk, &self.state, &mut self.receipts, user, request);
        self.conclude(alloc, request, answered)
    }

    // Gives the reply of what a request came to, and goes on as it says.
    pub(crate) fn conclude(
        &mut self,
        alloc: Global,
        request: &Request,
        outcome: Result<Answered, Failure>,
    ) -> Reply
        requires { IfOk outcome (λ answered. answered.heard ≡ answered.reply) }
        ensures concludes { Concludes outcome self.old.state result self.new.state }
        ensures heard { Heard request.now false result self.old self.new }
        ensures receipts { self.new.receipts ≡ self.old.receipts }
    {
        match outcome {
            Ok(Answered { reply, heard, then }) => {
                self.state.go(alloc, then);
                self.hear(request, heard);
                reply
            }
            Err(failure) => self.fail(alloc, request, failure),
        }
    }

    // Tells a failure. What the session is in stays as it is.
    pub(crate) fn fail(&mut self, alloc: Global, request: &Request, failure: Failure) -> Reply
        ensures reply { result ≡ plain (head_of_failure failure) }
        ensures heard { Heard request.now false result self.old self.new }
        ensures keeps { Keeps self.old self.new }
    {
        let head = failure.head();
        self.hear(request, plain_reply(alloc, &head));
        plain_reply(alloc, &head)
    }

    // Keeps the reply that is given to a request.
    fn hear(&mut self, request: &Request, reply: Reply)
        ensures heard { Heard request.now false reply self.old self.new }
        ensures keeps { Keeps self.old self.new }
    {
        self.answered = self.answered.wrapping_add(1);
        self.heard = Some(reply);
        self.asked = Some((*request, false));
    }
}
