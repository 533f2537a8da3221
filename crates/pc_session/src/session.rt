//! A session: what it answers, and what it keeps.

ghost use Rattle.std.specs.Prelude.{◌≡◌, ◌+◌, ◌^◌, ◌<◌, ◌≤◌, false, None, Some, [], MatchOption};
ghost use Rattle.pc_base.specs.declared.refusal.Refusal.TheVariants.{BadUserOrPassword};
ghost use Rattle.pc_reply.specs.declared.head.Head.TheVariants as head;
ghost use Rattle.pc_request.specs.Request.{IsWritable};
ghost use Rattle.pc_session.specs.Desk.{EndsAt};
ghost use Rattle.pc_session.specs.Repository.{Replies, answer_alone, plain};
ghost use Rattle.pc_session.specs.States.{reach_of, user_of};
ghost use Rattle.pc_session.specs.Turn.{Heard, Keeps, Turn, begun};
ghost use Rattle.pc_session.specs.declared.state.Reach.TheVariants as reach;
ghost use Rattle.pc_session.specs.declared.state.Who.TheVariants as who;

use crate::access::DeskAccess;
use crate::answered::{Failure, plain_reply};
use crate::answering::alone;
use crate::attending::{open, stale};
use crate::receipts::Receipts;
use crate::state::{Reach, SessionState, Who};
use pc_base::{Name, Refusal};
use pc_mailbox::Shown;
use pc_reply::{Head, Reply};
use pc_request::Request;
use std::alloc::Global;
use std::marker::Model;

/// One session of a connection, of a terminal or at the console. It keeps what it is in, the receipts of its
/// changes, and its last reply.
#[derive(Drop)]
pub struct Session {
    pub(crate) state: SessionState,
    pub(crate) receipts: Receipts,
    pub(crate) answered: u64,
    pub(crate) heard: Option<Reply>,
    pub(crate) asked: Option<(Request, bool)>,
}

impl Model for Session {
    ghost use Rattle.pc_session.specs.Turn.{SessionValue};

    ghost Value = { SessionValue };

    ghost view = { λ s. record { state = s.state; receipts = s.receipts; answered = s.answered; heard = s.heard; asked = s.asked } };
}

impl Session {
    /// A session in which nobody has logged in.
    pub fn new(alloc: Global) -> Session
        ensures { result ≡ begun (record { who = who.Nobody; selected = None; shown = [] }) }
    {
        Session::of(alloc, Who::Nobody)
    }

    /// A session of a user at the console: logged in, without a client.
    pub fn console(alloc: Global, user: Name) -> Session
        ensures { result ≡ begun (record { who = who.Console user; selected = None; shown = [] }) }
    {
        Session::of(alloc, Who::Console { user })
    }

    fn of(alloc: Global, who: Who) -> Session
        ensures { result ≡ begun (record { who = who; selected = None; shown = [] }) }
    {
        Session {
            state: SessionState {
                who,
                selected: None,
                shown: Shown::new(alloc),
            },
            receipts: Receipts::new(alloc),
            answered: 0,
            heard: None,
            asked: None,
        }
    }

    /// The user of a session that is logged in.
    pub fn user(&self) -> Option<Name>
        ensures { result ≡ user_of self.now.state.who }
    {
        self.state.who.user()
    }

    /// Whom a request reaches.
    pub fn reach(&self, request: &Request) -> Reach
        ensures { result ≡ reach_of self.now.state request.now }
    {
        self.state.reach(request)
    }

    /// Answers a request that reaches nobody. 500 comes only in place of the list of HELP.
    pub fn alone(&mut self, alloc: Global, request: &Request) -> Reply
        requires { reach_of self.old.state request.now ≡ reach.Nobody }
        ensures reply { Replies (answer_alone self.old.state request.now) result }
        ensures device { result.head ≡ head.DeviceFailed → ⊥ }
        ensures heard { Heard request.now false result self.old self.new }
        ensures keeps { Keeps self.old self.new }
    {
        let answered = alone(alloc, &self.state, request);
        self.conclude(alloc, request, answered)
    }

    /// Answers a request that reaches a user without a desk. Nothing changes.
    pub fn no_desk(&mut self, alloc: Global) -> Reply
        ensures reply { result ≡ plain (head.Refused BadUserOrPassword) }
        ensures same { self.new ≡ self.old }
    {
        plain_reply(alloc, &Head::Refused(Refusal::BadUserOrPassword))
    }

    /// Answers a request that reaches the account of this desk's user. A refusal by the session's state opens nothing
    /// and takes no memory. 500 leaves all as it was, but that the store may have been opened again or be broken now,
    /// and that a number that LOGIN drew for a client that was to be made stays drawn. 501 comes where the disk failed:
    /// the entry is in doubt or isn't made. 502 tells the last change of which the session was told, where the history
    /// lacks it, or where a broken store couldn't be read again.
    pub fn with_account<K: DeskAccess>(
        &mut self,
        alloc: Global,
        desk: &mut K,
        request: &Request,
    ) -> Reply
        requires reach { reach_of self.old.state request.now ≡ reach.Account (K.user desk.old) }
        requires writable { IsWritable request.now }
        ensures turn { Turn K.tells (K.user desk.old) request.now (K.told desk.old) self.old result (K.told desk.new) self.new }
        ensures heard { Heard request.now false result self.old self.new }

        // 501 comes only where a device call was to fail; where a broken store is opened again, unless nearly all was
        // read that can be counted.
        ensures device { (K.told desk.old).broken ≡ false → result.head ≡ head.DeviceFailed → K.fails desk.old }
        ensures device_again { K.taken desk.old + 2 ^ 31 < 2 ^ 64 → result.head ≡ head.DeviceFailed → K.fails desk.old }
        ensures ahead { K.fails desk.new → K.fails desk.old }
        ensures taken { K.taken desk.new ≤ K.taken desk.old + 2 ^ 31 }
        ensures faults { (K.told desk.old).faults ≤ (K.told desk.new).faults }
        ensures user { K.user desk.new ≡ K.user desk.old }
    {
        if let Some(why) = stale(desk, &self.state, request) {
            return self.fail(alloc, request, Failure::Refused(why));
        }
        let Reach::Account(user) = self.reach(request) else {
            unreachable!()
        };
        if let Err(failure) = open(alloc, desk, self.pass_number(&user)) {
            return self.fail(alloc, request, failure);
        }
        self.attend(alloc, desk, &user, request)
    }

    /// Ends the session: where it is its client's latest, that isn't live any more.
    pub fn end<K: DeskAccess>(&mut self, desk: &mut K)
        requires { user_of self.old.state.who ≡ Some (K.user desk.old) }
        ensures ends { EndsAt self.old.state.who (K.told desk.old) (K.told desk.new) }
        ensures same { self.new ≡ self.old }
        ensures ahead { K.fails desk.new → K.fails desk.old }
        ensures taken { K.taken desk.new ≡ K.taken desk.old }
        ensures faults { (K.told desk.old).faults ≤ (K.told desk.new).faults }
        ensures user { K.user desk.new ≡ K.user desk.old }
    {
        if let Who::Client { client, number, .. } = &self.state.who {
            desk.release(*client, *number);
        }
    }

    /// The receipts of its changes, in order.
    pub fn receipts(self) -> Receipts
        ensures { result ≡ self.receipts }
    {
        let Session { receipts, .. } = self;
        receipts
    }

    /// How many replies it gave, modulo 2^64.
    pub fn answered(&self) -> u64
        ensures { result ≡ self.now.answered }
    {
        self.answered
    }

    /// The last reply that it gave.
    pub fn heard(&self) -> Option<&Reply>
        ensures { MatchOption result (self.now.heard ≡ None) (λ reply. self.now.heard ≡ Some reply.now) }
    {
        self.heard.as_ref()
    }

    /// The request that it answered last, and whether a body was handed in with it.
    pub fn asked(&self) -> Option<(Request, bool)>
        ensures { result ≡ self.now.asked }
    {
        self.asked
    }
}
