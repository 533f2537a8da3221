//! What a session is in.

ghost use Rattle.std.specs.Prelude.{◌≡◌};
ghost use Rattle.pc_session.specs.States.{client_of, reach_box, reach_named, reach_of, reach_user, refusal_by, user_of};
ghost use Rattle.pc_session.specs.declared.needs.Needs.TheVariants as needs;

use crate::needs::Needs;
use pc_base::{Name, Refusal};
use pc_mailbox::Shown;
use pc_request::Request;

/// Who speaks in a session.
#[derive(Clone, Copy)]
pub enum Who {
    /// Nobody has logged in.
    Nobody,
    /// A user at the console, without a client.
    Console {
        user: Name,
    },
    /// A client of a user, with the number that its LOGIN drew.
    Client {
        user: Name,
        client: Name,
        number: u64,
    },
}

/// Whom a request reaches.
#[derive(Clone, Copy)]
pub enum Reach {
    /// Nobody: the session answers alone.
    Nobody,
    /// The account of a user.
    Account(Name),
}

/// What a session is in.
#[derive(Drop)]
pub struct SessionState {
    pub who: Who,
    /// The mailbox that is selected.
    pub selected: Option<Name>,
    /// What the last list of changes told, since the mailbox was selected.
    pub shown: Shown,
}

impl Who {
    /// The user, where one is logged in.
    pub fn user(&self) -> Option<Name>
        ensures { result ≡ user_of self.now }
    {
        match self {
            Who::Nobody => None,
            Who::Console { user } => Some(*user),
            Who::Client { user, .. } => Some(*user),
        }
    }

    /// The client, where the session has one.
    pub fn client(&self) -> Option<Name>
        ensures { result ≡ client_of self.now }
    {
        match self {
            Who::Nobody => None,
            Who::Console { .. } => None,
            Who::Client { client, .. } => Some(*client),
        }
    }
}

impl SessionState {
    /// Whom a request reaches.
    pub fn reach(&self, request: &Request) -> Reach
        ensures { result ≡ reach_of self.now request.now }
    {
        match Needs::of(request) {
            Needs::Nothing | Needs::NotBuilt => Reach::Nobody,
            Needs::NoLogin => self.reach_named(request),
            Needs::Login => self.reach_user(),
            Needs::Mailbox => self.reach_box(),
        }
    }

    // The account of the user that LOGIN names.
    fn reach_named(&self, request: &Request) -> Reach
        ensures { result ≡ reach_named self.now request.now }
    {
        match request {
            Request::Login { user, .. } if self.who.user().is_none() => Reach::Account(*user),
            _ => Reach::Nobody,
        }
    }

    fn reach_user(&self) -> Reach
        ensures { result ≡ reach_user (user_of self.now.who) }
    {
        match self.who.user() {
            None => Reach::Nobody,
            Some(user) => Reach::Account(user),
        }
    }

    // Without a selected mailbox only a session with a client reaches the account.
    fn reach_box(&self) -> Reach
        ensures { result ≡ reach_box self.now }
    {
        if self.selected.is_none() && self.who.client().is_none() {
            return Reach::Nobody;
        }
        self.reach_user()
    }

    /// The refusal of a request with these needs, by the session alone.
    pub(crate) fn refusal(&self, needs: Needs) -> Option<Refusal>
        ensures { result ≡ refusal_by needs self.now }
    {
        match needs {
            Needs::Nothing => None,
            Needs::NotBuilt => Some(Refusal::UnknownOperation),
            Needs::NoLogin => {
                self.who.user()?;
                Some(Refusal::AlreadyLoggedIn)
            }
            Needs::Login => {
                match self.who.user() {
                    None => Some(Refusal::NotLoggedIn),
                    Some(_) => None,
                }
            }
            Needs::Mailbox => self.box_refusal(),
        }
    }

    fn box_refusal(&self) -> Option<Refusal>
        ensures { result ≡ refusal_by needs.Mailbox self.now }
    {
        if self.who.user().is_none() {
            return Some(Refusal::NotLoggedIn);
        }
        if self.selected.is_none() {
            return Some(Refusal::NoMailboxSelected);
        }
        None
    }
}
