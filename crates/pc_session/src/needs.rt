//! What a request needs of its session.

ghost use Rattle.std.specs.Prelude.{◌≡◌};
ghost use Rattle.pc_session.specs.States.{needs_of};

use pc_request::Request;

/// What an operation needs of the session.
#[derive(Clone, Copy, Debug, PartialEq, Eq)]
pub enum Needs {
    /// Nothing.
    Nothing,
    /// That nobody has logged in.
    NoLogin,
    /// That somebody has logged in.
    Login,
    /// That a mailbox is selected, too.
    Mailbox,
    /// The operation isn't built yet.
    NotBuilt,
}

impl Needs {
    /// What the request needs.
    #[tactic(auto, unfolding(crate::specs::States::needs_of))]
    pub fn of(request: &Request) -> Needs
        ensures { result ≡ needs_of request.now }
    {
        match request {
            Request::SendVersion { .. } | Request::Help | Request::Logout => Needs::Nothing,
            Request::Login { .. } => Needs::NoLogin,
            Request::SetPassword { .. }
            | Request::ListClients
            | Request::CreateClient { .. }
            | Request::DeleteClient { .. }
            | Request::ResetClient { .. }
            | Request::ListMailboxes
            | Request::CreateMailbox { .. }
            | Request::DeleteMailbox { .. }
            | Request::ResetMailbox { .. }
            | Request::SelectMailbox { .. }
            | Request::DeleteSubscription { .. } => Needs::Login,
            Request::ExpungeMailbox
            | Request::FetchDescriptors { .. }
            | Request::FetchChangedDescriptors { .. }
            | Request::ResetDescriptors { .. }
            | Request::FetchHeaders { .. }
            | Request::FetchMessage { .. }
            | Request::CopyMessage { .. }
            | Request::SetMessageFlag { .. } => Needs::Mailbox,
            Request::SelectBoard { .. }
            | Request::ListAddresses { .. }
            | Request::CreateAddress { .. }
            | Request::DeleteAddress { .. }
            | Request::ListSubscriptions
            | Request::ListAvailableSubscriptions
            | Request::CreateSubscription { .. }
            | Request::ResetSubscription { .. }
            | Request::SendMessage => Needs::NotBuilt,
        }
    }
}
