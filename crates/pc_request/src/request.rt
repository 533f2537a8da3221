//! Requests.

ghost use Rattle.std.specs.Prelude.{◌≡◌, ◌+◌, ◌≤◌, ◌++◌, [], ◌∷◌, length, IfOk, IfErr};
ghost use Rattle.pc_base.specs.Stream.{HasCause, WritesAll};
ghost use Rattle.pc_wire.specs.Lines.{IsSpelling};
ghost use Rattle.pc_request.specs.Request.{call_of, IsRequest, line_of, IsWritable};
ghost use Rattle.pc_request.specs.Fault.{fault_of};
ghost use Rattle.pc_request.specs.declared.request.Request.{Request};
ghost use Rattle.pc_request.specs.declared.request.RequestFault.{RequestFault};

use crate::operation::Operation;
use crate::reading::read_arguments;
use crate::text::LINE_ROOM;
use crate::writing::text_of;
use pc_base::{Failed, Name, Password, ShortText, Sink, write_all};

/// A request of a client.
#[derive(Clone, Copy)]
pub enum Request {
    SendVersion {
        version: u32,
    },
    Help,
    Login {
        user: Name,
        password: Password,
        client: Name,
        create: bool,
        batch: bool,
    },
    Logout,
    SetPassword {
        present: Password,
        next: Password,
    },
    ListClients,
    CreateClient {
        client: Name,
    },
    DeleteClient {
        client: Name,
    },
    ResetClient {
        client: Name,
    },
    ListMailboxes,
    CreateMailbox {
        mailbox: Name,
    },
    DeleteMailbox {
        mailbox: Name,
    },
    ResetMailbox {
        mailbox: Name,
    },
    /// Selects an own mailbox.
    SelectMailbox {
        mailbox: Name,
    },
    /// Selects a board: the same operation, with a plus sign before the name.
    SelectBoard {
        board: Name,
    },
    ExpungeMailbox,
    ListAddresses {
        mailbox: Name,
    },
    CreateAddress {
        mailbox: Name,
        address: Name,
    },
    DeleteAddress {
        address: Name,
    },
    ListSubscriptions,
    ListAvailableSubscriptions,
    CreateSubscription {
        board: Name,
    },
    DeleteSubscription {
        board: Name,
    },
    ResetSubscription {
        board: Name,
        uid: u32,
    },
    FetchDescriptors {
        low: u32,
        high: u32,
    },
    FetchChangedDescriptors {
        count: u32,
    },
    ResetDescriptors {
        low: u32,
        high: u32,
    },
    FetchHeaders {
        uid: u32,
    },
    FetchMessage {
        uid: u32,
    },
    CopyMessage {
        uid: u32,
        mailbox: Name,
    },
    SetMessageFlag {
        uid: u32,
        flag: u8,
        on: bool,
    },
    SendMessage,
}

/// Why a line is no request.
#[derive(Clone, Copy, Debug, PartialEq, Eq)]
pub enum RequestFault {
    /// It has no word, or the first names no operation.
    Unknown,
    /// The number of arguments is wrong, or the first wrong argument is no password, number, yes or no, or count.
    Arguments,
    /// The first wrong argument is no name.
    BadName,
    /// The first wrong argument is a number, and no flag has it.
    BadFlag,
}

impl Request {
    /// The request that a line spells, without what ends it.
    pub fn read(line: &[u8]) -> Result<Request, RequestFault>
        ensures request { IfOk result (λ request. IsRequest request line.now) }
        ensures every_request { (request : Request) → IsRequest request line.now → result ≡ Ok request }

        ensures fault { IfErr result (λ fault. fault_of line.now ≡ Some fault) }
        ensures every_fault { (fault : RequestFault) → fault_of line.now ≡ Some fault → result ≡ Err fault }

        ensures writable { IfOk result IsWritable }
    {
        let Some((operation, words)) = Operation::called(line) else {
            return Err(RequestFault::Unknown);
        };
        read_arguments(operation, words)
    }

    /// The line that is written for it, without what ends it: the operation in capitals, one space
    /// between words, numbers without leading zeros.
    pub fn line(&self) -> ShortText<LINE_ROOM>
        requires { IsWritable self.now }
        ensures value { result ≡ line_of self.now }
        ensures read { IsRequest self.now result }
        ensures short { length result + 2 ≤ LINE_ROOM }
    {
        text_of(self).finished()
    }

    /// Writes that line, and CR LF. Where it fails, a front of this was written.
    pub fn write<K: Sink>(&self, sink: &mut K) -> Result<(), Failed>
        requires { IsWritable self.now }
        ensures content { WritesAll (K.written sink.old) (K.written sink.new) result (line_of self.now ++ 13 ∷ 10 ∷ []) }
        ensures cause { HasCause (K.faults sink.old) (K.faults sink.new) result }

        // What is written is that one line, and is read as this request.
        ensures spelling { IsSpelling (line_of self.now ++ 13 ∷ 10 ∷ []) (line_of self.now) }
        ensures read { IsRequest self.now (line_of self.now) }
    {
        write_all(sink, text_of(self).ended().bytes())
    }

    /// What it asks for.
    #[tactic(auto, unfolding(crate::specs::Request::call_of))]
    pub fn operation(&self) -> Operation
        ensures { result ≡ (call_of self.now).0 }
    {
        match self {
            Request::SendVersion { .. } => Operation::SendVersion,
            Request::Help => Operation::Help,
            Request::Login { .. } => Operation::Login,
            Request::Logout => Operation::Logout,
            Request::SetPassword { .. } => Operation::SetPassword,
            Request::ListClients => Operation::ListClients,
            Request::CreateClient { .. } => Operation::CreateClient,
            Request::DeleteClient { .. } => Operation::DeleteClient,
            Request::ResetClient { .. } => Operation::ResetClient,
            Request::ListMailboxes => Operation::ListMailboxes,
            Request::CreateMailbox { .. } => Operation::CreateMailbox,
            Request::DeleteMailbox { .. } => Operation::DeleteMailbox,
            Request::ResetMailbox { .. } => Operation::ResetMailbox,
            Request::SelectMailbox { .. } => Operation::SelectMailbox,
            Request::SelectBoard { .. } => Operation::SelectMailbox,
            Request::ExpungeMailbox => Operation::ExpungeMailbox,
            Request::ListAddresses { .. } => Operation::ListAddresses,
            Request::CreateAddress { .. } => Operation::CreateAddress,
            Request::DeleteAddress { .. } => Operation::DeleteAddress,
            Request::ListSubscriptions => Operation::ListSubscriptions,
            Request::ListAvailableSubscriptions => Operation::ListAvailableSubscriptions,
            Request::CreateSubscription { .. } => Operation::CreateSubscription,
            Request::DeleteSubscription { .. } => Operation::DeleteSubscription,
            Request::ResetSubscription { .. } => Operation::ResetSubscription,
            Request::FetchDescriptors { .. } => Operation::FetchDescriptors,
            Request::FetchChangedDescriptors { .. } => Operation::FetchChangedDescriptors,
            Request::ResetDescriptors { .. } => Operation::ResetDescriptors,
            Request::FetchHeaders { .. } => Operation::FetchHeaders,
            Request::FetchMessage { .. } => Operation::FetchMessage,
            Request::CopyMessage { .. } => Operation::CopyMessage,
            Request::SetMessageFlag { .. } => Operation::SetMessageFlag,
            Request::SendMessage => Operation::SendMessage,
        }
    }
}
