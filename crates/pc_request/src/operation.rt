//! The operations that a request can name.

ghost use Rattle.std.specs.Prelude.{◌≡◌, ◌≤◌, ◌↔◌, Some, length, map, IfSome, IfNone, MatchOption, IsTrue};
ghost use Rattle.std.specs.Char.{to_ascii_lowercase};
ghost use Rattle.pc_request.specs.Operation.{word_of, operations, operation_named, IsNamed};
ghost use Rattle.pc_wire.specs.Words.{words_of};
ghost use Rattle.pc_request.specs.Fault.{fault_of};
ghost use Rattle.pc_request.specs.Request.{Calls};
ghost use Rattle.pc_request.specs.declared.operation.Operation.{Operation};
ghost use Rattle.pc_request.specs.declared.request.RequestFault.TheVariants as fault;

use crate::lengths::of_length;
use pc_wire::next_word;

/// What a request asks for.
#[derive(Clone, Copy, Debug, PartialEq, Eq)]
pub enum Operation {
    SendVersion,
    Help,
    Login,
    Logout,
    SetPassword,
    ListClients,
    CreateClient,
    DeleteClient,
    ResetClient,
    ListMailboxes,
    CreateMailbox,
    DeleteMailbox,
    ResetMailbox,
    SelectMailbox,
    ExpungeMailbox,
    ListAddresses,
    CreateAddress,
    DeleteAddress,
    ListSubscriptions,
    ListAvailableSubscriptions,
    CreateSubscription,
    DeleteSubscription,
    ResetSubscription,
    FetchDescriptors,
    FetchChangedDescriptors,
    ResetDescriptors,
    FetchHeaders,
    FetchMessage,
    CopyMessage,
    SetMessageFlag,
    SendMessage,
}

static ALL: [Operation; 31] = [
    Operation::SendVersion,
    Operation::Help,
    Operation::Login,
    Operation::Logout,
    Operation::SetPassword,
    Operation::ListClients,
    Operation::CreateClient,
    Operation::DeleteClient,
    Operation::ResetClient,
    Operation::ListMailboxes,
    Operation::CreateMailbox,
    Operation::DeleteMailbox,
    Operation::ResetMailbox,
    Operation::SelectMailbox,
    Operation::ExpungeMailbox,
    Operation::ListAddresses,
    Operation::CreateAddress,
    Operation::DeleteAddress,
    Operation::ListSubscriptions,
    Operation::ListAvailableSubscriptions,
    Operation::CreateSubscription,
    Operation::DeleteSubscription,
    Operation::ResetSubscription,
    Operation::FetchDescriptors,
    Operation::FetchChangedDescriptors,
    Operation::ResetDescriptors,
    Operation::FetchHeaders,
    Operation::FetchMessage,
    Operation::CopyMessage,
    Operation::SetMessageFlag,
    Operation::SendMessage,
];

impl Operation {
    /// All operations, in the order in which HELP lists them.
    #[tactic(auto, unfolding(crate::specs::Operation::operations))]
    pub fn all() -> &'static [Operation]
        ensures { result.now ≡ operations }
    {
        &ALL
    }

    /// The operation that a line's first word names, and what follows that word. None comes where
    /// the line has no word, or its first names no operation. The line is a request where what
    /// follows are the arguments of the operation, as `Request::read` and the readers of arguments
    /// tell.
    #[inline]
    pub fn called(line: &[u8]) -> Option<(Operation, &[u8])>
        ensures { MatchOption result (fault_of line.now ≡ Some fault.Unknown) (λ found. Calls found.0 (words_of found.1.now) (words_of line.now)) }
    {
        let (first, others) = next_word(line)?;
        let operation = Operation::named(first)?;
        Some((operation, others))
    }

    /// The operation that the word names, in capitals or small letters.
    pub fn named(word: &[u8]) -> Option<Operation>
        ensures value { result ≡ operation_named word.now }
        ensures named { IfSome result (λ operation. IsNamed operation word.now) }
        ensures unknown { IfNone result ((operation : Operation) → ¬ IsNamed operation word.now) }
    {
        // Those whose words have the length come first, and are all that can be named so.
        if let Some(operation) = named_among(of_length(word.len()), word) {
            return Some(operation);
        }
        for operation in Operation::all() {
            if is_spelled(word, operation.word()) {
                return Some(*operation);
            }
        }
        None
    }

    /// The word that names it, in capitals.
    #[tactic(auto, unfolding(crate::specs::Operation::word_of))]
    pub fn word(&self) -> &'static [u8]
        ensures value { result.now ≡ word_of self.now }
        ensures short { length result.now ≤ 28 }
    {
        match self {
            Operation::SendVersion => b"SEND-VERSION",
            Operation::Help => b"HELP",
            Operation::Login => b"LOGIN",
            Operation::Logout => b"LOGOUT",
            Operation::SetPassword => b"SET-PASSWORD",
            Operation::ListClients => b"LIST-CLIENTS",
            Operation::CreateClient => b"CREATE-CLIENT",
            Operation::DeleteClient => b"DELETE-CLIENT",
            Operation::ResetClient => b"RESET-CLIENT",
            Operation::ListMailboxes => b"LIST-MAILBOXES",
            Operation::CreateMailbox => b"CREATE-MAILBOX",
            Operation::DeleteMailbox => b"DELETE-MAILBOX",
            Operation::ResetMailbox => b"RESET-MAILBOX",
            Operation::SelectMailbox => b"SELECT-MAILBOX",
            Operation::ExpungeMailbox => b"EXPUNGE-MAILBOX",
            Operation::ListAddresses => b"LIST-ADDRESSES",
            Operation::CreateAddress => b"CREATE-ADDRESS",
            Operation::DeleteAddress => b"DELETE-ADDRESS",
            Operation::ListSubscriptions => b"LIST-SUBSCRIPTIONS",
            Operation::ListAvailableSubscriptions => b"LIST-AVAILABLE-SUBSCRIPTIONS",
            Operation::CreateSubscription => b"CREATE-SUBSCRIPTION",
            Operation::DeleteSubscription => b"DELETE-SUBSCRIPTION",
            Operation::ResetSubscription => b"RESET-SUBSCRIPTION",
            Operation::FetchDescriptors => b"FETCH-DESCRIPTORS",
            Operation::FetchChangedDescriptors => b"FETCH-CHANGED-DESCRIPTORS",
            Operation::ResetDescriptors => b"RESET-DESCRIPTORS",
            Operation::FetchHeaders => b"FETCH-HEADERS",
            Operation::FetchMessage => b"FETCH-MESSAGE",
            Operation::CopyMessage => b"COPY-MESSAGE",
            Operation::SetMessageFlag => b"SET-MESSAGE-FLAG",
            Operation::SendMessage => b"SEND-MESSAGE",
        }
    }
}

/// The first of these operations that the word names.
fn named_among(operations: &[Operation], word: &[u8]) -> Option<Operation>
    ensures { IfSome result (λ operation. IsNamed operation word.now) }
{
    for operation in operations {
        if is_spelled(word, operation.word()) {
            return Some(*operation);
        }
    }
    None
}

/// Whether the bytes are the word, in capitals or small letters. Most words differ in length, and
/// most bytes are in capitals and compare at once.
#[inline]
fn is_spelled(bytes: &[u8], word: &[u8]) -> bool
    ensures same { IsTrue result ↔ (map to_ascii_lowercase bytes.now ≡ map to_ascii_lowercase word.now) }
{
    bytes.len() == word.len() && (bytes == word || bytes.eq_ignore_ascii_case(word))
}
