//! Operations by the lengths of their words.

use crate::operation::Operation;

/// The operations whose words have so many bytes.
pub(crate) fn of_length(length: usize) -> &'static [Operation] {
    match length {
        4 => &[Operation::Help],
        5 => &[Operation::Login],
        6 => &[Operation::Logout],
        12 => &[
            Operation::CopyMessage,
            Operation::SendMessage,
            Operation::ListClients,
            Operation::ResetClient,
            Operation::SendVersion,
            Operation::SetPassword,
        ],
        13 => &[
            Operation::FetchMessage,
            Operation::FetchHeaders,
            Operation::CreateClient,
            Operation::DeleteClient,
            Operation::ResetMailbox,
        ],
        14 => &[
            Operation::SelectMailbox,
            Operation::CreateMailbox,
            Operation::DeleteMailbox,
            Operation::ListMailboxes,
            Operation::CreateAddress,
            Operation::DeleteAddress,
            Operation::ListAddresses,
        ],
        15 => &[Operation::ExpungeMailbox],
        16 => &[Operation::SetMessageFlag],
        17 => &[Operation::FetchDescriptors, Operation::ResetDescriptors],
        18 => &[Operation::ListSubscriptions, Operation::ResetSubscription],
        19 => &[Operation::CreateSubscription, Operation::DeleteSubscription],
        25 => &[Operation::FetchChangedDescriptors],
        28 => &[Operation::ListAvailableSubscriptions],
        _ => &[],
    }
}
