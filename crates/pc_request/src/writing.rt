//! Requests, written as the text of a line.

ghost use Rattle.std.specs.Prelude.{◌≡◌, ◌+◌, ◌++◌, ◌≤◌, [], ◌∷◌, length, map};
ghost use Rattle.pc_wire.specs.Lines.{IsSpelling};
ghost use Rattle.pc_request.specs.Argument.{AreSpelled, written, written_behind};
ghost use Rattle.pc_request.specs.Request.{call_of, line_of, IsRequest, IsWritable};

use crate::request::Request;
use crate::text::{LINE_ROOM, LineText};

/// The words of the request, with one space between them.
pub fn text_of(request: &Request) -> LineText
    requires { IsWritable request.now }
    ensures value { result ≡ line_of request.now }
    ensures read { IsRequest request.now (line_of request.now) }
    ensures spelling { IsSpelling (line_of request.now ++ 13 ∷ 10 ∷ []) (line_of request.now) }
    ensures short { length result + 2 ≤ LINE_ROOM }
{
    with_arguments(request, LineText::new(request.operation()))
}

/// The text with the request's arguments behind it.
#[tactic(auto, unfolding(crate::specs::Request::call_of))]
fn with_arguments(request: &Request, text: LineText) -> LineText
    requires room { length text ≤ 28 }
    requires writable { IsWritable request.now }
    ensures value { result ≡ text ++ written_behind (call_of request.now).1 }
    ensures spelled { AreSpelled (call_of request.now).1 (map written (call_of request.now).1) }
    ensures short { length result + 2 ≤ LINE_ROOM }
{
    match request {
        Request::SendVersion { version } => text.with_number(*version),
        Request::Help => text,
        Request::Login {
            user,
            password,
            client,
            create,
            batch,
        } => text
            .with_name(user)
            .with_password(password)
            .with_name(client)
            .with_switch(*create)
            .with_switch(*batch),
        Request::Logout => text,
        Request::SetPassword { present, next } => text.with_password(present).with_password(next),
        Request::ListClients => text,
        Request::CreateClient { client } => text.with_name(client),
        Request::DeleteClient { client } => text.with_name(client),
        Request::ResetClient { client } => text.with_name(client),
        Request::ListMailboxes => text,
        Request::CreateMailbox { mailbox } => text.with_name(mailbox),
        Request::DeleteMailbox { mailbox } => text.with_name(mailbox),
        Request::ResetMailbox { mailbox } => text.with_name(mailbox),
        Request::SelectMailbox { mailbox } => text.with_mailbox(mailbox),
        Request::SelectBoard { board } => text.with_board(board),
        Request::ExpungeMailbox => text,
        Request::ListAddresses { mailbox } => text.with_name(mailbox),
        Request::CreateAddress { mailbox, address } => text.with_name(mailbox).with_name(address),
        Request::DeleteAddress { address } => text.with_name(address),
        Request::ListSubscriptions => text,
        Request::ListAvailableSubscriptions => text,
        Request::CreateSubscription { board } => text.with_name(board),
        Request::DeleteSubscription { board } => text.with_name(board),
        Request::ResetSubscription { board, uid } => text.with_name(board).with_number(*uid),
        Request::FetchDescriptors { low, high } => text.with_number(*low).with_number(*high),
        Request::FetchChangedDescriptors { count } => text.with_count(*count),
        Request::ResetDescriptors { low, high } => text.with_number(*low).with_number(*high),
        Request::FetchHeaders { uid } => text.with_number(*uid),
        Request::FetchMessage { uid } => text.with_number(*uid),
        Request::CopyMessage { uid, mailbox } => text.with_number(*uid).with_name(mailbox),
        Request::SetMessageFlag { uid, flag, on } => {
            text.with_number(*uid).with_flag(*flag).with_switch(*on)
        }
        Request::SendMessage => text,
    }
}
