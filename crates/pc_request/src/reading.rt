//! Requests, read from an operation and the words behind it.
#![tactic(auto, unfolding(crate::specs::Fault::kinds_of, crate::specs::Request::call_of))]

ghost use Rattle.std.specs.Prelude.{[], ◌∷◌};
ghost use Rattle.pc_wire.specs.Words.{words_of};
ghost use Rattle.pc_request.specs.Argument as argument;
ghost use Rattle.pc_request.specs.Fault as kind;
ghost use Rattle.pc_request.specs.Reading.{ReadsArguments, ReadsWords};
ghost use Rattle.pc_request.specs.declared.operation.Operation.TheVariants as operation;

use crate::arguments::{
    count, flag, name, no_word, number, one_word, password, switch, three_words, two_words,
};
use crate::operation::Operation;
use crate::request::{Request, RequestFault};
use pc_base::Name;
use pc_wire::next_word;

/// The request of this operation with the words as its arguments.
pub fn read_arguments(operation: Operation, words: &[u8]) -> Result<Request, RequestFault>
    ensures { ReadsArguments operation (words_of words.now) result }
{
    match operation {
        Operation::SendVersion => one_number(words).map(|version| Request::SendVersion { version }),
        Operation::Help => no_arguments(words).map(|()| Request::Help),
        Operation::Login => login(words),
        Operation::Logout => no_arguments(words).map(|()| Request::Logout),
        Operation::SetPassword => set_password(words),
        Operation::ListClients => no_arguments(words).map(|()| Request::ListClients),
        Operation::CreateClient => one_name(words).map(|client| Request::CreateClient { client }),
        Operation::DeleteClient => one_name(words).map(|client| Request::DeleteClient { client }),
        Operation::ResetClient => one_name(words).map(|client| Request::ResetClient { client }),
        Operation::ListMailboxes => no_arguments(words).map(|()| Request::ListMailboxes),
        Operation::CreateMailbox => one_name(words).map(|mailbox| Request::CreateMailbox {
            mailbox,
        }),
        Operation::DeleteMailbox => one_name(words).map(|mailbox| Request::DeleteMailbox {
            mailbox,
        }),
        Operation::ResetMailbox => one_name(words).map(|mailbox| Request::ResetMailbox { mailbox }),
        Operation::SelectMailbox => select_mailbox(words),
        Operation::ExpungeMailbox => no_arguments(words).map(|()| Request::ExpungeMailbox),
        Operation::ListAddresses => one_name(words).map(|mailbox| Request::ListAddresses {
            mailbox,
        }),
        Operation::CreateAddress => create_address(words),
        Operation::DeleteAddress => one_name(words).map(|address| Request::DeleteAddress {
            address,
        }),
        Operation::ListSubscriptions => no_arguments(words).map(|()| Request::ListSubscriptions),
        Operation::ListAvailableSubscriptions => no_arguments(words).map(
            |()| Request::ListAvailableSubscriptions,
        ),
        Operation::CreateSubscription => one_name(words).map(|board| Request::CreateSubscription {
            board,
        }),
        Operation::DeleteSubscription => one_name(words).map(|board| Request::DeleteSubscription {
            board,
        }),
        Operation::ResetSubscription => reset_subscription(words),
        Operation::FetchDescriptors => fetch_descriptors(words),
        Operation::FetchChangedDescriptors => one_count(words).map(
            |count| Request::FetchChangedDescriptors { count },
        ),
        Operation::ResetDescriptors => reset_descriptors(words),
        Operation::FetchHeaders => one_number(words).map(|uid| Request::FetchHeaders { uid }),
        Operation::FetchMessage => one_number(words).map(|uid| Request::FetchMessage { uid }),
        Operation::CopyMessage => copy_message(words),
        Operation::SetMessageFlag => set_message_flag(words),
        Operation::SendMessage => no_arguments(words).map(|()| Request::SendMessage),
    }
}

/// No arguments.
pub fn no_arguments(words: &[u8]) -> Result<(), RequestFault>
    ensures { ReadsWords [] (λ _. []) (words_of words.now) result }
{
    no_word(words)
}

/// The only argument, a name.
#[inline]
pub fn one_name(words: &[u8]) -> Result<Name, RequestFault>
    ensures { ReadsWords (kind.name ∷ []) (λ name. argument.name name ∷ []) (words_of words.now) result }
{
    name(one_word(words)?)
}

/// The only argument, a number.
fn one_number(words: &[u8]) -> Result<u32, RequestFault>
    ensures { ReadsWords (kind.number ∷ []) (λ number. argument.number number ∷ []) (words_of words.now) result }
{
    number(one_word(words)?)
}

/// The only argument, a count.
fn one_count(words: &[u8]) -> Result<u32, RequestFault>
    ensures { ReadsWords (kind.count ∷ []) (λ count. argument.count count ∷ []) (words_of words.now) result }
{
    count(one_word(words)?)
}

fn login(words: &[u8]) -> Result<Request, RequestFault>
    ensures { ReadsArguments operation.Login (words_of words.now) result }
{
    let Some((user, others)) = next_word(words) else {
        return Err(RequestFault::Arguments);
    };
    let Some((secret, others)) = next_word(others) else {
        return Err(RequestFault::Arguments);
    };
    let (client, create, batch) = three_words(others)?;
    let user = name(user)?;
    let password = password(secret)?;
    let client = name(client)?;
    let create = switch(create)?;
    let batch = switch(batch)?;
    Ok(Request::Login {
        user,
        password,
        client,
        create,
        batch,
    })
}

fn set_password(words: &[u8]) -> Result<Request, RequestFault>
    ensures { ReadsArguments operation.SetPassword (words_of words.now) result }
{
    let (present, next) = two_words(words)?;
    let present = password(present)?;
    let next = password(next)?;
    Ok(Request::SetPassword { present, next })
}

/// A mailbox, or a board behind a plus sign.
#[tactic(auto, unfolding(crate::specs::Fault::kinds_of, crate::specs::Request::call_of, crate::specs::Fault::fault_of_word, crate::specs::Argument::IsSpelled))]
fn select_mailbox(words: &[u8]) -> Result<Request, RequestFault>
    ensures { ReadsArguments operation.SelectMailbox (words_of words.now) result }
{
    match one_word(words)? {
        [b'+', board @ ..] => name(board).map(|board| Request::SelectBoard { board }),
        mailbox => name(mailbox).map(|mailbox| Request::SelectMailbox { mailbox }),
    }
}

fn create_address(words: &[u8]) -> Result<Request, RequestFault>
    ensures { ReadsArguments operation.CreateAddress (words_of words.now) result }
{
    let (mailbox, address) = two_words(words)?;
    let mailbox = name(mailbox)?;
    let address = name(address)?;
    Ok(Request::CreateAddress { mailbox, address })
}

fn reset_subscription(words: &[u8]) -> Result<Request, RequestFault>
    ensures { ReadsArguments operation.ResetSubscription (words_of words.now) result }
{
    let (board, uid) = two_words(words)?;
    let board = name(board)?;
    let uid = number(uid)?;
    Ok(Request::ResetSubscription { board, uid })
}

fn fetch_descriptors(words: &[u8]) -> Result<Request, RequestFault>
    ensures { ReadsArguments operation.FetchDescriptors (words_of words.now) result }
{
    let (low, high) = two_numbers(words)?;
    Ok(Request::FetchDescriptors { low, high })
}

fn reset_descriptors(words: &[u8]) -> Result<Request, RequestFault>
    ensures { ReadsArguments operation.ResetDescriptors (words_of words.now) result }
{
    let (low, high) = two_numbers(words)?;
    Ok(Request::ResetDescriptors { low, high })
}

/// Two arguments, both numbers.
fn two_numbers(words: &[u8]) -> Result<(u32, u32), RequestFault>
    ensures { ReadsWords (kind.number ∷ kind.number ∷ []) (λ pair. argument.number pair.0 ∷ argument.number pair.1 ∷ []) (words_of words.now) result }
{
    let (first, second) = two_words(words)?;
    let first = number(first)?;
    let second = number(second)?;
    Ok((first, second))
}

fn copy_message(words: &[u8]) -> Result<Request, RequestFault>
    ensures { ReadsArguments operation.CopyMessage (words_of words.now) result }
{
    let (uid, mailbox) = two_words(words)?;
    let uid = number(uid)?;
    let mailbox = name(mailbox)?;
    Ok(Request::CopyMessage { uid, mailbox })
}

fn set_message_flag(words: &[u8]) -> Result<Request, RequestFault>
    ensures { ReadsArguments operation.SetMessageFlag (words_of words.now) result }
{
    let (uid, which, on) = three_words(words)?;
    let uid = number(uid)?;
    let flag = flag(which)?;
    let on = switch(on)?;
    Ok(Request::SetMessageFlag { uid, flag, on })
}
