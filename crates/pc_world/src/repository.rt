//! The repository of one thread: what it replies in a session without client.

ghost use Rattle.std.specs.Prelude.{◌≡◌, ℕ, ◌≤◌, ◌++◌, List, length, OnOk, OnErr};
ghost use Rattle.std.specs.Option.{option_to_list};
ghost use Rattle.pc_base.specs.Refusal.{head_of};
ghost use Rattle.pc_account_history.specs.History.{known};
ghost use Rattle.pc_account_history.specs.Known.{Known};
ghost use Rattle.pc_account.specs.Answers.{answered};
ghost use Rattle.pc_account.specs.Plan.{IsWish, planned};
ghost use Rattle.pc_account.specs.declared.answer.Question.TheVariants as question;
ghost use Rattle.pc_account.specs.declared.wish.Wish.TheVariants as wish;
ghost use Rattle.pc_world.specs.Account.{history_of};
ghost use Rattle.pc_request.specs.declared.operation.Operation.TheVariants as operation;
ghost use Rattle.pc_world.specs.Events.{IsAsked, IsCall};
ghost use Rattle.pc_world.specs.declared.event.Asked.{Asked as AskedValue};
ghost use Rattle.pc_world.specs.Repository.{fault_head, reply_to_answer, reply_to_plan, refused, reply_to, reply_to_request};
ghost use Rattle.pc_world.specs.Steps.{printed_reply};

use crate::event::Asked;
use crate::reading::{MOST_REQUEST, behind};
use crate::transcript::Transcript;
use crate::user::User;
use pc_account::{Answer, Question, Wish};
use pc_base::{AskFault, Memory, Name, Refusal};
use pc_request::{Operation, Request, RequestFault, no_arguments, one_name};
use std::alloc::Global;

/// Prints the reply to what a user asks, and keeps its entry. After `Err` the user isn't used again.
pub(crate) fn answer<T: Transcript>(
    alloc: Global,
    user: &mut User,
    asked: &Asked,
    transcript: &mut T,
) -> Result<(), Memory>
    ensures prints { OnOk result (T.adds transcript.old (printed_reply user.old.user (reply_to (history_of user.old.entries) asked.now)) transcript.new) }
    ensures user { user.new.user ≡ user.old.user }
    ensures entry { OnOk result (user.new.entries ≡ user.old.entries ++ option_to_list (reply_to (history_of user.old.entries) asked.now).entry) }
    ensures err { OnErr result (T.keeps transcript.old transcript.new) }
{
    match asked {
        Asked::TooLong => refuse(alloc, user, &Refusal::LineTooLong, transcript),
        Asked::Faulty(fault) => refuse(alloc, user, &refusal_of(fault), transcript),
        Asked::Read(request) => answer_request(alloc, user, request, transcript),
    }
}

/// Prints the reply to what a user asks with a text, and keeps its entry. After `Err` the user isn't
/// used again.
pub(crate) fn answer_text<T: Transcript>(
    alloc: Global,
    user: &mut User,
    text: &[u8],
    transcript: &mut T,
) -> Result<(), Memory>
    ensures asked { (asked : AskedValue) × (IsAsked text.now asked
        × OnOk result (T.adds transcript.old (printed_reply user.old.user (reply_to (history_of user.old.entries) asked)) transcript.new)
        × OnOk result (user.new.entries ≡ user.old.entries ++ option_to_list (reply_to (history_of user.old.entries) asked).entry)) }
    ensures user { user.new.user ≡ user.old.user }
    ensures err { OnErr result (T.keeps transcript.old transcript.new) }
{
    if text.len() > MOST_REQUEST {
        return refuse(alloc, user, &Refusal::LineTooLong, transcript);
    }
    // Most requests are for a mailbox, in capitals.
    if let Some(words) = behind(text, b"CREATE-MAILBOX") {
        return answer_create_mailbox(alloc, user, words, transcript);
    }
    let Some((operation, words)) = Operation::called(text) else {
        return refuse(alloc, user, &Refusal::UnknownOperation, transcript);
    };
    match operation {
        Operation::CreateMailbox => answer_create_mailbox(alloc, user, words, transcript),
        Operation::ListMailboxes => answer_list_mailboxes(alloc, user, words, transcript),
        _ => answer_read(alloc, user, text, transcript),
    }
}

/// Replies to a text, read as a request whatever it asks for. Out of line, so that what is answered
/// without it doesn't pay for the room of any request.
#[inline(never)]
fn answer_read<T: Transcript>(
    alloc: Global,
    user: &mut User,
    text: &[u8],
    transcript: &mut T,
) -> Result<(), Memory>
    requires { length text.now ≤ 512 }
    ensures asked { (asked : AskedValue) × (IsAsked text.now asked
        × OnOk result (T.adds transcript.old (printed_reply user.old.user (reply_to (history_of user.old.entries) asked)) transcript.new)
        × OnOk result (user.new.entries ≡ user.old.entries ++ option_to_list (reply_to (history_of user.old.entries) asked).entry)) }
    ensures user { user.new.user ≡ user.old.user }
    ensures err { OnErr result (T.keeps transcript.old transcript.new) }
{
    let read = Request::read(text);
    match &read {
        Ok(request) => answer_request(alloc, user, request, transcript),
        Err(fault) => refuse(alloc, user, &refusal_of(fault), transcript),
    }
}

/// Replies to a call that is to make a mailbox, with these words as its arguments.
fn answer_create_mailbox<T: Transcript>(
    alloc: Global,
    user: &mut User,
    words: &[u8],
    transcript: &mut T,
) -> Result<(), Memory>
    ensures asked { (asked : AskedValue) × (((text : List ℕ) → IsCall operation.CreateMailbox words.now text → IsAsked text asked)
        × OnOk result (T.adds transcript.old (printed_reply user.old.user (reply_to (history_of user.old.entries) asked)) transcript.new)
        × OnOk result (user.new.entries ≡ user.old.entries ++ option_to_list (reply_to (history_of user.old.entries) asked).entry)) }
    ensures user { user.new.user ≡ user.old.user }
    ensures err { OnErr result (T.keeps transcript.old transcript.new) }
{
    let read = one_name(words);
    match &read {
        Ok(mailbox) => create_mailbox(alloc, user, mailbox, transcript),
        Err(fault) => refuse(alloc, user, &refusal_of(fault), transcript),
    }
}

/// Replies to a call for the list of mailboxes, with these words as its arguments.
fn answer_list_mailboxes<T: Transcript>(
    alloc: Global,
    user: &mut User,
    words: &[u8],
    transcript: &mut T,
) -> Result<(), Memory>
    ensures asked { (asked : AskedValue) × (((text : List ℕ) → IsCall operation.ListMailboxes words.now text → IsAsked text asked)
        × OnOk result (T.adds transcript.old (printed_reply user.old.user (reply_to (history_of user.old.entries) asked)) transcript.new)
        × OnOk result (user.new.entries ≡ user.old.entries ++ option_to_list (reply_to (history_of user.old.entries) asked).entry)) }
    ensures user { user.new.user ≡ user.old.user }
    ensures err { OnErr result (T.keeps transcript.old transcript.new) }
{
    let read = no_arguments(words);
    match &read {
        Ok(()) => list_mailboxes(alloc, user, transcript),
        Err(fault) => refuse(alloc, user, &refusal_of(fault), transcript),
    }
}

#[tactic(auto, unfolding(crate::specs::Repository::reply_to_request))]
fn answer_request<T: Transcript>(
    alloc: Global,
    user: &mut User,
    request: &Request,
    transcript: &mut T,
) -> Result<(), Memory>
    ensures prints { OnOk result (T.adds transcript.old (printed_reply user.old.user (reply_to_request (history_of user.old.entries) request.now)) transcript.new) }
    ensures user { user.new.user ≡ user.old.user }
    ensures entry { OnOk result (user.new.entries ≡ user.old.entries ++ option_to_list (reply_to_request (history_of user.old.entries) request.now).entry) }
    ensures err { OnErr result (T.keeps transcript.old transcript.new) }
{
    match request {
        Request::CreateMailbox { mailbox } => { create_mailbox(alloc, user, mailbox, transcript) }
        Request::ListMailboxes => list_mailboxes(alloc, user, transcript),
        _ => refuse(alloc, user, &Refusal::UnknownOperation, transcript),
    }
}

/// Replies to a request for a new mailbox. Where its name is there already, no wish is made of it.
fn create_mailbox<T: Transcript>(
    alloc: Global,
    user: &mut User,
    mailbox: &Name,
    transcript: &mut T,
) -> Result<(), Memory>
    ensures prints { OnOk result (T.adds transcript.old (printed_reply user.old.user (reply_to_plan (planned (known (history_of user.old.entries)) (wish.MakeMailbox mailbox.now)))) transcript.new) }
    ensures user { user.new.user ≡ user.old.user }
    ensures entry { OnOk result (user.new.entries ≡ user.old.entries ++ option_to_list (reply_to_plan (planned (known (history_of user.old.entries)) (wish.MakeMailbox mailbox.now))).entry) }
    ensures err { OnErr result (T.keeps transcript.old transcript.new) }
{
    if user.has_mailbox(mailbox) {
        return refuse(alloc, user, &Refusal::MailboxExists, transcript);
    }
    make_mailbox(alloc, user, mailbox, transcript)
}

/// Replies to a wish for a new mailbox. Out of line, so that other requests don't pay for the wish.
#[inline(never)]
fn make_mailbox<T: Transcript>(
    alloc: Global,
    user: &mut User,
    mailbox: &Name,
    transcript: &mut T,
) -> Result<(), Memory>
    ensures prints { OnOk result (T.adds transcript.old (printed_reply user.old.user (reply_to_plan (planned (known (history_of user.old.entries)) (wish.MakeMailbox mailbox.now)))) transcript.new) }
    ensures user { user.new.user ≡ user.old.user }
    ensures entry { OnOk result (user.new.entries ≡ user.old.entries ++ option_to_list (reply_to_plan (planned (known (history_of user.old.entries)) (wish.MakeMailbox mailbox.now))).entry) }
    ensures err { OnErr result (T.keeps transcript.old transcript.new) }
{
    let wish = Wish::MakeMailbox { mailbox: *mailbox };
    change(alloc, user, &wish, transcript)
}

/// Replies to a request that changes.
fn change<T: Transcript>(
    alloc: Global,
    user: &mut User,
    wish: &Wish,
    transcript: &mut T,
) -> Result<(), Memory>
    requires { (k : Known) → IsWish k wish.now }
    ensures prints { OnOk result (T.adds transcript.old (printed_reply user.old.user (reply_to_plan (planned (known (history_of user.old.entries)) wish.now))) transcript.new) }
    ensures user { user.new.user ≡ user.old.user }
    ensures entry { OnOk result (user.new.entries ≡ user.old.entries ++ option_to_list (reply_to_plan (planned (known (history_of user.old.entries)) wish.now)).entry) }
    ensures err { OnErr result (T.keeps transcript.old transcript.new) }
{
    match user.change(alloc, wish) {
        Ok(()) => transcript.print_reply(alloc, user.heading(), b"200 Ok", &[]),
        Err(AskFault::Refused(refusal)) => refuse(alloc, user, &refusal, transcript),
        Err(AskFault::Memory) => Err(Memory),
    }
}

/// Replies with the list of mailboxes.
#[inline(never)]
fn list_mailboxes<T: Transcript>(
    alloc: Global,
    user: &User,
    transcript: &mut T,
) -> Result<(), Memory>
    ensures ok { OnOk result (T.adds transcript.old (printed_reply user.now.user (reply_to_answer (answered (known (history_of user.now.entries)) question.Mailboxes))) transcript.new) }
    ensures err { OnErr result (T.keeps transcript.old transcript.new) }
{
    let Ok(Answer::Mailboxes(rows)) = user.answer(alloc, &Question::Mailboxes) else {
        return Err(Memory);
    };
    transcript.print_reply(alloc, user.heading(), b"201 List follows", rows.as_slice())
}

/// Replies with a refusal. A head that is fixed is printed as it stands.
#[inline]
fn refuse<T: Transcript>(
    alloc: Global,
    user: &User,
    refusal: &Refusal,
    transcript: &mut T,
) -> Result<(), Memory>
    ensures ok { OnOk result (T.adds transcript.old (printed_reply user.now.user (refused (head_of refusal.now))) transcript.new) }
    ensures err { OnErr result (T.keeps transcript.old transcript.new) }
{
    match refusal.fixed_head() {
        Some(head) => transcript.print_reply(alloc, user.heading(), head, &[]),
        None => refuse_with_more(alloc, user, refusal, transcript),
    }
}

/// Replies with a refusal, whose head is made for it. Out of line, so that others don't pay for the
/// room of a head.
#[inline(never)]
fn refuse_with_more<T: Transcript>(
    alloc: Global,
    user: &User,
    refusal: &Refusal,
    transcript: &mut T,
) -> Result<(), Memory>
    ensures ok { OnOk result (T.adds transcript.old (printed_reply user.now.user (refused (head_of refusal.now))) transcript.new) }
    ensures err { OnErr result (T.keeps transcript.old transcript.new) }
{
    let head = refusal.head();
    transcript.print_reply(alloc, user.heading(), head.bytes(), &[])
}

fn refusal_of(fault: &RequestFault) -> Refusal
    ensures { head_of result ≡ fault_head fault.now }
{
    match fault {
        RequestFault::Unknown => Refusal::UnknownOperation,
        RequestFault::Arguments => Refusal::WrongArguments,
        RequestFault::BadName => Refusal::BadName,
        RequestFault::BadFlag => Refusal::NoSuchFlag,
    }
}
