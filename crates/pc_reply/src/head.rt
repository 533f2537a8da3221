//! The heads of replies.

ghost use Rattle.std.specs.Prelude.{◌≡◌, take, drop, IfSome};
ghost use Rattle.std.specs.Option.{option_map};
ghost use Rattle.pc_reply.specs.Head.{head_text, has_list as with_list, HeadFits, RefusalFits, IsHead};
ghost use Rattle.pc_reply.specs.Candidate.{refusal_numbered as numbered, plain_head as plain, limits, limit_named as named_limit, number_of, birth_in, superseded_in, recipient_in, limit_in, missing_in, candidate_of};
ghost use Rattle.pc_reply.specs.declared.head.Head.{Head};
ghost use Rattle.pc_reply.specs.declared.head.Head.TheVariants as head;

use crate::text::{Text, is_same};
use pc_base::{LimitWord, Recipient, Refusal, ShortText, read_u32, read_u64};

/// The first line of a reply.
#[derive(Clone, Copy)]
pub enum Head {
    /// 200
    Ok,
    /// 201: lines of a list follow.
    ListFollows,
    /// 202: lines of a message follow.
    MessageFollows,
    /// 205: the number of the entry that made the client.
    Birth { birth: u64 },
    /// 220
    Ready,
    /// 221
    Closing,
    /// 300: the client is to send a body.
    SendMessage,
    /// 400 to 430
    Refused(Refusal),
    /// 500
    WantOfMemory,
    /// 501
    DeviceFailed,
    /// 502: the history lacks the change with this number.
    ChangeMissing { number: u64 },
}

/// All words of limits.
static LIMITS: [LimitWord; 14] = [
    LimitWord::Sessions,
    LimitWord::Clients,
    LimitWord::Mailboxes,
    LimitWord::Users,
    LimitWord::Boards,
    LimitWord::Addresses,
    LimitWord::Recipients,
    LimitWord::Uids,
    LimitWord::Messages,
    LimitWord::Bytes,
    LimitWord::Changes,
    LimitWord::Waiting,
    LimitWord::Board,
    LimitWord::Subscriptions,
];

impl Head {
    /// The head that a line is, without what ends it: exactly as it is written.
    pub fn read(line: &[u8]) -> Option<Head>
        ensures head { IfSome result (λ head. IsHead head line.now) }
        ensures every { (head : Head) → IsHead head line.now → result ≡ Some head }
    {
        let Some(head) = candidate(line) else {
            return None;
        };
        if !is_same(head.text().bytes(), line) {
            return None;
        }
        Some(head)
    }

    /// The number, a space and what it says.
    #[tactic(auto, unfolding(crate::specs::Head::head_text))]
    pub fn text(&self) -> ShortText<96>
        ensures { result ≡ head_text self.now }
    {
        match self {
            Head::Ok => ShortText::copy_of(b"200 Ok"),
            Head::ListFollows => ShortText::copy_of(b"201 List follows"),
            Head::MessageFollows => ShortText::copy_of(b"202 Message follows"),
            Head::Birth { birth } => Text::of(b"205 Birth ").with_number(*birth).finished(),
            Head::Ready => ShortText::copy_of(b"220 pcmail DMSP ready"),
            Head::Closing => ShortText::copy_of(b"221 Closing"),
            Head::SendMessage => ShortText::copy_of(b"300 Send message"),
            Head::Refused(refusal) => refusal.head(),
            Head::WantOfMemory => ShortText::copy_of(b"500 Want of memory"),
            Head::DeviceFailed => ShortText::copy_of(b"501 Device failed"),
            Head::ChangeMissing { number } => {
                Text::of(b"502 Change ")
                    .with_number(*number)
                    .with(b" is missing")
                    .finished()
            }
        }
    }

    /// Whether lines follow it.
    pub fn has_list(&self) -> bool
        ensures { result ≡ with_list self.now }
    {
        matches!(self, Head::ListFollows | Head::MessageFollows)
    }
}

/// The one head that the line can be.
fn candidate(line: &[u8]) -> Option<Head>
    ensures value { result ≡ candidate_of line.now }
    ensures fits { IfSome result HeadFits }
{
    let Some(code) = read_u32(front(line, 3)) else {
        return None;
    };
    match code {
        205 => birth(line),
        407 => superseded(line),
        416 => recipient(line),
        418 => limit(line),
        502 => missing(line),
        _ => plain_head(code),
    }
}

fn birth(line: &[u8]) -> Option<Head>
    ensures value { result ≡ birth_in line.now }
    ensures fits { IfSome result HeadFits }
{
    let Some(birth) = number(behind(line, 10)) else {
        return None;
    };
    Some(Head::Birth { birth })
}

fn superseded(line: &[u8]) -> Option<Head>
    ensures value { result ≡ superseded_in line.now }
    ensures fits { IfSome result HeadFits }
{
    let Some(number) = number(behind(line, 26)) else {
        return None;
    };
    Some(Head::Refused(Refusal::Superseded { number }))
}

fn recipient(line: &[u8]) -> Option<Head>
    ensures value { result ≡ recipient_in line.now }
    ensures fits { IfSome result HeadFits }
{
    let shown = Recipient::shown(behind(line, 22));
    Some(Head::Refused(Refusal::UnknownRecipient { shown }))
}

fn limit(line: &[u8]) -> Option<Head>
    ensures value { result ≡ limit_in line.now }
    ensures fits { IfSome result HeadFits }
{
    let Some(limit) = limit_named(behind(line, 18)) else {
        return None;
    };
    Some(Head::Refused(Refusal::LimitReached { limit }))
}

fn missing(line: &[u8]) -> Option<Head>
    ensures value { result ≡ missing_in line.now }
    ensures fits { IfSome result HeadFits }
{
    let end = line.len().saturating_sub(11);
    let Some(number) = number(behind(front(line, end), 11)) else {
        return None;
    };
    Some(Head::ChangeMissing { number })
}

/// The head with this number, of those that say nothing more.
fn plain_head(code: u32) -> Option<Head>
    ensures value { result ≡ plain code }
    ensures fits { IfSome result HeadFits }
{
    match code {
        200 => Some(Head::Ok),
        201 => Some(Head::ListFollows),
        202 => Some(Head::MessageFollows),
        220 => Some(Head::Ready),
        221 => Some(Head::Closing),
        300 => Some(Head::SendMessage),
        500 => Some(Head::WantOfMemory),
        501 => Some(Head::DeviceFailed),
        _ => refused(code),
    }
}

fn refused(code: u32) -> Option<Head>
    ensures value { result ≡ option_map head.Refused (numbered code) }
    ensures fits { IfSome result HeadFits }
{
    let Some(refusal) = refusal_numbered(code) else {
        return None;
    };
    Some(Head::Refused(refusal))
}

/// The refusal with this number, of those that say nothing more.
fn refusal_numbered(code: u32) -> Option<Refusal>
    ensures value { result ≡ numbered code }
    ensures fits { IfSome result RefusalFits }
{
    match code {
        400 => Some(Refusal::UnknownOperation),
        401 => Some(Refusal::WrongArguments),
        402 => Some(Refusal::LineTooLong),
        403 => Some(Refusal::NotLoggedIn),
        404 => Some(Refusal::AlreadyLoggedIn),
        405 => Some(Refusal::BadUserOrPassword),
        406 => Some(Refusal::NoSuchClient),
        408 => Some(Refusal::NoMailboxSelected),
        409 => Some(Refusal::NoSuchMailbox),
        410 => Some(Refusal::MailboxExists),
        411 => Some(Refusal::BadName),
        412 => Some(Refusal::NoSuchMessage),
        413 => Some(Refusal::NoSuchFlag),
        414 => Some(Refusal::NoSuchAddress),
        415 => Some(Refusal::AddressTaken),
        417 => Some(Refusal::MessageTooLarge),
        419 => Some(Refusal::NoSuchBoard),
        420 => Some(Refusal::NotSubscribed),
        421 => Some(Refusal::AlreadySubscribed),
        422 => Some(Refusal::ReadOnly),
        423 => Some(Refusal::ClientExists),
        428 => Some(Refusal::ClientHasSession),
        429 => Some(Refusal::VersionUnknown),
        430 => Some(Refusal::JournalFull),
        _ => None,
    }
}

/// The first so many bytes, or all.
fn front(line: &[u8], count: usize) -> &[u8]
    ensures { result.now ≡ take count line.now }
{
    &line[..count.min(line.len())]
}

/// What stands behind so many bytes.
fn behind(line: &[u8], count: usize) -> &[u8]
    ensures { result.now ≡ drop count line.now }
{
    &line[count.min(line.len())..]
}

/// A number of 64 bits in digits.
fn number(digits: &[u8]) -> Option<u64>
    ensures { result ≡ number_of digits.now }
{
    read_u64(digits)
}

/// All words of limits.
#[tactic(auto, unfolding(crate::specs::Candidate::limits))]
fn all_limits() -> &'static [LimitWord]
    ensures { result.now ≡ limits }
{
    &LIMITS
}

/// The limit that the word names.
fn limit_named(word: &[u8]) -> Option<LimitWord>
    ensures { result ≡ named_limit word.now }
{
    all_limits()
        .iter()
        .copied()
        .find(|limit| limit.word() == word)
}
