//! Refusals of the repository: one variant for each reply head from 400 to 430.

ghost use Rattle.std.specs.Prelude.{◌≡◌, ◌≤◌, ◌+◌, ◌++◌, codes, length, IfSome, IfNone, IsTrue};
ghost use Rattle.pc_base.specs.Refusal.{head_of, limit_word, tells_more};

use crate::recipient::Recipient;
use crate::short_text::ShortText;
use arrayvec::ArrayVec;
use itoa::Buffer;

/// How many bytes the head of a limit has in front of its word.
const LIMIT_REACHED: usize = 18;

/// Which limit a change would pass.
#[derive(Clone, Copy, Debug, PartialEq, Eq)]
pub enum LimitWord {
    Sessions,
    Clients,
    Mailboxes,
    Users,
    Boards,
    Addresses,
    Recipients,
    Uids,
    Messages,
    Bytes,
    Changes,
    Waiting,
    Board,
    Subscriptions,
}

/// Why a request is refused.
#[derive(Clone, Copy)]
pub enum Refusal {
    /// 400
    UnknownOperation,
    /// 401
    WrongArguments,
    /// 402
    LineTooLong,
    /// 403
    NotLoggedIn,
    /// 404
    AlreadyLoggedIn,
    /// 405
    BadUserOrPassword,
    /// 406
    NoSuchClient,
    /// 407: the client's latest session is another one.
    Superseded { number: u64 },
    /// 408
    NoMailboxSelected,
    /// 409
    NoSuchMailbox,
    /// 410
    MailboxExists,
    /// 411
    BadName,
    /// 412
    NoSuchMessage,
    /// 413
    NoSuchFlag,
    /// 414
    NoSuchAddress,
    /// 415
    AddressTaken,
    /// 416
    UnknownRecipient { shown: Recipient },
    /// 417
    MessageTooLarge,
    /// 418
    LimitReached { limit: LimitWord },
    /// 419
    NoSuchBoard,
    /// 420
    NotSubscribed,
    /// 421
    AlreadySubscribed,
    /// 422
    ReadOnly,
    /// 423
    ClientExists,
    /// 428
    ClientHasSession,
    /// 429
    VersionUnknown,
    /// 430
    JournalFull,
}

impl LimitWord {
    /// The word, as replies show it.
    pub fn word(self) -> &'static [u8]
        ensures value { result.now ≡ limit_word self }
        ensures short { length result.now ≤ 13 }
    {
        let (_, word) = self.head().split_at(LIMIT_REACHED);
        word
    }

    /// The head of the reply that tells it.
    fn head(self) -> &'static [u8]
        ensures value { result.now ≡ codes "418 Limit reached " ++ limit_word self }
        ensures short { length result.now ≤ 31 }
    {
        match self {
            LimitWord::Sessions => b"418 Limit reached sessions",
            LimitWord::Clients => b"418 Limit reached clients",
            LimitWord::Mailboxes => b"418 Limit reached mailboxes",
            LimitWord::Users => b"418 Limit reached users",
            LimitWord::Boards => b"418 Limit reached boards",
            LimitWord::Addresses => b"418 Limit reached addresses",
            LimitWord::Recipients => b"418 Limit reached recipients",
            LimitWord::Uids => b"418 Limit reached uids",
            LimitWord::Messages => b"418 Limit reached messages",
            LimitWord::Bytes => b"418 Limit reached bytes",
            LimitWord::Changes => b"418 Limit reached changes",
            LimitWord::Waiting => b"418 Limit reached waiting",
            LimitWord::Board => b"418 Limit reached board",
            LimitWord::Subscriptions => b"418 Limit reached subscriptions",
        }
    }
}

impl Refusal {
    /// The head of the reply that tells it: the number, a space and the text.
    pub fn head(&self) -> ShortText<96>
        ensures { result ≡ head_of self.now }
    {
        match self.fixed_head() {
            Some(head) => ShortText::copy_of(head),
            None => self.told_head(),
        }
    }

    /// The head, where it is the same whatever the refusal tells beside its kind.
    #[tactic(auto, unfolding(crate::specs::Refusal::head_of, crate::specs::Refusal::tells_more))]
    pub fn fixed_head(&self) -> Option<&'static [u8]>
        ensures head { IfSome result (λ head. (head.now ≡ head_of self.now) × (length head.now ≤ 96)) }
        ensures none { IfNone result (IsTrue (tells_more self.now)) }
    {
        match self {
            Refusal::UnknownOperation => Some(b"400 Unknown operation"),
            Refusal::WrongArguments => Some(b"401 Wrong arguments"),
            Refusal::LineTooLong => Some(b"402 Line too long"),
            Refusal::NotLoggedIn => Some(b"403 Not logged in"),
            Refusal::AlreadyLoggedIn => Some(b"404 Already logged in"),
            Refusal::BadUserOrPassword => Some(b"405 Bad user or password"),
            Refusal::NoSuchClient => Some(b"406 No such client"),
            Refusal::NoMailboxSelected => Some(b"408 No mailbox selected"),
            Refusal::NoSuchMailbox => Some(b"409 No such mailbox"),
            Refusal::MailboxExists => Some(b"410 Mailbox exists"),
            Refusal::BadName => Some(b"411 Bad name"),
            Refusal::NoSuchMessage => Some(b"412 No such message"),
            Refusal::NoSuchFlag => Some(b"413 No such flag"),
            Refusal::NoSuchAddress => Some(b"414 No such address"),
            Refusal::AddressTaken => Some(b"415 Address taken"),
            Refusal::MessageTooLarge => Some(b"417 Message too large"),
            Refusal::NoSuchBoard => Some(b"419 No such board"),
            Refusal::NotSubscribed => Some(b"420 Not subscribed"),
            Refusal::AlreadySubscribed => Some(b"421 Already subscribed"),
            Refusal::ReadOnly => Some(b"422 Read only"),
            Refusal::ClientExists => Some(b"423 Client exists"),
            Refusal::ClientHasSession => Some(b"428 Client has a session"),
            Refusal::VersionUnknown => Some(b"429 Version unknown"),
            Refusal::JournalFull => Some(b"430 Journal full"),
            Refusal::LimitReached { limit } => Some(limit.head()),
            _ => None,
        }
    }

    /// The head of a refusal that tells more than its kind.
    #[tactic(auto, unfolding(crate::specs::Refusal::head_of, crate::specs::Refusal::tells_more))]
    fn told_head(&self) -> ShortText<96>
        requires { IsTrue (tells_more self.now) }
        ensures { result ≡ head_of self.now }
    {
        match self {
            Refusal::Superseded { number } => {
                let mut digits = Buffer::new();
                joined(
                    b"407 Superseded by session ",
                    digits.format(*number).as_bytes(),
                )
            }
            Refusal::UnknownRecipient { shown } => joined(b"416 Unknown recipient ", shown.bytes()),
            _ => unreachable!(),
        }
    }
}

/// One text behind another.
fn joined(front: &[u8], back: &[u8]) -> ShortText<96>
    requires { length front.now + length back.now ≤ 96 }
    ensures { result ≡ front.now ++ back.now }
{
    let mut text: ArrayVec<u8, 96> = ArrayVec::new();
    text.try_extend_from_slice(front).unwrap();
    text.try_extend_from_slice(back).unwrap();
    ShortText::copy_of(&text)
}
