//! What a request is answered inside a session, before it is told.

ghost use Rattle.std.specs.Prelude.{◌≡◌, IfOk, IfErr};
ghost use Rattle.pc_session.specs.Answering.{failure_of, head_of_failure, moved};
ghost use Rattle.pc_session.specs.Repository.{plain};
ghost use Rattle.pc_session.specs.declared.answered.Failure.TheVariants as failure;

use crate::state::{SessionState, Who};
use pc_base::{AskFault, Lines, Memory, Name, Refusal};
use pc_mailbox::Shown;
use pc_reply::{Head, Reply};
use std::alloc::Global;

/// What a session goes on as.
#[derive(Drop)]
pub enum Move {
    /// As it is.
    Stays,
    /// As that of a client, which drew a number.
    LogsIn {
        user: Name,
        client: Name,
        number: u64,
    },
    /// With a mailbox selected, of which nothing was shown yet.
    Selects {
        mailbox: Name,
    },
    /// With changes that were shown.
    Shows {
        shown: Shown,
    },
}

/// A reply, a copy of it for the session to keep, and what the session goes on as.
#[derive(Drop)]
pub struct Answered {
    pub reply: Reply,
    pub heard: Reply,
    pub then: Move,
}

/// Why a request has no reply of its own.
#[derive(Clone, Copy)]
pub enum Failure {
    /// It is refused.
    Refused(Refusal),
    /// Want of memory.
    Memory,
    /// The disk failed.
    Device,
    /// The history lacks the change with this number, of which the session was told.
    Missing { number: u64 },
}

impl From<Memory> for Failure {
    ghost from_gives = { λ _ made. made ≡ failure.Memory };

    fn from(_memory: Memory) -> Failure {
        Failure::Memory
    }
}

impl From<AskFault> for Failure {
    ghost from_gives = { λ fault made. made ≡ failure_of fault };

    fn from(fault: AskFault) -> Failure {
        match fault {
            AskFault::Refused(why) => Failure::Refused(why),
            AskFault::Memory => Failure::Memory,
        }
    }
}

impl Failure {
    /// The head that tells it.
    pub(crate) fn head(&self) -> Head
        ensures { result ≡ head_of_failure self.now }
    {
        match self {
            Failure::Refused(why) => Head::Refused(*why),
            Failure::Memory => Head::WantOfMemory,
            Failure::Device => Head::DeviceFailed,
            Failure::Missing { number } => Head::ChangeMissing { number: *number },
        }
    }
}

/// A reply of a head alone.
pub(crate) fn plain_reply(alloc: Global, head: &Head) -> Reply
    ensures { result ≡ plain head.now }
{
    Reply {
        head: *head,
        lines: Lines::new(alloc),
    }
}

/// A reply of a head alone is answered, and the session goes on so.
pub(crate) fn plainly(alloc: Global, head: &Head, then: Move) -> Answered
    ensures { result ≡ record { reply = plain head.now; heard = plain head.now; then = then } }
{
    Answered {
        reply: plain_reply(alloc, head),
        heard: plain_reply(alloc, head),
        then,
    }
}

/// A reply with lines is answered, and the session goes on so. Memory is wanted for the copy.
pub(crate) fn with_lines(
    alloc: Global,
    head: &Head,
    lines: Lines,
    then: Move,
) -> Result<Answered, Failure>
    ensures reply { IfOk result (λ answered. answered ≡ record { reply = record { head = head.now; lines = lines }; heard = record { head = head.now; lines = lines }; then = then }) }
    ensures memory { IfErr result (λ why. why ≡ failure.Memory) }
{
    let copy = lines.copy(alloc)?;
    Ok(Answered {
        reply: Reply { head: *head, lines },
        heard: Reply {
            head: *head,
            lines: copy,
        },
        then,
    })
}

impl SessionState {
    /// Goes on so.
    pub(crate) fn go(&mut self, alloc: Global, then: Move)
        ensures { self.new ≡ moved self.old then }
    {
        match then {
            Move::Stays => {}
            Move::LogsIn {
                user,
                client,
                number,
            } => {
                self.who = Who::Client {
                    user,
                    client,
                    number,
                };
                self.selected = None;
                self.shown = Shown::new(alloc);
            }
            Move::Selects { mailbox } => {
                self.selected = Some(mailbox);
                self.shown = Shown::new(alloc);
            }
            Move::Shows { shown } => self.shown = shown,
        }
    }
}
