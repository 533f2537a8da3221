//! A connection: its lines are read as requests, and each is answered.

ghost use Rattle.std.specs.Prelude.{◌≡◌, ℕ, ◌≤◌, false, List, length, None, Some, IfOk, MatchBool};
ghost use Rattle.pc_base.specs.Stream.{Rose};
ghost use Rattle.pc_request.specs.Request.{IsWritable};
ghost use Rattle.pc_request.specs.declared.request.Request.TheVariants as asking;
ghost use Rattle.pc_wire.specs.LineFeed.{fed};
ghost use Rattle.pc_wire.specs.Lines.{has_feed};
ghost use Rattle.pc_session.specs.Conversation.{Conversed, Exchange, Leaves, Talked, at_first, refusal_of as refusal};
ghost use Rattle.pc_session.specs.Talking.{AnswersLine, AnswersNext, AnswersPiece, AsksFor};
ghost use Rattle.pc_session.specs.declared.conversing.Cause.{Cause as EndCause};

use crate::answered::plain_reply;
use crate::receipts::Receipts;
use crate::repository::Repository;
use crate::session::Session;
use pc_base::{Link, Refusal};
use pc_reply::{Head, Reply};
use pc_request::laws::{one_request_a_line, requests_have_no_fault};
use pc_request::{Request, RequestFault};
use pc_wire::laws::{line_comes, line_goes_on, lines_are_spelled};
use pc_wire::{LineFeed, Next};
use std::alloc::Global;

/// The most bytes of a request line, without what ends it.
const MOST_LINE: u16 = 512;

/// The most bytes that are read of one connection, 1 GiB.
const MOST_READ: usize = 1_073_741_824;

/// The most bytes that are read at once.
const PIECE: usize = 4_096;

/// Why a connection ended.
#[derive(Clone, Copy, Debug, PartialEq, Eq)]
pub enum Cause {
    /// LOGOUT was answered.
    Left,
    /// The link gave its end.
    End,
    /// The link failed.
    LinkFault,
    /// 1 GiB was read, and no line of it asked to leave.
    Long,
}

/// A connection that ended: why, and the receipts of its session's changes.
#[derive(Drop)]
pub struct Ended {
    pub cause: Cause,
    pub receipts: Receipts,
}

/// Serves one connection: it is greeted, and each of its lines is answered, in a session of its own, up to one that
/// asks to leave. A line that the link's end cuts off is dropped. A line is answered before the next is looked at, and the
/// first reply that can't be written whole ends the connection.
pub fn converse<R: Repository, L: Link>(alloc: Global, repository: &mut R, link: &mut L) -> Ended
    ensures conversed { Conversed R.tells R.disks_tell (R.users repository.old) (R.desks repository.old) (R.desks repository.new)
        (L.left link.old) (L.left link.new) (L.written link.old) (L.written link.new) result.cause result.receipts }
    ensures fault { result.cause ≡ EndCause.LinkFault → Rose (L.faults link.old) (L.faults link.new) }
    ensures faults { L.faults link.old ≤ L.faults link.new }
    ensures users { R.users repository.new ≡ R.users repository.old }
{
    let mut session = Session::new(alloc);
    let cause = talk(alloc, repository, &mut session, link);
    repository.end(&mut session);
    Ended {
        cause,
        receipts: session.receipts(),
    }
}

/// Answers a line of a session, without what ended it: 402 where it has more than 512 bytes, and 400, 401, 411 or 413
/// where it is no request.
pub fn answer_line<R: Repository>(
    alloc: Global,
    repository: &mut R,
    session: &mut Session,
    line: &[u8],
) -> Reply
    ensures exchange { Exchange R.tells R.disks_tell (R.users repository.old) line.now (R.desks repository.old) session.old result (R.desks repository.new) session.new }
    ensures users { R.users repository.new ≡ R.users repository.old }
{
    let asked = request_of(line);
    reply_to(alloc, repository, session, &asked)
}

// Greets the link, and answers what it says in a new session.
fn talk<R: Repository, L: Link>(
    alloc: Global,
    repository: &mut R,
    session: &mut Session,
    link: &mut L,
) -> Cause
    requires { session.old ≡ at_first }
    ensures talked { Talked R.tells R.disks_tell (R.users repository.old) (R.desks repository.old) (R.desks repository.new) session.new
        (L.left link.old) (L.left link.new) (L.written link.old) (L.written link.new) result }
    ensures fault { result ≡ EndCause.LinkFault → Rose (L.faults link.old) (L.faults link.new) }
    ensures faults { L.faults link.old ≤ L.faults link.new }
    ensures users { R.users repository.new ≡ R.users repository.old }
{
    if plain_reply(alloc, &Head::Ready).write(link).is_err() {
        return Cause::LinkFault;
    }
    let mut feed = LineFeed::new(MOST_LINE);
    let mut buffer = [0; PIECE];
    let mut rest = MOST_READ;
    while rest > 0 {
        let room = rest.min(PIECE);
        let Ok(count) = link.read(&mut buffer[..room]) else {
            return Cause::LinkFault;
        };
        if count == 0 {
            return Cause::End;
        }
        let piece = &buffer[..count];
        if let Some(cause) = answer_piece(alloc, repository, session, link, &mut feed, piece) {
            return cause;
        }
        rest -= count;
    }
    Cause::Long
}

// Answers the lines that end in a piece. A cause ends the connection.
fn answer_piece<R: Repository, L: Link>(
    alloc: Global,
    repository: &mut R,
    session: &mut Session,
    link: &mut L,
    feed: &mut LineFeed,
    piece: &[u8],
) -> Option<Cause>
    requires limit { feed.old.limit ≡ 512 }
    requires open { feed.old.is_whole ≡ false }
    ensures piece { (begun : List ℕ) → has_feed begun ≡ false → feed.old ≡ fed 512 begun →
        AnswersPiece R.tells R.disks_tell (R.users repository.old) begun piece.now (R.desks repository.old) session.old (L.written link.old) result
        (R.desks repository.new) session.new (L.written link.new) feed.new }
    ensures limit { feed.new.limit ≡ 512 }
    ensures open { feed.new.is_whole ≡ false }
    ensures beside { L.left link.new ≡ L.left link.old }
    ensures fault { result ≡ Some EndCause.LinkFault → Rose (L.faults link.old) (L.faults link.new) }
    ensures faults { L.faults link.old ≤ L.faults link.new }
    ensures users { R.users repository.new ≡ R.users repository.old }
{
    lines_are_spelled();
    line_comes();
    line_goes_on();
    let mut rest = piece;
    while !rest.is_empty() {
        let count = feed.feed(rest);
        if let Some(cause) = answer_next(alloc, repository, session, link, feed) {
            return Some(cause);
        }
        rest = &rest[count..];
    }
    None
}

// Answers the line that waits in the feed, if one does.
fn answer_next<R: Repository, L: Link>(
    alloc: Global,
    repository: &mut R,
    session: &mut Session,
    link: &mut L,
    feed: &mut LineFeed,
) -> Option<Cause>
    requires { feed.old.limit ≡ 512 }
    ensures next { AnswersNext R.tells R.disks_tell (R.users repository.old) feed.old (R.desks repository.old) session.old (L.written link.old) result
        (R.desks repository.new) session.new (L.written link.new) feed.new }
    ensures limit { feed.new.limit ≡ 512 }
    ensures open { feed.new.is_whole ≡ false }
    ensures beside { L.left link.new ≡ L.left link.old }
    ensures fault { result ≡ Some EndCause.LinkFault → Rose (L.faults link.old) (L.faults link.new) }
    ensures faults { L.faults link.old ≤ L.faults link.new }
    ensures users { R.users repository.new ≡ R.users repository.old }
{
    let asked = match feed.next() {
        Next::More => return None,
        Next::Line(line) => request_of(line),
        Next::TooLong => Err(Refusal::LineTooLong),
    };
    feed.consume();
    answer(alloc, repository, session, link, &asked)
}

// Answers what a line asks for.
fn answer<R: Repository, L: Link>(
    alloc: Global,
    repository: &mut R,
    session: &mut Session,
    link: &mut L,
    asked: &Result<Request, Refusal>,
) -> Option<Cause>
    requires { IfOk asked.now IsWritable }
    ensures line { (line : List ℕ) → AsksFor line asked.now →
        AnswersLine R.tells R.disks_tell (R.users repository.old) line (R.desks repository.old) session.old (L.written link.old) result
        (R.desks repository.new) session.new (L.written link.new) }
    ensures beside { L.left link.new ≡ L.left link.old }
    ensures fault { result ≡ Some EndCause.LinkFault → Rose (L.faults link.old) (L.faults link.new) }
    ensures faults { L.faults link.old ≤ L.faults link.new }
    ensures users { R.users repository.new ≡ R.users repository.old }
{
    let reply = reply_to(alloc, repository, session, asked);
    let is_last = leaves(asked);
    if reply.write(link).is_err() {
        return Some(Cause::LinkFault);
    }
    if is_last {
        return Some(Cause::Left);
    }
    None
}

// The reply to what a line asks for.
fn reply_to<R: Repository>(
    alloc: Global,
    repository: &mut R,
    session: &mut Session,
    asked: &Result<Request, Refusal>,
) -> Reply
    requires { IfOk asked.now IsWritable }
    ensures line { (line : List ℕ) → AsksFor line asked.now →
        Exchange R.tells R.disks_tell (R.users repository.old) line (R.desks repository.old) session.old result (R.desks repository.new) session.new }
    ensures users { R.users repository.new ≡ R.users repository.old }
{
    match asked {
        Ok(request) => repository.ask(alloc, session, request),
        Err(why) => plain_reply(alloc, &Head::Refused(*why)),
    }
}

// Whether a line asks to leave.
fn leaves(asked: &Result<Request, Refusal>) -> bool
    ensures { (line : List ℕ) → AsksFor line asked.now → MatchBool result (Leaves line) (Leaves line → ⊥) }
{
    match asked {
        Ok(request) => is_logout(request),
        Err(_) => false,
    }
}

fn is_logout(request: &Request) -> bool
    ensures { MatchBool result (request.now ≡ asking.Logout) (request.now ≡ asking.Logout → ⊥) }
{
    match request {
        Request::Logout => true,
        _ => false,
    }
}

// What a line asks for, or why it is no request.
fn request_of(line: &[u8]) -> Result<Request, Refusal>
    ensures asks { AsksFor line.now result }
    ensures writable { IfOk result IsWritable }
{
    requests_have_no_fault();
    one_request_a_line();
    if line.len() > MOST_LINE as usize {
        return Err(Refusal::LineTooLong);
    }
    match Request::read(line) {
        Ok(request) => Ok(request),
        Err(fault) => Err(refusal_of(&fault)),
    }
}

/// The refusal that tells what is wrong with a request line.
pub fn refusal_of(fault: &RequestFault) -> Refusal
    ensures { result ≡ refusal fault.now }
{
    match fault {
        RequestFault::Unknown => Refusal::UnknownOperation,
        RequestFault::Arguments => Refusal::WrongArguments,
        RequestFault::BadName => Refusal::BadName,
        RequestFault::BadFlag => Refusal::NoSuchFlag,
    }
}
