//! Replies that come in pieces.

ghost use Rattle.std.specs.Prelude.{◌≡◌, ◌<◌, ◌≤◌, false, length, IsTrue};
ghost use Rattle.pc_base.specs.Line.{is_line};
ghost use Rattle.pc_wire.specs.LineFeed.{Feeds};
ghost use Rattle.pc_reply.specs.ReplyFeed.{begun, IsGoing, Nexts, Stops, TakesNext};
ghost use Rattle.pc_reply.specs.Steps.{HeadStep, ItemStep, StageStep, TakesLines, IsHolding, lines_in};

use crate::head::Head;
use crate::reply::Reply;
use pc_base::{Lines, Memory};
use pc_wire::{BodyFeed, BodyStep, LineFeed, Next};
use std::alloc::Global;
use std::marker::Model;
use std::mem;

/// The most bytes of a head as it is sent.
const HEAD_LIMIT: u16 = 512;

/// The most bytes of a line of a list as it is sent.
const LINE_LIMIT: u16 = 1000;

/// The most lines of a list.
const MOST_LINES: u32 = 32_768;

/// The most bytes of a list, with two for the end of each line.
const MOST_BYTES: u32 = 4_194_304;

/// What a feed has of the next reply.
#[derive(Drop)]
pub enum ReplyNext {
    /// The reply.
    Whole(Reply),
    /// No reply is whole yet.
    More,
    /// No reply begins with the bytes that came. The place is where the first line begins, counted from
    /// the reply's first byte, that fits none.
    Bad { place: u64 },
}

/// What the lines make that were taken since the last reply.
#[derive(Drop)]
pub(crate) enum Stage {
    /// None was taken.
    Begun,
    /// A head and maybe lines of its list.
    Listing(Head, BodyFeed),
    /// The line at this place fits no reply.
    Stopped(u64),
    /// Memory was wanted for a line.
    Wanting,
}

/// What one line more makes.
#[derive(Drop)]
pub(crate) enum Step {
    /// A whole reply.
    Whole(Reply),
    /// The reply goes on.
    On(Stage),
    /// The line fits no reply.
    Bad,
}

/// Cuts bytes that come in pieces into replies. It holds no more than a reply may have.
#[derive(Drop)]
pub struct ReplyFeed {
    alloc: Global,
    stage: Stage,
    place: u64,
    line: LineFeed,
}

impl Model for ReplyFeed {
    ghost use Rattle.pc_reply.specs.ReplyFeed.{ReplyState};

    ghost Value = { ReplyState };

    ghost use Rattle.pc_reply.specs.Steps.{progress_of, IsCounted};

    ghost view = { λ f. record { progress = progress_of f.stage; place = f.place; line = f.line } };

    ghost use Rattle.std.specs.Prelude.{◌≤◌};

    ghost invariant = { λ f. (f.line.limit ≤ 1000) × IsCounted f.stage f.place };
}

impl ReplyFeed {
    /// A feed of which nothing came.
    pub fn new(alloc: Global) -> ReplyFeed
        ensures { result ≡ begun }
    {
        ReplyFeed {
            alloc,
            stage: Stage::Begun,
            place: 0,
            line: LineFeed::new(HEAD_LIMIT),
        }
    }

    /// Takes bytes up to and with the next LF, and answers how many; none while a whole line waits for
    /// `next`.
    pub fn feed(&mut self, piece: &[u8]) -> usize
        ensures line { Feeds self.old.line self.new.line piece.now result }
        ensures others { self.new ≡ record self.old { line = self.new.line } }
        ensures within { result ≤ length piece.now }
        ensures some { self.old.line.is_whole ≡ false → 0 < length piece.now → 0 < result }
    {
        self.line.feed(piece)
    }

    /// Takes the line that waits, if one does. `Bad` comes once the line that fits no reply has ended or
    /// passed its limit. After `Bad` or `Memory` the answer stays the same.
    pub fn next(&mut self) -> Result<ReplyNext, Memory>
        ensures { Nexts self.old self.old.progress self.new result }
    {
        match &self.stage {
            Stage::Stopped(place) => Ok(ReplyNext::Bad { place: *place }),
            Stage::Wanting => Err(Memory),
            Stage::Begun => self.take_next(),
            Stage::Listing(_, _) => self.take_next(),
        }
    }

    /// Takes the line that waits, if one does.
    fn take_next(&mut self) -> Result<ReplyNext, Memory>
        requires { IsGoing self.old.progress }
        ensures { TakesNext self.old self.new result }
    {
        if self.line.over() {
            return Ok(self.stop());
        }
        let line = match self.line.next() {
            Next::More => return Ok(ReplyNext::More),
            Next::TooLong => return Ok(self.stop()),
            Next::Line(line) => line,
        };
        // Where the line can't be kept, want of memory stands.
        let stage = mem::replace(&mut self.stage, Stage::Wanting);
        match next_step(self.alloc, stage, line)? {
            Step::Whole(reply) => {
                self.begin();
                Ok(ReplyNext::Whole(reply))
            }
            Step::On(stage) => {
                self.place += self.line.count() as u64 + 1;
                self.stage = stage;
                self.line = LineFeed::new(LINE_LIMIT);
                Ok(ReplyNext::More)
            }
            Step::Bad => Ok(self.stop()),
        }
    }

    /// Begins the next reply.
    fn begin(&mut self)
        ensures { self.new ≡ begun }
    {
        self.stage = Stage::Begun;
        self.place = 0;
        self.line = LineFeed::new(HEAD_LIMIT);
    }

    /// The line that comes fits no reply.
    fn stop(&mut self) -> ReplyNext
        ensures { Stops self.old self.new result }
    {
        self.stage = Stage::Stopped(self.place);
        ReplyNext::Bad { place: self.place }
    }
}

/// What a line makes behind those that were taken.
fn next_step(alloc: Global, stage: Stage, line: &[u8]) -> Result<Step, Memory>
    requires line { IsTrue (is_line line.now) }
    requires going { TakesLines stage }
    ensures { StageStep stage line.now result }
{
    match stage {
        Stage::Begun => Ok(first_step(alloc, line)),
        Stage::Listing(head, body) => item_step(head, body, line),
        Stage::Stopped(_) | Stage::Wanting => unreachable!(),
    }
}

/// What a line makes as the first.
fn first_step(alloc: Global, line: &[u8]) -> Step
    ensures { HeadStep line.now result }
{
    let Some(head) = Head::read(line) else {
        return Step::Bad;
    };
    if head.has_list() {
        return Step::On(Stage::Listing(head, BodyFeed::new(alloc, MOST_BYTES, MOST_LINES)));
    }
    Step::Whole(Reply {
        head,
        lines: Lines::new(alloc),
    })
}

/// What a line makes behind a head and lines of its list.
fn item_step(head: Head, mut body: BodyFeed, line: &[u8]) -> Result<Step, Memory>
    requires line { IsTrue (is_line line.now) }
    requires going { IsHolding body }
    ensures { ItemStep head (lines_in body.so_far) line.now result }
{
    match body.line(Next::Line(line))? {
        BodyStep::Whole(lines) => Ok(Step::Whole(Reply { head, lines })),
        _ if body.is_refused() => Ok(Step::Bad),
        _ => Ok(Step::On(Stage::Listing(head, body))),
    }
}
