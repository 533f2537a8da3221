//! Laws of replies and reply feeds. The functions do nothing: each contract is a law.

ghost use Rattle.std.specs.Prelude.{◌≡◌, ℕ, ◌≤◌, false, List, [], ◌++◌, ◌⊎◌, length, take, Ok, Err, Result};
ghost use Rattle.pc_base.specs.declared.failure.Memory.{Memory};
ghost use Rattle.pc_wire.specs.LineFeed.{Feeds};
ghost use Rattle.pc_reply.specs.Head.{IsHead};
ghost use Rattle.pc_reply.specs.Reply.{IsReply, CanBeSent, written_reply};
ghost use Rattle.pc_reply.specs.ReplyFeed.{ReplyState, begun, Nexts};
ghost use Rattle.pc_reply.specs.Told.{IsTold, HasCome, Tells};
ghost use Rattle.pc_reply.specs.Calls.{Call, Calls, Reads};
ghost use Rattle.pc_reply.specs.declared.head.Head.{Head};
ghost use Rattle.pc_reply.specs.declared.reply.Reply.{Reply};
ghost use Rattle.pc_reply.specs.declared.reply_feed.ReplyNext.{ReplyNext};
ghost use Rattle.pc_reply.specs.declared.reply_feed.ReplyNext.TheVariants.{More};

/// A line is at most one head.
pub fn one_head_a_line()
    ensures { (one other : Head) (line : List ℕ) → IsHead one line → IsHead other line → one ≡ other }
{}

/// No reply begins another, and none is two replies.
pub fn replies_differ()
    ensures { (one other : Reply) (first second more rest : List ℕ) → IsReply one first → IsReply other second →
        first ++ more ≡ second ++ rest → (first ≡ second) × (one ≡ other) }
{}

/// Nothing came into a new feed, and a call of `feed` adds what it takes, in any cutting.
pub fn pieces_come()
    ensures none { HasCome begun [] }
    ensures more { (old new : ReplyState) (bytes piece : List ℕ) (count : ℕ) → HasCome old bytes →
        Feeds old.line new.line piece count → new ≡ record old { line = new.line } →
        HasCome new (bytes ++ take count piece) }
{}

/// No byte past a reply is taken, and none at all while a whole one waits for `next`.
pub fn takes_just_a_reply()
    ensures within { (old new : ReplyState) (reply : Reply) (bytes left piece beyond other : List ℕ) (count : ℕ) →
        HasCome old bytes → IsReply reply (bytes ++ left) → piece ++ beyond ≡ left ++ other →
        Feeds old.line new.line piece count → count ≤ length left }
    ensures waits { (old new : ReplyState) (reply : Reply) (bytes piece : List ℕ) (count : ℕ) → HasCome old bytes →
        IsReply reply bytes → Feeds old.line new.line piece count → (count ≡ 0) × (new.line ≡ old.line) }
{}

/// What a call of `next` tells is true of the bytes that came since the last reply, whatever the pieces.
pub fn told_is_true()
    ensures { (old new : ReplyState) (bytes : List ℕ) (result : Result ReplyNext Memory) → HasCome old bytes →
        Nexts old old.progress new result → Tells bytes new result }
{}

/// Of the bytes at most one thing is true that can be told, and what is true is told unless memory
/// is wanted.
pub fn truth_is_told()
    ensures one { (bytes : List ℕ) (one other : ReplyNext) → IsTold bytes one → IsTold bytes other → one ≡ other }
    ensures told { (bytes : List ℕ) (next : ReplyNext) (new : ReplyState) (result : Result ReplyNext Memory) →
        IsTold bytes next → Tells bytes new result → (result ≡ Ok next) ⊎ (result ≡ Err (record {})) }
{}

/// After `More` no line waits, so that `feed` takes bytes where there are any.
pub fn more_takes_on()
    ensures { (old new : ReplyState) → Nexts old old.progress new (Ok More) → new.line.is_whole ≡ false }
{}

/// A reply is read from its bytes, whatever follows them and in any cutting: what is taken is of the
/// reply alone, and `next` answers the reply once all its bytes are taken, and `More` before, unless
/// memory is wanted.
pub fn reply_is_read()
    ensures { (reply : Reply) (bytes rest left : List ℕ) (calls : List Call) (state : ReplyState) → IsReply reply bytes →
        Calls begun (bytes ++ rest) calls state left → Reads reply rest state left }
{}

/// So is what is written for a reply that can be sent.
pub fn written_is_read()
    ensures { (reply : Reply) (rest left : List ℕ) (calls : List Call) (state : ReplyState) → CanBeSent reply →
        Calls begun (written_reply reply ++ rest) calls state left → Reads reply rest state left }
{}
