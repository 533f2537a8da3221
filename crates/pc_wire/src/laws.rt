//! Laws of lines and feeds. The functions do nothing: each contract is a law.

ghost use Rattle.std.specs.Prelude.{◌≡◌, ℕ, ◌<◌, ◌↔◌, true, false, List, [], ◌∷◌, ◌++◌, length, take, drop};
ghost use Rattle.std.specs.List.{concat};
ghost use Rattle.pc_wire.specs.Lines.{has_feed, before_feed, lines_of, without_return, IsSpelling, AreSpellings};
ghost use Rattle.pc_wire.specs.LineFeed.{FeedState, fed, Feeds, FeedsAll, IsOver};
ghost use Rattle.pc_wire.specs.Next.{ShowsLine, ShowsNext, ShowsLast};
ghost use Rattle.pc_wire.specs.declared.line_feed.Next.{Next};

/// A line is what stands before its LF, without one CR directly before that.
pub fn feed_ends_line()
    ensures { (front rest : List ℕ) → has_feed front ≡ false →
        lines_of (front ++ 10 ∷ rest) ≡ without_return front ∷ lines_of rest }
{}

/// Bytes without LF at the end of a text are a line, with their CR; no bytes are none.
pub fn last_needs_no_feed()
    ensures none { lines_of [] ≡ [] }
    ensures one { (rest : List ℕ) → has_feed rest ≡ false → 0 < length rest → lines_of rest ≡ rest ∷ [] }
{}

/// A text that begins with spellings has their lines first.
pub fn spellings_are_lines()
    ensures one { (spelling line rest : List ℕ) → IsSpelling spelling line →
        lines_of (spelling ++ rest) ≡ line ∷ lines_of rest }
    ensures each { (bytes : List ℕ) (lines : List (List ℕ)) (rest : List ℕ) → AreSpellings bytes lines →
        lines_of (bytes ++ rest) ≡ lines ++ lines_of rest }
{}

/// What stands up to an LF spells a line.
pub fn lines_are_spelled()
    ensures { (front : List ℕ) → has_feed front ≡ false → IsSpelling (front ++ 10 ∷ []) (without_return front) }
{}

/// No spelling begins another, and none spells two lines.
pub fn spellings_differ()
    ensures { (first second more other : List ℕ) (line another : List ℕ) → IsSpelling first line → IsSpelling second another →
        first ++ more ≡ second ++ other → (first ≡ second) × (line ≡ another) }
{}

/// What a feed holds is a function of the bytes since the last line was let go, however they were cut.
pub fn pieces_join()
    ensures { (limit : ℕ) (since : List ℕ) (new : FeedState) (pieces : List (List ℕ)) →
        FeedsAll (fed limit since) new pieces → new ≡ fed limit (since ++ concat pieces) }
{}

/// One call adds what it takes to the bytes since the last line was let go.
pub fn piece_joins()
    ensures { (limit : ℕ) (since : List ℕ) (new : FeedState) (piece : List ℕ) (count : ℕ) →
        Feeds (fed limit since) new piece count → new ≡ fed limit (since ++ take count piece) }
{}

/// Where the LF comes in a call, the first line of the text is shown, and the other lines are in what
/// follows the bytes taken.
pub fn line_comes()
    ensures lines { (limit : ℕ) (since : List ℕ) (new : FeedState) (piece : List ℕ) (count : ℕ) (rest : List ℕ) →
        has_feed since ≡ false → Feeds (fed limit since) new piece count → new.is_whole ≡ true →
        lines_of (since ++ piece ++ rest)
        ≡ without_return (since ++ before_feed piece) ∷ lines_of (drop count piece ++ rest) }
    ensures shown { (limit : ℕ) (since : List ℕ) (new : FeedState) (piece : List ℕ) (count : ℕ) (shown : Next) →
        has_feed since ≡ false → Feeds (fed limit since) new piece count → new.is_whole ≡ true →
        ShowsNext new shown → ShowsLine limit (without_return (since ++ before_feed piece)) shown }
{}

/// Where no LF comes in a call, the whole piece is taken, and the line goes on.
pub fn line_goes_on()
    ensures { (limit : ℕ) (since : List ℕ) (new : FeedState) (piece : List ℕ) (count : ℕ) →
        has_feed since ≡ false → Feeds (fed limit since) new piece count → new.is_whole ≡ false →
        (count ≡ length piece) × (has_feed (since ++ piece) ≡ false) × (new ≡ fed limit (since ++ piece)) }
{}

/// At the end of a text the last line is shown, unless the bytes since the last LF are none.
pub fn last_line_shows()
    ensures { (limit : ℕ) (since : List ℕ) (shown : Next) → has_feed since ≡ false → 0 < length since →
        ShowsLast (fed limit since) shown → ShowsLine limit since shown }
{}

/// A line is over exactly where it is too long whatever follows.
pub fn over_stays()
    ensures { (limit : ℕ) (since : List ℕ) → has_feed since ≡ false →
        (IsOver (fed limit since) ↔ ((more : List ℕ) → limit < length (without_return (since ++ more)))) }
{}
