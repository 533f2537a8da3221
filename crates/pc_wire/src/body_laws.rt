//! Laws of bodies and body feeds. The functions do nothing: each contract is a law.

ghost use Rattle.std.specs.Prelude.{◌≡◌, ◌≤◌, ℕ, ◌↔◌, false, List, [], ◌∷◌, ◌++◌, ◌⊎◌, Some, Ok, Err, Result, map};
ghost use Rattle.std.specs.List.{AllZip, list_any};
ghost use Rattle.pc_base.specs.declared.failure.Memory.{Memory};
ghost use Rattle.pc_wire.specs.Lines.{has_feed, lines_of, AreSpellings};
ghost use Rattle.pc_wire.specs.Next.{ShowsLine};
ghost use Rattle.pc_wire.specs.Body.{dot, Carries, IsBody, sent_as, written_body};
ghost use Rattle.pc_wire.specs.BodyFeed.{Sent, sent_of, sent_within, is_dot, is_end, content_of, answer_after, answer_within, IsAnswer, BodyState, after, wanting, TakesLine, TakesAll};
ghost use Rattle.pc_wire.specs.declared.line_feed.Next.{Next};
ghost use Rattle.pc_wire.specs.declared.body_feed.BodyStep.{BodyStep};
ghost use Rattle.pc_wire.specs.declared.body_feed.BodyStep.TheVariants.{More, Whole};

/// Each sent line but the single dot carries one line of content; the dot carries none.
pub fn one_line_is_carried()
    ensures { (sent line : List ℕ) → (Carries sent line ↔ ((is_dot sent ≡ false) × (line ≡ content_of sent))) }
{}

/// What is written of lines without LF is a body of them.
pub fn written_is_body()
    ensures { (lines : List (List ℕ)) → list_any has_feed lines ≡ false → IsBody lines (written_body lines) }
{}

/// No body begins another, and none is a body of two lists of lines.
pub fn bodies_differ()
    ensures { (first second more other : List ℕ) (lines others : List (List ℕ)) → IsBody lines first → IsBody others second →
        first ++ more ≡ second ++ other → (first ≡ second) × (lines ≡ others) }
{}

/// A line that a line feed shows is past its limit or comes as it is.
pub fn shown_line_comes()
    ensures { (limit : ℕ) (line : List ℕ) (shown : Next) → limit ≤ 1000 → ShowsLine limit line shown →
        sent_of shown ≡ sent_within limit line }
{}

/// The answer to a dot is the one that fits what the lines before it carry, and no other.
pub fn answer_is_exact()
    ensures { (most_bytes most_lines : ℕ) (came : List Sent) (step : BodyStep) → list_any is_end came ≡ false →
        ((step ≡ answer_after most_bytes most_lines came) ↔ IsAnswer most_bytes most_lines came step) }
{}

/// One more line before the dot: what is held is a function of the lines that came, or memory was wanted.
pub fn line_joins()
    ensures { (most_bytes most_lines : ℕ) (came : List Sent) (sent : Sent) (new : BodyState) (result : Result BodyStep Memory) →
        is_end sent ≡ false → TakesLine (after most_bytes most_lines came) sent new result →
        ((result ≡ Ok More) × (new ≡ after most_bytes most_lines (came ++ sent ∷ [])))
        ⊎ ((result ≡ Err (record {})) × (new ≡ wanting most_bytes most_lines)) }
{}

/// Many lines before the dot, one after another.
pub fn lines_join()
    ensures kept { (most_bytes most_lines : ℕ) (came more : List Sent) (new : BodyState) →
        TakesAll (after most_bytes most_lines came) more new →
        (new ≡ after most_bytes most_lines (came ++ more)) ⊎ (new ≡ wanting most_bytes most_lines) }
    ensures dropped { (most_bytes most_lines : ℕ) (more : List Sent) (new : BodyState) →
        TakesAll (wanting most_bytes most_lines) more new → new ≡ wanting most_bytes most_lines }
{}

/// A text that begins with a body has its sent lines and the dot first. After these lines the dot is
/// answered with the body's lines, unless they pass a number or a sent line is past its limit. Only
/// bodies are answered so.
pub fn body_is_read()
    ensures all { (most_bytes most_lines limit : ℕ) (lines : List (List ℕ)) (bytes rest : List ℕ) → IsBody lines bytes →
        (sent : List (List ℕ)) × (
        (lines_of (bytes ++ rest) ≡ sent ++ dot ∷ lines_of rest)
        × AllZip Carries sent lines
        × (list_any is_dot sent ≡ false)
        × (answer_after most_bytes most_lines (map (sent_within limit) sent)
        ≡ answer_within most_bytes most_lines limit sent lines)) }
    ensures only { (most_bytes most_lines limit : ℕ) (lines : List (List ℕ)) (bytes : List ℕ) (sent : List (List ℕ)) →
        list_any is_dot sent ≡ false → AreSpellings bytes (sent ++ dot ∷ []) →
        answer_after most_bytes most_lines (map (sent_within limit) sent) ≡ Whole lines → IsBody lines bytes }
{}

/// What is written of lines without LF is read again as them, whatever follows.
pub fn written_is_read()
    ensures { (most_bytes most_lines limit : ℕ) (lines : List (List ℕ)) (rest : List ℕ) → list_any has_feed lines ≡ false →
        (lines_of (written_body lines ++ rest) ≡ map sent_as lines ++ dot ∷ lines_of rest)
        × (answer_after most_bytes most_lines (map (sent_within limit) (map sent_as lines))
        ≡ answer_within most_bytes most_lines limit (map sent_as lines) lines) }
{}
