//! The commands of the program.

ghost use Rattle.std.specs.Prelude.{◌≡◌, ◌≤◌, ◌↔◌, map, codes, Some, IsTrue, string_bytes};
ghost use Rattle.pc_base.specs.Stream.{Rose};
ghost use Rattle.pcmail.specs.Run.{IsReplay, RunEnds, RunCompletes, RunRefuses, end_of};

use crate::status::Status;
use pc_base::{Sink, Source};
use pc_world::{ReplayEnd, replay};
use std::alloc::Global;

/// Runs the command that the words name. `replay` plays the script that the input gives and writes
/// its transcript. Other words are no command yet.
pub fn run<S: Source, K: Sink>(
    alloc: Global,
    words: &[String],
    input: &mut S,
    output: &mut K,
) -> Status
    // Usage comes exactly where the words aren't the one word `replay`.
    ensures usage { (result ≡ Status.Usage) ↔ (IsReplay (map string_bytes words.now) → ⊥) }

    // What was read and written, by the status.
    ensures ends { RunEnds (S.left input.old) (S.left input.new) (K.written output.old) (K.written output.new) result }
    ensures untouched { result ≡ Status.Usage → (input.new ≡ input.old) × (output.new ≡ output.old) }

    // The causes of the failures of either side.
    ensures read { result ≡ Status.ReadFault → Rose (S.faults input.old) (S.faults input.new) }
    ensures write { result ≡ Status.WriteFault → Rose (K.faults output.old) (K.faults output.new) }

    // What succeeds, and which refusal comes.
    ensures complete { IsReplay (map string_bytes words.now) → RunCompletes (S.left input.old) (Rose (S.faults input.old) (S.faults input.new)) (Rose (K.faults output.old) (K.faults output.new)) result }
    ensures refuses { IsReplay (map string_bytes words.now) → RunRefuses (S.left input.old) (Rose (S.faults input.old) (S.faults input.new)) (Rose (K.faults output.old) (K.faults output.new)) result }

    ensures input_count { S.faults input.old ≤ S.faults input.new }
    ensures output_count { K.faults output.old ≤ K.faults output.new }
{
    if !is_replay(words) {
        return Status::Usage;
    }
    status_of(replay(alloc, input, output))
}

fn is_replay(words: &[String]) -> bool
    ensures { IsTrue result ↔ IsReplay (map string_bytes words.now) }
{
    match words {
        [word] => is_replay_word(word),
        _ => false,
    }
}

fn is_replay_word(word: &String) -> bool
    ensures { IsTrue result ↔ (string_bytes word.now ≡ codes "replay") }
{
    word.as_str() == "replay"
}

fn status_of(end: ReplayEnd) -> Status
    ensures { end_of result ≡ Some end }
{
    match end {
        ReplayEnd::Done => Status::Ok,
        ReplayEnd::Refused { line } => Status::InputRefused { line },
        ReplayEnd::ReadFault => Status::ReadFault,
        ReplayEnd::WriteFault => Status::WriteFault,
        ReplayEnd::Memory => Status::Memory,
    }
}
