//! The replay of a script: its lines are read, played and written as a transcript.

ghost use Rattle.std.specs.Prelude.{◌≡◌, ℕ, ◌≤◌, List, [], IsTrue, is_some};
ghost use Rattle.pc_base.specs.Name.{is_name};
ghost use Rattle.pc_base.specs.Stream.{Rose, HasCause};
ghost use Rattle.pc_wire.specs.Next.{ShowsLine};
ghost use Rattle.pc_wire.specs.Reader.{TakesFront, no_line, unread};
ghost use Rattle.pc_world.specs.Reading.{IsAsking};
ghost use Rattle.pc_world.specs.Steps.{entries_of};
ghost use Rattle.pc_world.specs.Replay.{PlaysLine, TakesTurn, Finishes, Sends, Ends, Completes, Refuses};

use crate::laws::{refused_once, refused_or_run};
use crate::reading::read_event;
use crate::turn::Turn;
use crate::world::World;
use pc_base::{Failed, Sink, Source, write_all};
use pc_wire::{Fetched, LineReader, Next};
use std::alloc::Global;

/// The most lines of a script.
const MOST_LINES: u64 = 1_000_000;

/// The end at a line past them.
const PAST: ReplayEnd = ReplayEnd::Refused {
    line: MOST_LINES + 1,
};

/// How many bytes are printed before they are written.
const FULL: usize = 32_768;

/// How a replay ended.
#[derive(Clone, Copy, Debug, PartialEq, Eq)]
pub enum ReplayEnd {
    /// The script was played to its end.
    Done,
    /// The line with this number is no event, names what isn't there, or is one too many.
    Refused { line: u64 },
    /// The input failed.
    ReadFault,
    /// The output failed.
    WriteFault,
    /// Want of memory.
    Memory,
}

/// Plays the script that the input gives, line by line. What is written is what its events print
/// where it is played to its end, what those before a refused line print, and else a front of it.
pub fn replay<S: Source, K: Sink>(alloc: Global, input: &mut S, output: &mut K) -> ReplayEnd
    ensures ends { Ends (S.left input.old) (S.left input.new) (K.written output.old) (K.written output.new) result }
    ensures read { result ≡ ReplayEnd.ReadFault → Rose (S.faults input.old) (S.faults input.new) }
    ensures write { result ≡ ReplayEnd.WriteFault → Rose (K.faults output.old) (K.faults output.new) }
    ensures complete { Completes (S.left input.old) (Rose (S.faults input.old) (S.faults input.new)) (Rose (K.faults output.old) (K.faults output.new)) result }
    ensures refuses { Refuses (S.left input.old) (Rose (S.faults input.old) (S.faults input.new)) (Rose (K.faults output.old) (K.faults output.new)) result }
    ensures input_count { S.faults input.old ≤ S.faults input.new }
    ensures output_count { K.faults output.old ≤ K.faults output.new }
{
    // A script has one outcome.
    refused_or_run();
    refused_once();
    play_all(alloc, input, output)
}

fn play_all<S: Source, K: Sink>(alloc: Global, input: &mut S, output: &mut K) -> ReplayEnd
    ensures ends { Ends (S.left input.old) (S.left input.new) (K.written output.old) (K.written output.new) result }
    ensures read { result ≡ ReplayEnd.ReadFault → Rose (S.faults input.old) (S.faults input.new) }
    ensures write { result ≡ ReplayEnd.WriteFault → Rose (K.faults output.old) (K.faults output.new) }
    ensures input_count { S.faults input.old ≤ S.faults input.new }
    ensures output_count { K.faults output.old ≤ K.faults output.new }
{
    let Ok(mut lines) = LineReader::new(alloc, 1000) else {
        return ReplayEnd::Memory;
    };
    let mut world = World::new(alloc);
    let mut text = Vec::new(alloc);
    play_lines(alloc, input, output, &mut lines, &mut world, &mut text)
}

/// Plays what the lines say in a new world.
fn play_lines<S: Source, K: Sink>(
    alloc: Global,
    input: &mut S,
    output: &mut K,
    lines: &mut LineReader,
    world: &mut World,
    text: &mut Vec<u8>,
) -> ReplayEnd
    requires lines { lines.old ≡ record { limit = 1000; ahead = []; waits = no_line } }
    requires world { world.old ≡ [] }
    requires text { text.old.items ≡ [] }
    ensures ends { Ends (S.left input.old) (S.left input.new) (K.written output.old) (K.written output.new) result }
    ensures read { result ≡ ReplayEnd.ReadFault → Rose (S.faults input.old) (S.faults input.new) }
    ensures write { result ≡ ReplayEnd.WriteFault → Rose (K.faults output.old) (K.faults output.new) }
    ensures input_count { S.faults input.old ≤ S.faults input.new }
    ensures output_count { K.faults output.old ≤ K.faults output.new }
{
    for number in 0..MOST_LINES {
        match play_next(alloc, input, lines, world, text) {
            Turn::Played => {}
            Turn::Ended => return finish(output, text, ReplayEnd::Done),
            Turn::Refused => return finish(output, text, ReplayEnd::Refused { line: number + 1 }),
            Turn::ReadFault => return finish(output, text, ReplayEnd::ReadFault),
            Turn::Memory => return finish(output, text, ReplayEnd::Memory),
        }
        let Ok(()) = send_full(output, text) else {
            return ReplayEnd::WriteFault;
        };
    }
    match lines.fetch(input) {
        Ok(Fetched::End) => finish(output, text, ReplayEnd::Done),
        Ok(Fetched::Waits) => finish(output, text, PAST),
        Ok(Fetched::Overlong) => finish(output, text, PAST),
        Err(_) => finish(output, text, ReplayEnd::ReadFault),
    }
}

/// Writes what is left of the text, and ends so.
fn finish<K: Sink>(output: &mut K, text: &Vec<u8>, end: ReplayEnd) -> ReplayEnd
    ensures end { Finishes (K.written output.old) (K.written output.new) (K.faults output.old) (K.faults output.new) text.now.items end result }
    ensures count { K.faults output.old ≤ K.faults output.new }
{
    if write_all(output, text.as_slice()).is_err() {
        return ReplayEnd::WriteFault;
    }
    end
}

/// Writes the text where there is much of it.
fn send_full<K: Sink>(output: &mut K, text: &mut Vec<u8>) -> Result<(), Failed>
    ensures content { Sends (K.written output.old) (K.written output.new) text.old.items text.new.items result }
    ensures cause { HasCause (K.faults output.old) (K.faults output.new) result }
{
    if text.len() < FULL {
        return Ok(());
    }
    write_all(output, text.as_slice())?;
    text.clear();
    Ok(())
}

/// Fetches the next line and plays it.
fn play_next<S: Source>(
    alloc: Global,
    input: &mut S,
    lines: &mut LineReader,
    world: &mut World,
    text: &mut Vec<u8>,
) -> Turn
    requires waits { lines.old.waits ≡ no_line }
    requires limit { lines.old.limit ≡ 1000 }
    ensures turn { TakesTurn world.old world.new text.old.items text.new.items (unread lines.old (S.left input.old)) (unread lines.new (S.left input.new)) result }
    ensures front { TakesFront (S.left input.old) (S.left input.new) }
    ensures cause { result ≡ Turn.ReadFault → Rose (S.faults input.old) (S.faults input.new) }
    ensures count { S.faults input.old ≤ S.faults input.new }
    ensures waits { lines.new.waits ≡ no_line }
    ensures limit { lines.new.limit ≡ 1000 }
{
    match lines.fetch(input) {
        Ok(Fetched::Waits) => {}
        Ok(Fetched::End) => return Turn::Ended,
        Ok(Fetched::Overlong) => return Turn::Refused,
        Err(_) => return Turn::ReadFault,
    }
    let turn = play_shown(alloc, lines.line(), world, text);
    lines.consume();
    turn
}

/// Plays the line that is shown.
fn play_shown(alloc: Global, shown: Next<'_>, world: &mut World, text: &mut Vec<u8>) -> Turn
    ensures { (line : List ℕ) → ShowsLine 1000 line shown.entry → PlaysLine world.old world.new text.old.items text.new.items line result }
{
    match shown {
        Next::Line(line) => play_line(alloc, line, world, text),
        _ => Turn::Refused,
    }
}

/// Plays a line.
fn play_line(alloc: Global, line: &[u8], world: &mut World, text: &mut Vec<u8>) -> Turn
    ensures { PlaysLine world.old world.new text.old.items text.new.items line.now result }
{
    // Most lines are what a user asks who is there, and are played without an event.
    if let Some((user, words)) = world.asking(line) {
        return play_asked(alloc, user, words, world, text);
    }
    play_event(alloc, line, world, text)
}

/// Plays what a user asks with these words, who is there.
fn play_asked(
    alloc: Global,
    user: &[u8],
    words: &[u8],
    world: &mut World,
    text: &mut Vec<u8>,
) -> Turn
    requires { IsTrue (is_some (entries_of world.old user.now)) }
    ensures { (line : List ℕ) → IsAsking line user.now words.now → IsTrue (is_name user.now) → PlaysLine world.old world.new text.old.items text.new.items line result }
{
    let length = text.len();
    if world.ask_text(alloc, user, words, text).is_err() {
        text.truncate(length);
        return Turn::Memory;
    }
    Turn::Played
}

/// Plays the event that a line is. Out of line, so that other lines don't pay for its events.
#[inline(never)]
fn play_event(alloc: Global, line: &[u8], world: &mut World, text: &mut Vec<u8>) -> Turn
    ensures { PlaysLine world.old world.new text.old.items text.new.items line.now result }
{
    let read = read_event(line);
    let Ok(event) = &read else {
        return Turn::Refused;
    };
    if !world.fits(event) {
        return Turn::Refused;
    }
    let length = text.len();
    if world.play_into(alloc, event, text).is_err() {
        text.truncate(length);
        return Turn::Memory;
    }
    Turn::Played
}
