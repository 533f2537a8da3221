//! Lists, read just as they are written.

ghost use Rattle.std.specs.Prelude.{◌≡◌, ℕ, ◌<◌, ◌≤◌, ◌↔◌, List, length, IfOk, IfSome, IsTrue, MatchResult};
ghost use Rattle.std.specs.BTreeSet.{contains};
ghost use Rattle.std.specs.Ordering.{nat_cmp};
ghost use Rattle.pc_message.specs.declared.descriptor.Change.{Change};
ghost use Rattle.pc_reply.specs.Lists.{ReadsItems};
ghost use Rattle.pc_reply.specs.Items.{AreChangeLines, AreMailboxLines, MailboxRow, IsRow, change_lines, ChangeFits, IsShort, uid_of};
ghost use Rattle.pc_reply.specs.FirstLine.{first_uid};
ghost use Rattle.pc_reply.specs.Changes.{ReadsItem, ReadsFirst, Learns, HasShort, descriptor_with, IsInReach, fault_after};
ghost use Rattle.pc_reply.specs.declared.items.ItemFault.TheVariants as fault;

use crate::first_line::FirstLine;
use crate::items::{ItemFault, copy, counted};
use crate::parts::first_number;
use pc_base::{Line, Lines, Memory, Name, Names};
use pc_message::{Change, Changes, Descriptor};
use pc_wire::next_word;
use std::alloc::Global;
use std::collections::BTreeSet;

/// The changes that the lines tell: five lines of a message that is there, one of a message that is
/// gone, and no uid twice.
pub fn read_changes(alloc: Global, lines: &Lines) -> Result<Changes, ItemFault>
    ensures items { ReadsItems AreChangeLines lines.now result }
    ensures every { (changes : List Change) → AreChangeLines changes lines.now →
        MatchResult result (λ read. read ≡ changes) (λ other. other ≡ fault.Memory) }
{
    let all = lines.as_slice();
    let mut changes = Changes::new(alloc);
    let mut uids = BTreeSet::new(alloc);
    let mut place = 0;
    while place < all.len() {
        let (change, count) = match read_change(alloc, &mut uids, &all[place..]) {
            Ok(read) => read,
            Err(fault) => return Err(fault_behind(place, fault)),
        };
        let Ok(()) = changes.push(change) else {
            return Err(ItemFault::Memory);
        };
        place += count;
    }
    Ok(changes)
}

/// The names of the mailboxes that the lines tell, one line each, and no name twice.
pub fn read_mailboxes(alloc: Global, lines: &Lines) -> Result<Names, ItemFault>
    ensures items { ReadsItems AreMailboxLines lines.now result }
    ensures every { (names : List (List ℕ)) → AreMailboxLines names lines.now →
        MatchResult result (λ read. read ≡ names) (λ other. other ≡ fault.Memory) }
{
    let mut names = Names::new(alloc);
    let mut known = BTreeSet::new(alloc);
    for (line, row) in lines.as_slice().iter().enumerate() {
        let Some(name) = read_row(row.bytes()) else {
            return Err(ItemFault::Bad { line });
        };
        match known.insert(name) {
            Ok(true) => {}
            Ok(false) => return Err(ItemFault::Bad { line }),
            Err(_) => return Err(ItemFault::Memory),
        }
        let Ok(()) = names.push(name) else {
            return Err(ItemFault::Memory);
        };
    }
    Ok(names)
}

/// The fault, with its line counted from so many lines before.
fn fault_behind(place: usize, fault: ItemFault) -> ItemFault
    requires { IsInReach place fault }
    ensures { result ≡ fault_after place fault }
{
    match fault {
        ItemFault::Bad { line } => ItemFault::Bad { line: place + line },
        ItemFault::Memory => ItemFault::Memory,
    }
}

/// The change at the front of the lines and how many of them it takes. A fault's line is counted from
/// the first of them. After `Err` the uids aren't used again.
fn read_change(
    alloc: Global,
    uids: &mut BTreeSet<u32>,
    lines: &[Line],
) -> Result<(Change, usize), ItemFault>
    requires { 0 < length lines.now }
    ensures item { ReadsItem change_lines ChangeFits uid_of (contains nat_cmp uids.old) lines.now result }
    ensures known { IfOk result (λ read. Learns (contains nat_cmp uids.old) (contains nat_cmp uids.new) (uid_of read.0)) }
{
    let (first, texts) = (&lines[0], &lines[1..]);
    match read_first(uids, first.bytes())? {
        FirstLine::Gone(uid) => Ok((Change::Expunged(uid), 1)),
        FirstLine::Counts {
            uid,
            flags,
            bytes,
            lines,
        } => {
            let short = short_texts(texts);
            if short < 4 {
                return Err(ItemFault::Bad { line: 1 + short });
            }
            let Ok(descriptor) = descriptor(alloc, uid, flags, bytes, lines, texts) else {
                return Err(ItemFault::Memory);
            };
            Ok((Change::Present(descriptor), 5))
        }
    }
}

/// The first line of a change with a uid that isn't known.
fn read_first(uids: &mut BTreeSet<u32>, line: &[u8]) -> Result<FirstLine, ItemFault>
    ensures first { ReadsFirst (contains nat_cmp uids.old) line.now result }
    ensures known { IfOk result (λ first. Learns (contains nat_cmp uids.old) (contains nat_cmp uids.new) (first_uid first)) }
{
    let Some(first) = FirstLine::read(line) else {
        return Err(ItemFault::Bad { line: 0 });
    };
    match uids.insert(first.uid()) {
        Ok(true) => Ok(first),
        Ok(false) => Err(ItemFault::Bad { line: 0 }),
        Err(_) => Err(ItemFault::Memory),
    }
}

/// How many of the first four lines have at most 128 bytes, up to the first that has more.
fn short_texts(lines: &[Line]) -> usize
    ensures { HasShort lines.now result }
{
    let front = &lines[..4usize.min(lines.len())];
    for (place, line) in front.iter().enumerate() {
        if !is_short(line) {
            return place;
        }
    }
    front.len()
}

/// Whether the line has at most 128 bytes.
fn is_short(line: &Line) -> bool
    ensures { IsTrue result ↔ IsShort line.now }
{
    line.bytes().len() <= 128
}

/// The descriptor of these counts and the first four lines.
fn descriptor(
    alloc: Global,
    uid: u32,
    flags: u16,
    bytes: u32,
    lines: u32,
    texts: &[Line],
) -> Result<Descriptor, Memory>
    requires { 4 ≤ length texts.now }
    ensures { IfOk result (λ descriptor. descriptor ≡ descriptor_with uid flags bytes lines texts.now) }
{
    Ok(Descriptor {
        uid,
        flags,
        bytes,
        lines,
        date: copy(alloc, &texts[0])?,
        from: copy(alloc, &texts[1])?,
        to: copy(alloc, &texts[2])?,
        subject: copy(alloc, &texts[3])?,
    })
}

/// The name of the mailbox that a line tells of.
fn read_row(line: &[u8]) -> Option<Name>
    ensures some { IfSome result (λ name. (row : MailboxRow) × ((name ≡ row.name) × IsRow row line.now)) }
    ensures every { (row : MailboxRow) → IsRow row line.now → result ≡ Some row.name }
{
    let Some((word, rest)) = next_word(line) else {
        return None;
    };
    let Some(name) = Name::read(word) else {
        return None;
    };
    let Some((live, rest)) = first_number(rest) else {
        return None;
    };
    let Some((highest, _)) = first_number(rest) else {
        return None;
    };
    if !counted(&name, live, highest).is_line(line) {
        return None;
    }
    Some(name)
}
