//! A link that is read and written in turn.

ghost use Rattle.std.specs.Prelude.{◌≡◌, take, Ok};
ghost use Rattle.std.specs.Io.{ReadsAtMost};
ghost use Rattle.std.specs.Io.KnownBytes.{Appends, Consumes, ReadConsumes};
ghost use Rattle.pc_base.specs.Stream.{HasCause};

use super::{answers, same};
use crate::{Failed, Link, MemoryLink, Source, write_all};
use std::alloc::Global;
use std::process::Abort;

/// One read of any source, as a reader of lines makes it.
fn read_some<S: Source>(source: &mut S, into: &mut [u8]) -> Result<usize, Failed>
    ensures bound { ReadsAtMost result into.new }
    ensures bytes { ReadConsumes (S.left source.old) (S.left source.new) result into.new }
    ensures beside { S.beside source.new ≡ S.beside source.old }
    ensures cause { HasCause (S.faults source.old) (S.faults source.new) result }
{
    source.read(into)
}

/// Reads once and writes back what came. Both sides of the link are known afterwards.
fn echo<L: Link>(link: &mut L, into: &mut [u8]) -> Result<usize, Failed>
    ensures left { (count : _) → result ≡ Ok count → Consumes (L.left link.old) (L.left link.new) (take count into.new) }
    ensures written { (count : _) → result ≡ Ok count → Appends (L.written link.old) (L.written link.new) (take count into.new) }
    ensures cause { HasCause (L.faults link.old) (L.faults link.new) result }
{
    let Ok(count) = read_some(link, into) else {
        return Err(Failed);
    };
    let Ok(()) = write_all(link, &into[..count]) else {
        return Err(Failed);
    };
    Ok(count)
}

// One echo: how many bytes came, and both sides behind it.
fn echoes(rt: &impl Abort, link: &mut MemoryLink, count: usize, unread: &[u8], written: &[u8]) {
    let mut into = [b'.'; 4];
    answers(rt, 0, echo(link, &mut into), Ok(count));
    same(rt, link.unread(), unread);
    same(rt, link.bytes(), written);
}

#[test]
fn reads_and_writes_in_turn(rt: HostRuntime) {
    let mut link = MemoryLink::new(rt.alloc(), b"help\nnoop").in_pieces(3);
    echoes(&rt, &mut link, 3, b"p\nnoop", b"hel");
    echoes(&rt, &mut link, 3, b"oop", b"help\nn");
    echoes(&rt, &mut link, 3, b"", b"help\nnoop");
    echoes(&rt, &mut link, 0, b"", b"help\nnoop");
}

// A link that fails at this call: only this one of its four calls fails.
fn fails_at(
    rt: &impl Abort,
    alloc: Global,
    call: u64,
    wanted: [Result<usize, Failed>; 4],
    unread: &[u8],
) {
    let mut link = MemoryLink::new(alloc, b"abcd")
        .in_pieces(2)
        .failing_at(call);
    let mut into = [b'.'; 3];
    answers(rt, call, Link::read(&mut link, &mut into), wanted[0]);
    answers(rt, call, link.write(b"x"), wanted[1]);
    answers(rt, call, Link::read(&mut link, &mut into), wanted[2]);
    answers(rt, call, link.write(b"yz."), wanted[3]);
    same(rt, link.unread(), unread);
}

#[test]
fn a_link_fails_at_one_call_of_both_kinds(rt: HostRuntime) {
    let alloc = rt.alloc();
    let failed = Err(Failed);
    fails_at(&rt, alloc, 1, [failed, Ok(1), Ok(2), Ok(2)], b"cd");
    fails_at(&rt, alloc, 2, [Ok(2), failed, Ok(2), Ok(2)], b"");
    fails_at(&rt, alloc, 3, [Ok(2), Ok(1), failed, Ok(2)], b"cd");
    fails_at(&rt, alloc, 4, [Ok(2), Ok(1), Ok(2), failed], b"");
    fails_at(&rt, alloc, 5, [Ok(2), Ok(1), Ok(2), Ok(2)], b"");
}

#[test]
fn a_link_with_room_takes_no_memory(rt: HostRuntime) {
    let Ok(mut link) = MemoryLink::with_room(rt.alloc(), b"", 5) else {
        return;
    };
    answers(&rt, 1, link.write(b"hello"), Ok(5));
    answers(&rt, 2, link.write(b""), Ok(0));
    same(&rt, link.bytes(), b"hello");
}
