//! Tests on rows that were worked out by hand, and of what no clause says. Each row is a call of a
//! small function that asserts: an assertion is proved where it stands, a call of one costs little.

mod links;
mod tally;

ghost use Rattle.std.specs.Prelude.{◌<◌};

use crate::{
    Bytes, Failed, LimitWord, Line, LineFault, Lines, Machine, MemorySink, MemorySource, Name,
    Names, Password, Printed, ReadFault, Recipient, Refusal, ShortText, Sink, Source, Uids,
    read_u32, read_u64, write_all,
};
use std::alloc::Global;
use std::cmp::Ordering;
use std::process::Abort;
use std::test::Fail;
use tally::{Tally, Tick};

// These bytes were wanted.
pub(crate) fn same(rt: &impl Abort, found: &[u8], wanted: &[u8]) {
    assert_eq!(rt; found, wanted);
}

// This was wanted.
pub(crate) fn holds(rt: &impl Abort, what: &str, is: bool) {
    assert!(rt; is, "{what}");
}

// An outside call answered this.
pub(crate) fn answers(
    rt: &impl Abort,
    call: u64,
    found: Result<usize, Failed>,
    wanted: Result<usize, Failed>,
) {
    assert_eq!(rt; found, wanted, "{call}");
}

fn name_is(rt: &impl Abort, bytes: &[u8], wanted: bool) {
    let name = Name::read(bytes);
    assert_eq!(rt; name.is_some(), wanted, "{bytes:?}");
    if let Some(name) = name {
        same(rt, name.bytes(), bytes);
    }
}

#[test]
fn names_at_the_edge(rt: HostRuntime) {
    name_is(&rt, b"a", true);
    name_is(&rt, b"z.9_-", true);
    name_is(&rt, b"a-", true);
    name_is(&rt, b"abcdefghijklmnopqrstuvwxyz012345", true);
    name_is(&rt, b"abcdefghijklmnopqrstuvwxyz0123456", false);
    name_is(&rt, b"", false);
    name_is(&rt, b"9a", false);
    name_is(&rt, b".a", false);
    name_is(&rt, b"_a", false);
    name_is(&rt, b"-a", false);
    name_is(&rt, b"Ann", false);
    name_is(&rt, b"aNn", false);
    name_is(&rt, b"`a", false);
    name_is(&rt, b"{a", false);
    name_is(&rt, b"a`", false);
    name_is(&rt, b"a{", false);
    name_is(&rt, b"a/", false);
    name_is(&rt, b"a:", false);
    name_is(&rt, b"a,", false);
    name_is(&rt, b"a b", false);
    name_is(&rt, b"a\x00", false);
    name_is(&rt, b"a\xe1", false);
    same(&rt, Name::inbox().bytes(), b"inbox");
}

// How two names stand to one another.
fn order_is(rt: &impl Abort, bytes: &[u8], other: &[u8], wanted: Ordering) -> Result<(), Fail> {
    let name = Name::read(bytes).ok_or("a name")?;
    let other = Name::read(other).ok_or("a name")?;
    let found = name.cmp(&other);
    assert!(rt; found == wanted, "{bytes:?}");
    holds(rt, "equal", (name == other) == (found == Ordering::Equal));
    holds(rt, "less", (name < other) == (found == Ordering::Less));
    Ok(())
}

static RISING: [&[u8]; 8] = [b"a", b"a-", b"a.", b"a0", b"a_", b"aa", b"ab", b"b"];

#[test]
fn names_in_order(rt: HostRuntime) -> Result<(), Fail> {
    for place in 0..8usize {
        for other in 0..8usize {
            order_is(&rt, RISING[place], RISING[other], place.cmp(&other))?;
        }
    }
    Ok(())
}

fn password_is(rt: &impl Abort, bytes: &[u8], wanted: bool) {
    let password = Password::read(bytes);
    assert_eq!(rt; password.is_some(), wanted, "{bytes:?}");
    if let Some(password) = password {
        same(rt, password.bytes(), bytes);
    }
}

#[test]
fn passwords_at_the_edge(rt: HostRuntime) {
    let many = [b'p'; 65];
    password_is(&rt, b"s", true);
    password_is(&rt, b"Se.0 ", false);
    password_is(&rt, b"\x20", false);
    password_is(&rt, b"\x21", true);
    password_is(&rt, b"\x7e", true);
    password_is(&rt, b"\x7f", false);
    password_is(&rt, b"a\x20b", false);
    password_is(&rt, b"a\x21b\x7e", true);
    password_is(&rt, b"ab\x7f", false);
    password_is(&rt, b"a\x80", false);
    password_is(&rt, b"", false);
    password_is(&rt, &many[..64], true);
    password_is(&rt, &many, false);
}

fn u32_is(rt: &impl Abort, bytes: &[u8], wanted: Option<u32>) {
    assert_eq!(rt; read_u32(bytes), wanted, "{bytes:?}");
}

#[test]
fn small_numbers(rt: HostRuntime) {
    u32_is(&rt, b"0", Some(0));
    u32_is(&rt, b"7", Some(7));
    u32_is(&rt, b"120", Some(120));
    u32_is(&rt, b"4294967295", Some(4_294_967_295));
    u32_is(&rt, b"4294967296", None);
    u32_is(&rt, b"9999999999", None);
    u32_is(&rt, b"0000000000", Some(0));
    u32_is(&rt, b"0000000042", Some(42));
    u32_is(&rt, b"00000000042", None);
    u32_is(&rt, b"10000000000", None);
    u32_is(&rt, b"", None);
    u32_is(&rt, b"+1", None);
    u32_is(&rt, b"-1", None);
    u32_is(&rt, b"1a", None);
    u32_is(&rt, b"a1", None);
    u32_is(&rt, b" 1", None);
    u32_is(&rt, b"1/", None);
    u32_is(&rt, b"1:", None);
}

fn u64_is(rt: &impl Abort, bytes: &[u8], wanted: Option<u64>) {
    assert_eq!(rt; read_u64(bytes), wanted, "{bytes:?}");
}

#[test]
fn large_numbers(rt: HostRuntime) {
    u64_is(&rt, b"0", Some(0));
    u64_is(&rt, b"4294967296", Some(4_294_967_296));
    u64_is(&rt, b"18446744073709551615", Some(u64::MAX));
    u64_is(&rt, b"18446744073709551616", None);
    u64_is(&rt, b"18446744073709551620", None);
    u64_is(&rt, b"99999999999999999999", None);
    u64_is(&rt, b"00000000000000000000", Some(0));
    u64_is(&rt, b"00000000000000000009", Some(9));
    u64_is(&rt, b"000000000000000000009", None);
    u64_is(&rt, b"100000000000000000000", None);
    u64_is(&rt, b"", None);
    u64_is(&rt, b"+1", None);
    u64_is(&rt, b"-1", None);
    u64_is(&rt, b"12x", None);
    u64_is(&rt, b"1 ", None);
}

// The fault of these bytes as a line, or none where they're one.
fn line_is(rt: &impl Abort, alloc: Global, bytes: &[u8], fault: Option<LineFault>) {
    let found = Line::copy_of(alloc, bytes);
    if let Ok(line) = &found {
        same(rt, line.bytes(), bytes);
    }
    assert_eq!(rt; found.err(), fault, "{bytes:?}");
}

#[test]
fn lines_at_the_limit(rt: HostRuntime) {
    let mut long = [b'x'; 1001];
    let plain = long;
    long[1000] = b'\n';
    let mut ended = [b'x'; 1000];
    ended[999] = b'\n';
    let alloc = rt.alloc();
    line_is(&rt, alloc, b"", None);
    line_is(&rt, alloc, b"a\rb\x00\xff", None);
    line_is(&rt, alloc, &plain[..1000], None);
    line_is(&rt, alloc, &plain, Some(LineFault::TooLong));
    line_is(&rt, alloc, &long, Some(LineFault::TooLong));
    line_is(&rt, alloc, &ended, Some(LineFault::HasLf));
    line_is(&rt, alloc, b"\n", Some(LineFault::HasLf));
    line_is(&rt, alloc, b"a\nb", Some(LineFault::HasLf));
}

fn shown_is(rt: &impl Abort, address: &[u8], shown: &[u8]) {
    same(rt, Recipient::shown(address).bytes(), shown);
}

#[test]
fn unknown_recipients(rt: HostRuntime) {
    let many = [b'r'; 65];
    shown_is(&rt, b"", b"-");
    shown_is(&rt, b"ann", b"ann");
    shown_is(&rt, b"ann smith", b"ann?smith");
    shown_is(&rt, b"\x20\x21\x7e\x7f", b"?!~?");
    shown_is(&rt, b"a\x00\r\n\xe4?", b"a?????");
    shown_is(&rt, &many[..63], &many[..63]);
    shown_is(&rt, &many[..64], &many[..64]);
    shown_is(&rt, &many, &many[..64]);
}

fn head_is(rt: &impl Abort, refusal: Refusal, head: &[u8]) {
    same(rt, refusal.head().bytes(), head);
}

#[test]
fn heads_of_refusals(rt: HostRuntime) {
    let shown = Recipient::shown(b"bob o'neil");
    let number = u64::MAX;
    head_is(&rt, Refusal::UnknownOperation, b"400 Unknown operation");
    head_is(&rt, Refusal::WrongArguments, b"401 Wrong arguments");
    head_is(&rt, Refusal::LineTooLong, b"402 Line too long");
    head_is(&rt, Refusal::NotLoggedIn, b"403 Not logged in");
    head_is(&rt, Refusal::AlreadyLoggedIn, b"404 Already logged in");
    head_is(&rt, Refusal::BadUserOrPassword, b"405 Bad user or password");
    head_is(&rt, Refusal::NoSuchClient, b"406 No such client");
    head_is(
        &rt,
        Refusal::Superseded { number: 0 },
        b"407 Superseded by session 0",
    );
    head_is(
        &rt,
        Refusal::Superseded { number },
        b"407 Superseded by session 18446744073709551615",
    );
    head_is(&rt, Refusal::NoMailboxSelected, b"408 No mailbox selected");
    head_is(&rt, Refusal::NoSuchMailbox, b"409 No such mailbox");
    head_is(&rt, Refusal::MailboxExists, b"410 Mailbox exists");
    head_is(&rt, Refusal::BadName, b"411 Bad name");
    head_is(&rt, Refusal::NoSuchMessage, b"412 No such message");
    head_is(&rt, Refusal::NoSuchFlag, b"413 No such flag");
    head_is(&rt, Refusal::NoSuchAddress, b"414 No such address");
    head_is(&rt, Refusal::AddressTaken, b"415 Address taken");
    head_is(
        &rt,
        Refusal::UnknownRecipient { shown },
        b"416 Unknown recipient bob?o'neil",
    );
    head_is(&rt, Refusal::MessageTooLarge, b"417 Message too large");
    head_is(&rt, Refusal::NoSuchBoard, b"419 No such board");
    head_is(&rt, Refusal::NotSubscribed, b"420 Not subscribed");
    head_is(&rt, Refusal::AlreadySubscribed, b"421 Already subscribed");
    head_is(&rt, Refusal::ReadOnly, b"422 Read only");
    head_is(&rt, Refusal::ClientExists, b"423 Client exists");
    head_is(&rt, Refusal::ClientHasSession, b"428 Client has a session");
    head_is(&rt, Refusal::VersionUnknown, b"429 Version unknown");
    head_is(&rt, Refusal::JournalFull, b"430 Journal full");
}

fn limit_is(rt: &impl Abort, limit: LimitWord, head: &[u8]) {
    head_is(rt, Refusal::LimitReached { limit }, head);
    let word = head.strip_prefix(b"418 Limit reached ").unwrap_or(b"");
    same(rt, limit.word(), word);
}

#[test]
fn heads_of_limits(rt: HostRuntime) {
    limit_is(&rt, LimitWord::Sessions, b"418 Limit reached sessions");
    limit_is(&rt, LimitWord::Clients, b"418 Limit reached clients");
    limit_is(&rt, LimitWord::Mailboxes, b"418 Limit reached mailboxes");
    limit_is(&rt, LimitWord::Users, b"418 Limit reached users");
    limit_is(&rt, LimitWord::Boards, b"418 Limit reached boards");
    limit_is(&rt, LimitWord::Addresses, b"418 Limit reached addresses");
    limit_is(&rt, LimitWord::Recipients, b"418 Limit reached recipients");
    limit_is(&rt, LimitWord::Uids, b"418 Limit reached uids");
    limit_is(&rt, LimitWord::Messages, b"418 Limit reached messages");
    limit_is(&rt, LimitWord::Bytes, b"418 Limit reached bytes");
    limit_is(&rt, LimitWord::Changes, b"418 Limit reached changes");
    limit_is(&rt, LimitWord::Waiting, b"418 Limit reached waiting");
    limit_is(&rt, LimitWord::Board, b"418 Limit reached board");
    limit_is(
        &rt,
        LimitWord::Subscriptions,
        b"418 Limit reached subscriptions",
    );
}

// What a sink holds that moves so many bytes a call and fails at this one.
fn writes(rt: &impl Abort, alloc: Global, piece: usize, call: u64, written: &[u8], is_ok: bool)
    requires { 0 < piece }
{
    let mut sink = MemorySink::new(alloc).in_pieces(piece).failing_at(call);
    let result = write_all(&mut sink, b"hello");
    assert!(rt; result.is_ok() == is_ok, "{piece} {call}");
    same(rt, sink.bytes(), written);
}

#[test]
fn writes_up_to_a_failure(rt: HostRuntime) {
    let alloc = rt.alloc();
    writes(&rt, alloc, 1, 0, b"hello", true);
    writes(&rt, alloc, 1, 1, b"", false);
    writes(&rt, alloc, 1, 3, b"he", false);
    writes(&rt, alloc, 1, 5, b"hell", false);
    writes(&rt, alloc, 1, 6, b"hello", true);
    writes(&rt, alloc, 2, 2, b"he", false);
    writes(&rt, alloc, 2, 3, b"hell", false);
    writes(&rt, alloc, 2, 4, b"hello", true);
    writes(&rt, alloc, 9, 1, b"", false);
    writes(&rt, alloc, 9, 2, b"hello", true);
}

#[test]
fn a_sink_goes_on_after_a_failure(rt: HostRuntime) {
    let mut sink = MemorySink::new(rt.alloc()).in_pieces(3).failing_at(2);
    answers(&rt, 1, sink.write(b"hello"), Ok(3));
    answers(&rt, 2, sink.write(b"lo"), Err(Failed));
    answers(&rt, 3, sink.write(b""), Ok(0));
    holds(&rt, "written", write_all(&mut sink, b"p again").is_ok());
    same(&rt, sink.bytes(), b"help again");
    holds(
        &rt,
        "nothing",
        write_all(&mut sink.failing_at(1), b"").is_ok(),
    );
}

// A source reads so many bytes, and the buffer then holds these.
fn reads(
    rt: &impl Abort,
    source: &mut MemorySource,
    into: &mut [u8],
    answer: Result<usize, Failed>,
    seen: &[u8],
) {
    answers(rt, 0, source.read(into), answer);
    same(rt, into, seen);
}

#[test]
fn a_source_in_pieces(rt: HostRuntime) {
    let mut source = MemorySource::new(b"abcdefgh").in_pieces(3);
    let mut into = [b'.'; 5];
    reads(&rt, &mut source, &mut into[..2], Ok(2), b"ab");
    same(&rt, &into, b"ab...");
    reads(&rt, &mut source, &mut into, Ok(3), b"cde..");
    reads(&rt, &mut source, &mut into[..0], Ok(0), b"");
    same(&rt, &into, b"cde..");
    reads(&rt, &mut source, &mut into, Ok(3), b"fgh..");
    reads(&rt, &mut source, &mut into, Ok(0), b"fgh..");
}

#[test]
fn a_source_goes_on_after_a_failure(rt: HostRuntime) {
    let mut source = MemorySource::new(b"abc").failing_at(2).in_pieces(2);
    let mut into = [b'.'; 3];
    reads(&rt, &mut source, &mut into, Ok(2), b"ab.");
    reads(&rt, &mut source, &mut into, Err(Failed), b"ab.");
    reads(&rt, &mut source, &mut into, Ok(1), b"cb.");
    reads(&rt, &mut source, &mut into, Ok(0), b"cb.");
}

fn name(bytes: &[u8]) -> Result<Name, Fail> {
    Ok(Name::read(bytes).ok_or("a name")?)
}

#[test]
fn lists_of_numbers_and_names(rt: HostRuntime) -> Result<(), Fail> {
    let mut uids = Uids::new(rt.alloc());
    holds(&rt, "no uids", uids.as_slice().is_empty());
    uids.push(7)?;
    uids.push(3)?;
    uids.push(7)?;
    holds(&rt, "uids", uids.as_slice() == [7, 3, 7].as_slice());
    let mut names = Names::new(rt.alloc());
    holds(&rt, "no names", names.as_slice().is_empty());
    names.push(name(b"work")?)?;
    names.push(name(b"inbox")?)?;
    names.push(name(b"work")?)?;
    let [first, second, third] = names.as_slice() else {
        return Err(Fail::from("three names"));
    };
    same(&rt, first.bytes(), b"work");
    same(&rt, second.bytes(), b"inbox");
    same(&rt, third.bytes(), b"work");
    Ok(())
}

fn add_line(alloc: Global, lines: &mut Lines, text: &[u8]) -> Result<(), Fail> {
    lines.push(Line::copy_of(alloc, text)?)?;
    Ok(())
}

#[test]
fn lists_of_lines(rt: HostRuntime) -> Result<(), Fail> {
    let mut lines = Lines::new(rt.alloc());
    holds(&rt, "no lines", lines.as_slice().is_empty());
    add_line(rt.alloc(), &mut lines, b"work")?;
    add_line(rt.alloc(), &mut lines, b"inbox")?;
    add_line(rt.alloc(), &mut lines, b"work")?;
    let [first, second, third] = lines.as_slice() else {
        return Err(Fail::from("three lines"));
    };
    same(&rt, first.bytes(), b"work");
    same(&rt, second.bytes(), b"inbox");
    same(&rt, third.bytes(), b"work");
    Ok(())
}

fn add_printed(alloc: Global, printed: &mut Printed, text: &[u8]) -> Result<(), Fail> {
    printed.push(Bytes::copy_of(alloc, text)?)?;
    Ok(())
}

#[test]
fn lists_of_printed_lines(rt: HostRuntime) -> Result<(), Fail> {
    let mut printed = Printed::new(rt.alloc());
    holds(&rt, "nothing printed", printed.as_slice().is_empty());
    add_printed(rt.alloc(), &mut printed, b"work")?;
    add_printed(rt.alloc(), &mut printed, b"inbox")?;
    add_printed(rt.alloc(), &mut printed, b"work")?;
    let [first, second, third] = printed.as_slice() else {
        return Err(Fail::from("three lines"));
    };
    same(&rt, first.as_slice(), b"work");
    same(&rt, second.as_slice(), b"inbox");
    same(&rt, third.as_slice(), b"work");
    Ok(())
}

#[test]
fn bytes_are_kept(rt: HostRuntime) -> Result<(), Fail> {
    let mut bytes = Bytes::new(rt.alloc());
    same(&rt, bytes.as_slice(), b"");
    bytes.append(b"one\n")?;
    bytes.append(b"")?;
    bytes.append(b"\x00two")?;
    same(&rt, bytes.as_slice(), b"one\n\x00two");
    same(
        &rt,
        Bytes::copy_of(rt.alloc(), b"\xffx")?.as_slice(),
        b"\xffx",
    );
    same(&rt, Bytes::with_capacity(rt.alloc(), 100)?.as_slice(), b"");
    let full: ShortText<3> = ShortText::copy_of(b"abc");
    let part: ShortText<3> = ShortText::copy_of(b"a");
    same(&rt, full.bytes(), b"abc");
    same(&rt, part.bytes(), b"a");
    Ok(())
}

#[test]
fn bytes_are_framed(rt: HostRuntime) -> Result<(), Fail> {
    let mut bytes = Bytes::new(rt.alloc());
    same(&rt, bytes.framed(), b"\x00\x00\x00\x00\x00");
    bytes.append(b"")?;
    same(&rt, bytes.framed(), b"\x00\x00\x00\x00\x00");
    bytes.append(b"in")?;
    bytes.append(b"box")?;
    same(&rt, bytes.framed(), b"\x00\x00\x00\x05inbox\x00");
    same(&rt, bytes.as_slice(), b"inbox");

    let mut long = Bytes::with_capacity(rt.alloc(), 300)?;
    for _ in 0..300 {
        long.append(b"x")?;
    }
    let framed = long.framed();
    holds(&rt, "length", framed.len() == 305);
    holds(&rt, "front", framed.starts_with(b"\x00\x00\x01\x2cx"));
    holds(&rt, "end", framed.ends_with(b"x\x00"));
    Ok(())
}

// An entry, and the state after it, written and read again.
fn twice<M: Machine>(rt: &HostRuntime, entry: &M::Entry) -> Result<(Bytes, Bytes), Fail>
    requires { M.fits entry.now }
{
    let mut written = Bytes::new(rt.alloc());
    M::write_entry(entry, &mut written)?;
    let read = M::read_entry(rt.alloc(), written.as_slice())?;
    let mut again = Bytes::new(rt.alloc());
    M::write_entry(&read, &mut again)?;
    Ok((written, again))
}

#[test]
fn a_machine_of_its_own(rt: HostRuntime) -> Result<(), Fail> {
    let (written, again) = twice::<Tally>(&rt, &Tick { mark: 7 })?;
    same(&rt, written.as_slice(), b"\x07");
    same(&rt, again.as_slice(), b"\x07");

    let mut tally = Tally::empty(rt.alloc())?;
    holds(&rt, "the first number", tally.number_from(5));
    holds(&rt, "allowed", tally.allows(&Tick { mark: 7 }));
    tally.apply(rt.alloc(), &Tick { mark: 7 })?;
    holds(&rt, "applied", tally == Tally { count: 1, next: 6 });
    let mut record = Bytes::new(rt.alloc());
    tally.save(&mut record)?;
    let mut loaded = Tally::load(rt.alloc(), record.as_slice())?;
    holds(&rt, "another number", !loaded.number_from(1));
    holds(&rt, "the next number", loaded.number_from(6));
    holds(&rt, "loaded", loaded == tally);
    let fault = ReadFault::Malformed { place: 0 };
    holds(
        &rt,
        "refused",
        Tally::load(rt.alloc(), b"\xc9") == Err(fault),
    );
    Ok(())
}
