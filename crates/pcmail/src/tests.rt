//! Scripts and their transcripts, through the command `replay`.

ghost use Rattle.std.specs.Prelude.{◌<◌};

use super::*;
use pc_base::{MemorySink, MemorySource};
use std::alloc::Global;
use std::process::Abort;
use std::test::Fail;

const SCRIPT: &[u8] =
    b"# a day\n\nuser ann sesame\nask ann CREATE-MAILBOX work\r\nask ann create-mailbox work\nask ann CREATE-MAILBOX Work\nask ann LIST-MAILBOXES\n";

const TRANSCRIPT: &[u8] =
    b"user ann: 200 Ok\nask ann: 200 Ok\nask ann: 410 Mailbox exists\nask ann: 411 Bad name\nask ann: 201 List follows\n  inbox 0 0\n  work 0 0\n";

/// Asserts that these bytes were written at this script.
fn same(rt: &impl Abort, script: &[u8], found: &[u8], wanted: &[u8]) {
    assert_eq!(rt; found, wanted, "at {script:?}");
}

/// Asserts that a run ended so.
fn ends(rt: &impl Abort, script: &[u8], found: Status, wanted: Status) {
    assert_eq!(rt; found, wanted, "at {script:?}");
}

/// Asserts what is true at a call.
fn holds(rt: &impl Abort, call: u64, is: bool) {
    assert!(rt; is, "at call {call}");
}

/// Runs these words over these objects.
fn ran(
    alloc: Global,
    words: &[&str],
    input: &mut MemorySource<'_>,
    output: &mut MemorySink,
) -> Result<Status, Fail> {
    let mut owned = Vec::new(alloc);
    for word in words {
        owned.push(String::from_str(alloc, *word)?)?;
    }
    Ok(run(alloc, &owned, input, output))
}

/// Asserts how the script ends and what is written.
fn expect(
    rt: &impl Abort,
    alloc: Global,
    script: &[u8],
    status: Status,
    transcript: &[u8],
) -> Result<(), Fail> {
    let mut input = MemorySource::new(script);
    let mut output = MemorySink::new(alloc);
    let ended = ran(alloc, &["replay"], &mut input, &mut output)?;
    ends(rt, script, ended, status);
    same(rt, script, output.bytes(), transcript);
    Ok(())
}

/// Scripts that are of the form, and what they print.
static SCRIPTS: [(&[u8], &[u8]); 4] = [
    (b"", b""),
    (b"user ann sesame", b"user ann: 200 Ok\n"),
    (SCRIPT, TRANSCRIPT),
    (
        b"user ann sesame\r\n  ask   ann   LIST-MAILBOXES  \r\n",
        b"user ann: 200 Ok\nask ann: 201 List follows\n  inbox 0 0\n",
    ),
];

#[test]
fn scripts_have_their_transcripts(rt: HostRuntime) -> Result<(), Fail> {
    for (script, transcript) in &SCRIPTS {
        expect(&rt, rt.alloc(), script, Status::Ok, transcript)?;
    }
    Ok(())
}

/// Requests, and the head that each gets.
static REQUESTS: [(&[u8], &[u8]); 16] = [
    (b"", b"400 Unknown operation"),
    (b"PRINT", b"400 Unknown operation"),
    (b"LIST-MAILBOXES\t", b"400 Unknown operation"),
    (b"LIST-MAILBOXES x", b"401 Wrong arguments"),
    (b"CREATE-MAILBOX", b"401 Wrong arguments"),
    (b"CREATE-MAILBOX a b", b"401 Wrong arguments"),
    (b"CREATE-MAILBOX 1a", b"411 Bad name"),
    (b"CREATE-MAILBOX a.b_c-9", b"200 Ok"),
    (b"CREATE-MAILBOX a", b"200 Ok"),
    (
        b"CREATE-MAILBOX abcdefghijklmnopqrstuvwxyz012345",
        b"200 Ok",
    ),
    (
        b"CREATE-MAILBOX abcdefghijklmnopqrstuvwxyz0123456",
        b"411 Bad name",
    ),
    (b"CREATE-MAILBOX inbox", b"410 Mailbox exists"),
    (b"SET-MESSAGE-FLAG 1 16 1", b"413 No such flag"),
    (b"SET-MESSAGE-FLAG 1 15 1", b"400 Unknown operation"),
    (b"FETCH-CHANGED-DESCRIPTORS 0", b"401 Wrong arguments"),
    (b"HELP", b"400 Unknown operation"),
];

/// Asserts the head that a new user's request gets.
fn gets(rt: &impl Abort, alloc: Global, request: &[u8], head: &[u8]) -> Result<(), Fail> {
    let mut script = Vec::from_slice(alloc, b"user ann sesame\nask ann ".as_slice())?;
    script.extend_from_slice(request)?;
    let mut transcript = Vec::from_slice(alloc, b"user ann: 200 Ok\nask ann: ".as_slice())?;
    transcript.extend_from_slice(head)?;
    transcript.push(b'\n')?;
    expect(rt, alloc, &script, Status::Ok, &transcript)
}

#[test]
fn requests_get_the_first_refusal(rt: HostRuntime) -> Result<(), Fail> {
    for (request, head) in &REQUESTS {
        gets(&rt, rt.alloc(), request, head)?;
    }
    Ok(())
}

/// Asserts how a request with so many spaces behind `HELP` ends. In front of them a line has 12 bytes,
/// and its request 4.
fn is_long(
    rt: &impl Abort,
    alloc: Global,
    spaces: u32,
    status: Status,
    printed: &[u8],
) -> Result<(), Fail> {
    let mut script = Vec::from_slice(alloc, b"user ann sesame\nask ann HELP".as_slice())?;
    for _ in 0..spaces {
        script.push(b' ')?;
    }
    let mut transcript = Vec::from_slice(alloc, b"user ann: 200 Ok\n".as_slice())?;
    transcript.extend_from_slice(printed)?;
    expect(rt, alloc, &script, status, &transcript)
}

#[test]
fn long_requests_and_lines_are_told_apart(rt: HostRuntime) -> Result<(), Fail> {
    let unknown = b"ask ann: 400 Unknown operation\n".as_slice();
    let too_long = b"ask ann: 402 Line too long\n".as_slice();
    is_long(&rt, rt.alloc(), 508, Status::Ok, unknown)?;
    is_long(&rt, rt.alloc(), 509, Status::Ok, too_long)?;
    is_long(&rt, rt.alloc(), 988, Status::Ok, too_long)?;
    let refused = Status::InputRefused { line: 2 };
    is_long(&rt, rt.alloc(), 989, refused, b"")?;
    is_long(&rt, rt.alloc(), 70_000, refused, b"")
}

#[test]
fn names_of_mailboxes_are_limited(rt: HostRuntime) -> Result<(), Fail> {
    let mut script = Vec::from_slice(rt.alloc(), b"user ann sesame\n".as_slice())?;
    let mut transcript = Vec::from_slice(rt.alloc(), b"user ann: 200 Ok\n".as_slice())?;
    for number in 1u32..66 {
        let line = format!(in rt.alloc(); "ask ann CREATE-MAILBOX box{number}\n")?;
        script.extend_from_slice(line.as_bytes())?;
        let reply: &[u8] = if number < 64 {
            b"ask ann: 200 Ok\n"
        } else {
            b"ask ann: 418 Limit reached mailboxes\n"
        };
        transcript.extend_from_slice(reply)?;
    }
    script.extend_from_slice(b"ask ann CREATE-MAILBOX box63\n".as_slice())?;
    transcript.extend_from_slice(b"ask ann: 410 Mailbox exists\n".as_slice())?;
    expect(&rt, rt.alloc(), &script, Status::Ok, &transcript)
}

#[test]
fn each_user_has_mailboxes_of_its_own(rt: HostRuntime) -> Result<(), Fail> {
    let script: &[u8] = b"user ann sesame\nuser bob open\nuser ann other\n\
ask bob CREATE-MAILBOX work\nask  ann LIST-MAILBOXES\nask ann CREATE-MAILBOX play\n\
ask bob LIST-MAILBOXES\nask ann LIST-MAILBOXES\nask eve HELP\n";
    let transcript: &[u8] = b"user ann: 200 Ok\nuser bob: 200 Ok\nuser ann: 415 Address taken\n\
ask bob: 200 Ok\nask ann: 201 List follows\n  inbox 0 0\nask ann: 200 Ok\n\
ask bob: 201 List follows\n  inbox 0 0\n  work 0 0\n\
ask ann: 201 List follows\n  inbox 0 0\n  play 0 0\n";
    let status = Status::InputRefused { line: 9 };
    expect(&rt, rt.alloc(), script, status, transcript)
}

#[test]
fn users_are_limited(rt: HostRuntime) -> Result<(), Fail> {
    let mut script = Vec::new(rt.alloc());
    let mut transcript = Vec::new(rt.alloc());
    for number in 1u32..34 {
        let line = format!(in rt.alloc(); "user u{number} sesame\n")?;
        script.extend_from_slice(line.as_bytes())?;
        let head = if number < 33 {
            "200 Ok"
        } else {
            "418 Limit reached users"
        };
        let line = format!(in rt.alloc(); "user u{number}: {head}\n")?;
        transcript.extend_from_slice(line.as_bytes())?;
    }
    script.extend_from_slice(b"user u32 sesame\nask u32 CREATE-MAILBOX inbox\n".as_slice())?;
    transcript.extend_from_slice(
        b"user u32: 415 Address taken\nask u32: 410 Mailbox exists\n".as_slice(),
    )?;
    expect(&rt, rt.alloc(), &script, Status::Ok, &transcript)
}

/// Scripts that are refused, the line, and what is printed before it.
static REFUSED: [(&[u8], u64, &[u8]); 9] = [
    (b"ask ann HELP\n", 1, b""),
    (b"user ann sesame\nask bob HELP\n", 2, b"user ann: 200 Ok\n"),
    (
        b"user ann sesame\n\n# three\nwhat",
        4,
        b"user ann: 200 Ok\n",
    ),
    (b"user ann sesame\n   \n", 2, b"user ann: 200 Ok\n"),
    (b"user ann sesame\n # x\n", 2, b"user ann: 200 Ok\n"),
    (b"user ann sesame\nask\n", 2, b"user ann: 200 Ok\n"),
    (b"user Ann sesame\n", 1, b""),
    (b"USER ann sesame\n", 1, b""),
    (b"user ann sesame\r", 1, b""),
];

#[test]
fn scripts_are_refused_at_their_line(rt: HostRuntime) -> Result<(), Fail> {
    for (script, line, transcript) in &REFUSED {
        let status = Status::InputRefused { line: *line };
        expect(&rt, rt.alloc(), script, status, transcript)?;
    }
    Ok(())
}

/// Asserts that the script is played whole where both sides take so many bytes at a time.
fn plays_in_pieces(rt: &impl Abort, alloc: Global, piece: usize) -> Result<(), Fail>
    requires { 0 < piece }
{
    let mut input = MemorySource::new(SCRIPT).in_pieces(piece);
    let mut output = MemorySink::new(alloc).in_pieces(piece);
    let ended = ran(alloc, &["replay"], &mut input, &mut output)?;
    ends(rt, SCRIPT, ended, Status::Ok);
    same(rt, SCRIPT, output.bytes(), TRANSCRIPT);
    Ok(())
}

#[test]
fn any_cutting_gives_the_same_transcript(rt: HostRuntime) -> Result<(), Fail> {
    for piece in 1..SCRIPT.len() {
        plays_in_pieces(&rt, rt.alloc(), piece)?;
    }
    Ok(())
}

/// Asserts how the script ends over these objects, one of which fails at a call, and that a front of
/// the transcript was written.
fn is_told(
    rt: &impl Abort,
    alloc: Global,
    input: &mut MemorySource<'_>,
    output: &mut MemorySink,
    call: u64,
    wanted: Status,
) -> Result<(), Fail> {
    let ended = ran(alloc, &["replay"], input, output)?;
    ends(rt, SCRIPT, ended, wanted);
    holds(rt, call, TRANSCRIPT.starts_with(output.bytes()));
    Ok(())
}

#[test]
fn a_failing_input_is_told(rt: HostRuntime) -> Result<(), Fail> {
    for call in 1..SCRIPT.len() as u64 + 1 {
        let mut input = MemorySource::new(SCRIPT).in_pieces(1).failing_at(call);
        let mut output = MemorySink::new(rt.alloc());
        let fault = Status::ReadFault;
        is_told(&rt, rt.alloc(), &mut input, &mut output, call, fault)?;
    }
    Ok(())
}

#[test]
fn a_failing_output_is_told(rt: HostRuntime) -> Result<(), Fail> {
    for call in 1..TRANSCRIPT.len() as u64 + 1 {
        let mut input = MemorySource::new(SCRIPT);
        let mut output = MemorySink::new(rt.alloc()).in_pieces(1).failing_at(call);
        let fault = Status::WriteFault;
        is_told(&rt, rt.alloc(), &mut input, &mut output, call, fault)?;
    }
    Ok(())
}

/// Asserts that these words are no command, and that nothing is written.
fn is_no_command(rt: &impl Abort, alloc: Global, words: &[&str]) -> Result<(), Fail> {
    let mut input = MemorySource::new(SCRIPT);
    let mut output = MemorySink::new(alloc);
    let ended = ran(alloc, words, &mut input, &mut output)?;
    ends(rt, b"", ended, Status::Usage);
    same(rt, b"", output.bytes(), b"");
    Ok(())
}

#[test]
fn other_words_are_no_command(rt: HostRuntime) -> Result<(), Fail> {
    is_no_command(&rt, rt.alloc(), &[])?;
    is_no_command(&rt, rt.alloc(), &["replay", "x"])?;
    is_no_command(&rt, rt.alloc(), &["--help"])?;
    is_no_command(&rt, rt.alloc(), &["Replay"])?;
    is_no_command(&rt, rt.alloc(), &["help", "replay"])
}

/// Asserts a status's code and the text of its error, which is empty where there is none.
fn shows(
    rt: &impl Abort,
    alloc: Global,
    status: Status,
    code: u8,
    text: &[u8],
) -> Result<(), Fail> {
    holds(rt, code as u64, status.code() == code);
    let shown = match status.error() {
        None => String::new(alloc),
        Some(error) => format!(in alloc; "{error}")?,
    };
    same(rt, b"", shown.as_bytes(), text);
    Ok(())
}

#[test]
fn errors_are_shown_by_their_texts(rt: HostRuntime) -> Result<(), Fail> {
    let usage = b"usage: pcmail COMMAND ARGUMENTS".as_slice();
    let refused = Status::InputRefused { line: 7 };
    shows(&rt, rt.alloc(), Status::Ok, 0, b"")?;
    shows(&rt, rt.alloc(), Status::Usage, 1, usage)?;
    shows(&rt, rt.alloc(), refused, 2, b"line 7 refused")?;
    shows(&rt, rt.alloc(), Status::ReadFault, 3, b"read fault")?;
    shows(&rt, rt.alloc(), Status::WriteFault, 4, b"write fault")?;
    shows(&rt, rt.alloc(), Status::Memory, 9, b"want of memory")
}
