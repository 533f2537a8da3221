//! Tests on rows that were worked out by hand, and of what no clause says.

mod full;
mod limits;
mod loading;
mod machine;
mod mails;
mod player;
mod refusals;
mod rows;
mod taking;
mod telling;
mod words;

use crate::digest;
use pc_base::{Name, Password};
use std::process::Abort;
use std::test::Fail;

fn holds(rt: &impl Abort, what: &str, is: bool) {
    assert!(rt; is, "{what}");
}

/// The digest of `ann` and `sesame`, by another program.
static SESAME: [u8; 32] = [
    0xc9, 0x40, 0x3a, 0x3b, 0x84, 0x00, 0x81, 0x8d, 0x87, 0xdf, 0xc4, 0x75, 0x58, 0xba, 0xcd, 0xbb,
    0x69, 0x6f, 0x4e, 0x16, 0xa5, 0x90, 0x74, 0x4e, 0x03, 0x90, 0xc1, 0x11, 0x33, 0x69, 0xd2, 0x30,
];

/// Whether this is the digest of the user and the password.
fn is_digest(user: &[u8], password: &[u8], wanted: &[u8; 32]) -> Result<bool, Fail> {
    let user = Name::read(user).ok_or("a name")?;
    let password = Password::read(password).ok_or("a password")?;
    Ok(digest(&user, &password) == *wanted)
}

#[test]
fn digests(rt: HostRuntime) -> Result<(), Fail> {
    holds(&rt, "sesame", is_digest(b"ann", b"sesame", &SESAME)?);
    holds(&rt, "esame", !is_digest(b"anns", b"esame", &SESAME)?);
    Ok(())
}
