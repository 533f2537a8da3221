//! A repository on one thread in which ann is enrolled, and what is said to it.

use super::accounts::first_entries;
use super::stores::store_of;
use pc_account::Account;
use pc_base::{MemorySink, Name};
use pc_disk::MemoryDisk;
use pc_house::{Desk, Single};
use pc_session::{Repository, Session, answer_line};
use std::alloc::Global;
use std::test::Fail;

/// The user.
pub fn ann() -> Result<Name, Fail> {
    Ok(Name::read(b"ann").ok_or("a name")?)
}

/// A repository of one user, whose disk fails at the k-th device call from then on, or never for 0.
pub fn house(alloc: Global, failing: u32) -> Result<Single<MemoryDisk>, Fail> {
    let store = store_of::<Account>(alloc, first_entries(alloc)?)?;
    if store.is_broken() {
        return Err("whole".into());
    }
    let user = ann()?;
    let mut desk = Desk::new(alloc, user, store);
    if failing > 0 {
        desk.fail_at(failing);
    }
    let mut desks = Vec::new(alloc);
    desks.push((user, desk))?;
    Ok(Single::new(desks))
}

/// Says lines in a session, of a user at the console or of nobody yet, each with the reply that is wanted.
pub fn talk<R: Repository>(
    alloc: Global,
    repository: &mut R,
    user: Option<Name>,
    rows: &[(&[u8], &[u8])],
) -> Result<(), Fail> {
    let mut session = match user {
        Some(user) => Session::console(alloc, user),
        None => Session::new(alloc),
    };
    for (line, wanted) in rows {
        say(alloc, repository, &mut session, line, wanted)?;
    }
    repository.end(&mut session);
    Ok(())
}

/// Says a line in a session, with the reply that is wanted.
pub fn say<R: Repository>(
    alloc: Global,
    repository: &mut R,
    session: &mut Session,
    line: &[u8],
    wanted: &[u8],
) -> Result<(), Fail> {
    let reply = answer_line(alloc, repository, session, line);
    let mut sink = MemorySink::new(alloc);
    reply.write(&mut sink)?;
    if sink.bytes() != wanted {
        return Err(Fail::from("another reply"));
    }
    Ok(())
}
