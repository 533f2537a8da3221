//! The latest sessions of clients.

ghost use Rattle.std.specs.Prelude.{◌≡◌, None, [], OnOk, OnErr};
ghost use Rattle.pc_session.specs.Desk.{Are, ended_if, latest_with, latest_without};
ghost use Rattle.pc_house.specs.Sessions.{dropped_by, latest_but, latest_in};

use indexmap::IndexMap;
use pc_account_history::Entry;
use pc_base::{Memory, Name};
use pc_session::Latest;
use std::alloc::Global;
use std::marker::Model;

/// The latest session of each client that has one.
#[derive(Drop)]
pub struct Sessions {
    table: IndexMap<Name, Latest>,
}

impl Model for Sessions {
    ghost use Rattle.std.specs.Prelude.{ℕ, List};
    ghost use Rattle.pc_session.specs.declared.access.Latest.{Latest};

    ghost Value = { List (List ℕ × Latest) };

    ghost view = { λ sessions. sessions.table.entries };
}

impl Sessions {
    /// No client has one. It takes no memory.
    pub fn new(alloc: Global) -> Sessions
        ensures { result ≡ [] }
    {
        Sessions {
            table: IndexMap::new(alloc),
        }
    }

    /// The latest session of a client.
    pub fn of(&self, client: &Name) -> Option<Latest>
        ensures { result ≡ latest_in self.now client.now }
    {
        self.table.get(client).copied()
    }

    /// Gives a client its latest session. It takes memory only where the client had none; after `Err`
    /// nothing has changed.
    pub fn put(&mut self, client: Name, session: Latest) -> Result<(), Memory>
        ensures ok { OnOk result (Are (latest_in self.new) (latest_with client session (latest_in self.old))) }
        ensures err { OnErr result (self.new ≡ self.old) }
        ensures absent { OnErr result (latest_in self.old client ≡ None) }
    {
        self.table.insert(client, session)?;
        Ok(())
    }

    /// The session of this number isn't live any more, where it is the client's latest.
    pub fn end(&mut self, client: &Name, number: u64)
        ensures { Are (latest_in self.new) (latest_without client.now number (latest_in self.old)) }
    {
        let Some(session) = self.table.get_mut(client) else {
            return;
        };
        *session = ended(*session, number);
    }

    /// Takes away the session of a client that was taken away, if one was.
    pub fn forget(&mut self, dropped: Option<Name>)
        ensures { Are (latest_in self.new) (latest_but dropped (latest_in self.old)) }
    {
        if let Some(client) = dropped {
            self.table.shift_remove(&client);
        }
    }
}

/// The client that an entry takes away.
pub fn client_dropped(entry: &Entry) -> Option<Name>
    ensures { result ≡ dropped_by entry.now }
{
    match entry {
        Entry::DropClient { client } => Some(*client),
        _ => None,
    }
}

fn ended(session: Latest, number: u64) -> Latest
    ensures { result ≡ ended_if number session }
{
    Latest {
        live: session.live && session.number != number,
        ..session
    }
}
