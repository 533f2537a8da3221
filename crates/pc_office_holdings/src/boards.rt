//! The boards of the office.

ghost use Rattle.std.specs.Prelude.{◌≡◌, ℕ, suc, ◌<◌, ◌%◌, ◌^◌, List, ◌++◌, [], ◌∷◌, None, option_copied, map, length, OnOk, OnErr};
ghost use Rattle.std.specs.Map.{lookup, keys_of};
ghost use Rattle.pc_tables.specs.Table.{same, total};
ghost use Rattle.pc_message.specs.Message.{weight_of};
ghost use Rattle.pc_office_holdings.specs.Held.{weight_on_all};
ghost use Rattle.pc_tables.specs.Fronts.{front_mapped};
ghost use Rattle.pc_office_holdings.specs.Step.{posted};

use indexmap::IndexMap;
use pc_base::{Memory, Name, Names};
use pc_message::Message;
use pc_tables::tables;
use std::alloc::Global;
use std::marker::Model;

/// The messages of a board, the one with uid 1 first.
#[derive(Drop)]
pub struct Messages {
    messages: Vec<Message>,
}

impl Model for Messages {
    ghost use Rattle.std.specs.Prelude.{ℕ, List};

    ghost Value = { List (List (List ℕ)) };

    ghost view = { λ l. l.messages.items };
}

impl Messages {
    /// No messages.
    pub fn new(alloc: Global) -> Messages
        ensures { result ≡ [] }
    {
        Messages {
            messages: Vec::new(alloc),
        }
    }

    /// Puts a message behind the others. After `Err` nothing has changed.
    pub fn push(&mut self, message: Message) -> Result<(), Memory>
        ensures ok { OnOk result (self.new ≡ self.old ++ message ∷ []) }
        ensures err { OnErr result (self.new ≡ self.old) }
    {
        self.messages.push(message)?;
        Ok(())
    }

    /// What they count for, each its size and 256 bytes, in a sum of 64 bits that wraps.
    pub fn weight(&self) -> u64
        ensures { result ≡ total weight_of self.now % 2 ^ 64 }
    {
        let mut sum: u64 = 0;
        for message in self.messages.iter() {
            sum = sum.wrapping_add(message.weight() as u64);
        }
        sum
    }

    /// The messages, in order.
    pub fn as_slice(&self) -> &[Message]
        ensures { result.now ≡ self.now }
    {
        self.messages.as_slice()
    }
}

/// Boards in order of making, each with its messages. What these count for is kept as a sum of 64
/// bits that wraps.
#[derive(Drop)]
pub struct Boards {
    names: Names,
    table: IndexMap<Name, Messages>,
    sum: u64,
}

impl Model for Boards {
    ghost use Rattle.std.specs.Prelude.{◌≡◌, ℕ, ◌%◌, ◌^◌, List};
    ghost use Rattle.std.specs.Map.{keys_of};
    ghost use Rattle.pc_office_holdings.specs.Held.{weight_on_all};

    ghost Value = { List (List ℕ × List (List (List ℕ))) };

    ghost view = { λ b. b.table.entries };

    ghost invariant = { λ b. (b.names ≡ keys_of b.table.entries) × (b.sum ≡ weight_on_all b.table.entries % 2 ^ 64) };
}

impl Boards {
    /// No boards.
    pub fn new(alloc: Global) -> Boards
        ensures { result ≡ [] }
    {
        Boards {
            names: Names::new(alloc),
            table: IndexMap::new(alloc),
            sum: 0,
        }
    }

    /// Their names.
    pub fn names(&self) -> &Names
        ensures { result.now ≡ keys_of self.now }
    {
        &self.names
    }

    /// The boards with their messages, in order.
    pub fn table(&self) -> &IndexMap<Name, Messages>
        ensures { result.now.entries ≡ self.now }
    {
        &self.table
    }

    /// How many there are.
    pub fn count(&self) -> usize
        ensures { result ≡ length self.now }
    {
        self.table.len()
    }

    /// The messages of a board.
    pub fn get(&self, board: &Name) -> Option<&Messages>
        ensures { option_copied result ≡ lookup (same board.now) self.now }
    {
        self.table.get(board)
    }

    /// What all messages count for, each its size and 256 bytes.
    pub fn weight(&self) -> u64
        ensures { weight_on_all self.now < 2 ^ 64 → result ≡ weight_on_all self.now }
    {
        self.sum
    }

    /// Puts a new board that isn't there behind the others. After `Err` they aren't used again.
    pub fn add(&mut self, alloc: Global, board: Name) -> Result<(), Memory>
        requires { lookup (same board) self.old ≡ None }
        ensures { OnOk result (self.new ≡ self.old ++ (board, []) ∷ []) }
    {
        self.put(alloc, board, Messages::new(alloc))
    }

    /// Puts a board that isn't there behind the others, with these messages. After `Err` they
    /// aren't used again.
    pub fn put(&mut self, alloc: Global, board: Name, messages: Messages) -> Result<(), Memory>
        requires { lookup (same board) self.old ≡ None }
        ensures { OnOk result (self.new ≡ self.old ++ (board, messages) ∷ []) }
    {
        let weight = messages.weight();
        let Ok(()) = tables::put(&mut self.table, board, messages) else {
            return Err(Memory);
        };
        let Ok(()) = self.names.push(board) else {
            *self = Boards::new(alloc);
            return Err(Memory);
        };
        self.sum = self.sum.wrapping_add(weight);
        Ok(())
    }

    /// Puts a copy of the message on each board that is among the names. After `Err` they aren't
    /// used again.
    pub fn post(&mut self, alloc: Global, names: &[Name], message: &Message) -> Result<(), Memory>
        ensures { OnOk result (self.new ≡ map (posted names.now message.now) self.old) }
    {
        for index in 0..self.table.len() {
            self.post_at(alloc, index, names, message)?;
        }
        Ok(())
    }

    /// Puts a copy of the message on the board at this place, where it is among the names.
    fn post_at(
        &mut self,
        alloc: Global,
        index: usize,
        names: &[Name],
        message: &Message,
    ) -> Result<(), Memory>
        requires { index < length self.old }
        ensures changed { let f = posted names.now message.now in
            OnOk result ((all : List (List ℕ × List (List (List ℕ)))) → self.old ≡ front_mapped f index all → self.new ≡ front_mapped f (suc index) all) }
        ensures count { OnOk result (length self.new ≡ length self.old) }
    {
        let Some(board) = self.names.as_slice().get(index) else {
            return Ok(());
        };
        if !names.contains(board) {
            return Ok(());
        }
        let copy = message.copy(alloc)?;
        let Some(messages) = self.table.get_index_mut(index) else {
            return Ok(());
        };
        messages.push(copy)?;
        self.sum = self.sum.wrapping_add(message.weight() as u64);
        Ok(())
    }
}
