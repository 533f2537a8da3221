//! What a session was told of its changes.

ghost use Rattle.std.specs.Prelude.{◌≡◌, List, [], ◌∷◌, ◌++◌, OnOk, OnErr};
ghost use Rattle.pc_session.specs.declared.receipts.Receipt.{Receipt};

use pc_base::{Bytes, Memory, StoreName};
use std::alloc::Global;
use std::marker::Model;

/// A change that a session was told of: the store, the number of the entry, and its bytes.
#[derive(Drop)]
pub struct Receipt {
    pub owner: StoreName,
    pub number: u64,
    pub entry: Bytes,
}

/// Receipts, in order.
#[derive(Drop)]
pub struct Receipts {
    receipts: Vec<Receipt>,
}

impl Model for Receipts {
    ghost use Rattle.std.specs.Prelude.{List};
    ghost use Rattle.pc_session.specs.declared.receipts.Receipt.{Receipt};

    ghost Value = { List Receipt };

    ghost view = { λ list. list.receipts.items };
}

impl Receipts {
    /// An empty list.
    pub fn new(alloc: Global) -> Receipts
        ensures { result ≡ [] }
    {
        Receipts {
            receipts: Vec::new(alloc),
        }
    }

    /// Puts one more at the end. After `Err` nothing has changed.
    pub fn push(&mut self, receipt: Receipt) -> Result<(), Memory>
        ensures ok { OnOk result (self.new ≡ self.old ++ receipt ∷ []) }
        ensures err { OnErr result (self.new ≡ self.old) }
    {
        self.receipts.push(receipt)?;
        Ok(())
    }

    /// Takes the last one away again.
    pub(crate) fn take_back(&mut self)
        ensures { (front : List Receipt) (last : Receipt) → self.old ≡ front ++ last ∷ [] → self.new ≡ front }
    {
        let _ = self.receipts.pop();
    }

    /// The receipts, in order.
    pub fn as_slice(&self) -> &[Receipt]
        ensures { result.now ≡ self.now }
    {
        self.receipts.as_slice()
    }
}
