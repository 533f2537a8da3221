//! What is counted over mailboxes.

ghost use Rattle.std.specs.Prelude.{◌≡◌, ℕ, ◌+◌, ◌%◌, ◌^◌};
ghost use Rattle.pc_account_holdings.specs.Mailboxes.{weight_in, listed_in};

use pc_mailbox::Mailbox;
use pc_tables::replaced;

/// The weight of messages and the number of changes on update lists. They are kept while mailboxes
/// change one by one, as sums of 64 bits that wrap.
#[derive(Clone, Copy)]
pub struct Counts {
    pub weight: u64,
    pub changes: u64,
}

impl Counts {
    /// Of no mailbox.
    pub fn none() -> Counts
        ensures weight { result.weight ≡ 0 }
        ensures changes { result.changes ≡ 0 }
    {
        Counts {
            weight: 0,
            changes: 0,
        }
    }

    /// Of one mailbox.
    pub fn of(mailbox: &Mailbox) -> Counts
        ensures weight { result.weight ≡ weight_in mailbox.now }
        ensures changes { result.changes ≡ listed_in mailbox.now }
    {
        Counts {
            weight: mailbox.weight() as u64,
            changes: mailbox.listed(),
        }
    }

    /// Counts a mailbox as it is now in place of what it was.
    pub fn replace(&mut self, before: Counts, now: Counts)
        ensures weight { (old new : ℕ) → new + before.weight ≡ old + now.weight → self.old.weight ≡ old % 2 ^ 64 → self.new.weight ≡ new % 2 ^ 64 }
        ensures changes { (old new : ℕ) → new + before.changes ≡ old + now.changes → self.old.changes ≡ old % 2 ^ 64 → self.new.changes ≡ new % 2 ^ 64 }
    {
        self.weight = replaced(self.weight, before.weight, now.weight);
        self.changes = replaced(self.changes, before.changes, now.changes);
    }
}
