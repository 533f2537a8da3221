//! The names of users, mailboxes, clients, boards and addresses; passwords; the names of stores.

ghost use Rattle.std.specs.Prelude.{◌≡◌, IsTrue};
ghost use Rattle.std.specs.Option.{SomeIff};
ghost use Rattle.std.specs.List.{list_all};
ghost use Rattle.pc_base.specs.Name.{inbox, is_letter as letter, is_name as named, is_name_byte as fits_name, is_password as passes, is_printed};

use crate::short_text::ShortText;
use std::cmp::Ordering;
use std::hash::{Hash, Hasher};
use std::marker::Model;

/// 1 to 32 of `a` to `z`, `0` to `9`, `.`, `_` and `-`, the first a letter.
#[derive(Clone, Copy)]
pub struct Name {
    text: ShortText<32>,
}

impl Model for Name {
    ghost use Rattle.std.specs.Prelude.{ℕ, List, IsTrue};
    ghost use Rattle.pc_base.specs.Name.{is_name};

    ghost Value = { List ℕ };

    ghost view = { λ name. name.text };

    ghost invariant = { λ name. IsTrue (is_name name.text) };

    ghost inverse = { λ bytes. record { text = bytes } };
}

impl Name {
    /// The name that these bytes are, if they are one.
    pub fn read(bytes: &[u8]) -> Option<Name>
        ensures { SomeIff result (IsTrue (named bytes.now)) bytes.now }
    {
        if !is_name(bytes) {
            return None;
        }
        Some(Name {
            text: ShortText::copy_of(bytes),
        })
    }

    /// The mailbox of new mail, which can't be dropped.
    pub fn inbox() -> Name
        ensures { result ≡ inbox }
    {
        Name {
            text: ShortText::copy_of(b"inbox"),
        }
    }

    /// The bytes of the name.
    pub fn bytes(&self) -> &[u8]
        ensures value { result.now ≡ self.now }
        ensures name { IsTrue (named self.now) }
    {
        self.text.bytes()
    }

    /// The same name.
    pub fn copy(&self) -> Name
        ensures value { result ≡ self.now }
        ensures name { IsTrue (named result) }
    {
        Name { text: self.text }
    }
}

impl PartialEq for Name {
    ghost use Rattle.std.specs.Prelude.{◌==◌};
    ghost use Rattle.std.specs.Cmp.Rules.{comparing};
    ghost use Rattle.std.specs.Cmp.Lexicographic.{pointwise};
    ghost use Rattle.std.proofs.Common.{rules};

    ghost eq = { pointwise ◌==◌ };

    ghost laws = { Prim.search (comparing, rules) };

    fn eq(&self, other: &Name) -> bool {
        self.bytes() == other.bytes()
    }
}

impl Eq for Name {
    ghost use Rattle.std.specs.Cmp.Rules.{comparing};
    ghost use Rattle.std.proofs.Common.{rules};

    ghost laws = { Prim.search (comparing, rules) };
}

impl Hash for Name {
    ghost use Rattle.std.specs.Cmp.Rules.{hashing};
    ghost use Rattle.std.specs.Hash as fed;
    ghost use Rattle.std.proofs.Common.{rules};

    ghost hash_input = { fed.str };

    ghost respects_eq = { Prim.search (hashing, rules) };

    // As a text, all bytes at once and then a byte that no name has.
    fn hash<H: Hasher>(&self, state: &mut H) {
        state.write(self.bytes());
        state.write_u8(0xff);
    }
}

impl PartialOrd for Name {
    ghost use Rattle.std.specs.Cmp.{partial_order_from_own_ties};
    ghost use Rattle.std.specs.Cmp.Rules.{comparing};
    ghost use Rattle.std.specs.Ordering.{as_partial_cmp, nat_cmp};
    ghost use Rattle.std.specs.Cmp.Lexicographic.{slice_cmp};
    ghost use Rattle.std.proofs.Common.{rules};

    ghost partial_cmp = { as_partial_cmp (slice_cmp nat_cmp) };

    ghost laws = { partial_order_from_own_ties (Prim.search (comparing, rules)) (Prim.search (comparing, rules)) };

    fn partial_cmp(&self, other: &Name) -> Option<Ordering> {
        Some(self.cmp(other))
    }
}

impl Ord for Name {
    ghost use Rattle.std.specs.Cmp.Rules.{comparing};
    ghost use Rattle.std.specs.Ordering.{nat_cmp};
    ghost use Rattle.std.specs.Cmp.Lexicographic.{slice_cmp};
    ghost use Rattle.std.proofs.Common.{rules};

    ghost cmp = { slice_cmp nat_cmp };

    ghost total = { Prim.search (comparing, rules) };

    ghost matches_partial_cmp = { Prim.search (comparing, rules) };

    ghost matches_eq = { Prim.search (comparing, rules) };

    fn cmp(&self, other: &Name) -> Ordering {
        self.bytes().cmp(other.bytes())
    }
}

fn is_name_byte(byte: u8) -> bool
    ensures { result ≡ fits_name byte }
{
    // Most bytes are letters.
    is_letter(byte) || matches!(byte, b'0'..=b'9' | b'.' | b'_' | b'-')
}

fn is_name(bytes: &[u8]) -> bool
    ensures { result ≡ named bytes.now }
{
    match bytes {
        [] => false,
        [first, others @ ..] => { is_letter(*first) && are_name_bytes(others) && others.len() < 32 }
    }
}

fn is_letter(byte: u8) -> bool
    ensures { result ≡ letter byte }
{
    byte.is_ascii_lowercase()
}

fn are_name_bytes(bytes: &[u8]) -> bool
    ensures { result ≡ list_all fits_name bytes.now }
{
    bytes.iter().all(|byte| is_name_byte(*byte))
}

/// A password in the clear: 1 to 64 bytes from 33 to 126.
#[derive(Clone, Copy)]
pub struct Password {
    text: ShortText<64>,
}

impl Model for Password {
    ghost use Rattle.std.specs.Prelude.{ℕ, List, IsTrue};
    ghost use Rattle.pc_base.specs.Name.{is_password};

    ghost Value = { List ℕ };

    ghost view = { λ password. password.text };

    ghost invariant = { λ password. IsTrue (is_password password.text) };

    ghost inverse = { λ bytes. record { text = bytes } };
}

impl Password {
    /// The password that these bytes are, if they are one.
    pub fn read(bytes: &[u8]) -> Option<Password>
        ensures { SomeIff result (IsTrue (passes bytes.now)) bytes.now }
    {
        if !is_password(bytes) {
            return None;
        }
        Some(Password {
            text: ShortText::copy_of(bytes),
        })
    }

    /// The bytes of the password.
    pub fn bytes(&self) -> &[u8]
        ensures value { result.now ≡ self.now }
        ensures password { IsTrue (passes self.now) }
    {
        self.text.bytes()
    }
}

fn is_password(bytes: &[u8]) -> bool
    ensures { result ≡ passes bytes.now }
{
    !bytes.is_empty() && bytes.len() <= 64 && are_printed(bytes)
}

fn are_printed(bytes: &[u8]) -> bool
    ensures { result ≡ list_all is_printed bytes.now }
{
    bytes.iter().all(|byte| matches!(*byte, 33..=126))
}

/// Which store a journal belongs to.
#[derive(Clone, Copy, PartialEq, Eq)]
pub enum StoreName {
    /// The post office.
    Office,
    /// The account of a user.
    Account { user: Name },
    /// The cache of a user's client.
    Client { user: Name, client: Name },
}
