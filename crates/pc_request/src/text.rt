//! The text of a request line while it is written.
#![tactic(auto, unfolding(crate::specs::Argument::IsSpelled, crate::specs::Argument::written))]

ghost use Rattle.std.specs.Prelude.{◌≡◌, ◌+◌, ◌++◌, ◌<◌, ◌≤◌, [], ◌∷◌, length, decimal};
ghost use Rattle.pc_request.specs.Argument.{IsSpelled, written, written_behind};
ghost use Rattle.pc_request.specs.Argument as argument;
ghost use Rattle.pc_request.specs.Operation.{word_of};

use crate::operation::Operation;
use arrayvec::ArrayVec;
use itoa::Buffer;
use pc_base::{Name, Password, ShortText};
use std::marker::Model;

/// Room for any request line and what ends it.
pub const LINE_ROOM: usize = 165;

/// The words so far, with one space between them.
#[derive(Drop)]
pub struct LineText {
    bytes: ArrayVec<u8, LINE_ROOM>,
}

impl Model for LineText {
    ghost use Rattle.std.specs.Prelude.{ℕ, List};

    ghost Value = { List ℕ };

    ghost view = { λ t. t.bytes.items };
}

impl LineText {
    /// The word of an operation.
    pub fn new(operation: Operation) -> LineText
        ensures value { result ≡ word_of operation }
        ensures short { length result ≤ 28 }
    {
        let mut bytes = ArrayVec::new();
        bytes.try_extend_from_slice(operation.word()).unwrap();
        LineText { bytes }
    }

    /// The text alone.
    pub fn finished(&self) -> ShortText<LINE_ROOM>
        ensures { result ≡ self.now }
    {
        ShortText::copy_of(&self.bytes)
    }

    /// The text with what ends a line.
    pub fn ended(mut self) -> ShortText<LINE_ROOM>
        requires { length self + 2 ≤ LINE_ROOM }
        ensures { result ≡ self ++ 13 ∷ 10 ∷ [] }
    {
        self.bytes.try_extend_from_slice(b"\r\n").unwrap();
        self.finished()
    }

    /// With a space and these bytes behind it.
    fn with_word(mut self, word: &[u8]) -> LineText
        requires { length self + length word.now < LINE_ROOM }
        ensures { result ≡ self ++ 32 ∷ word.now }
    {
        self.bytes.push(b' ');
        self.bytes.try_extend_from_slice(word).unwrap();
        self
    }

    /// With a space and digits behind it.
    fn with_digits(self, number: u32) -> LineText
        requires { length self + 11 ≤ LINE_ROOM }
        ensures value { result ≡ self ++ 32 ∷ decimal number }
        ensures short { length result ≤ length self + 11 }
    {
        let mut digits = Buffer::new();
        self.with_word(digits.format(number).as_bytes())
    }

    /// With a name behind it.
    pub fn with_name(self, name: &Name) -> LineText
        requires { length self + 33 ≤ LINE_ROOM }
        ensures value { result ≡ self ++ written_behind (argument.name name.now ∷ []) }
        ensures short { length result ≤ length self + 33 }
        ensures spelled { IsSpelled (argument.name name.now) (written (argument.name name.now)) }
    {
        self.with_word(name.bytes())
    }

    /// With a password behind it.
    pub fn with_password(self, password: &Password) -> LineText
        requires { length self + 65 ≤ LINE_ROOM }
        ensures value { result ≡ self ++ written_behind (argument.password password.now ∷ []) }
        ensures short { length result ≤ length self + 65 }
        ensures spelled { IsSpelled (argument.password password.now) (written (argument.password password.now)) }
    {
        self.with_word(password.bytes())
    }

    /// With a mailbox that is selected behind it.
    pub fn with_mailbox(self, mailbox: &Name) -> LineText
        requires { length self + 33 ≤ LINE_ROOM }
        ensures value { result ≡ self ++ written_behind (argument.mailbox mailbox.now ∷ []) }
        ensures short { length result ≤ length self + 33 }
        ensures spelled { IsSpelled (argument.mailbox mailbox.now) (written (argument.mailbox mailbox.now)) }
    {
        self.with_word(mailbox.bytes())
    }

    /// With a board that is selected behind it.
    pub fn with_board(self, board: &Name) -> LineText
        requires { length self + 34 ≤ LINE_ROOM }
        ensures value { result ≡ self ++ written_behind (argument.board board.now ∷ []) }
        ensures short { length result ≤ length self + 34 }
        ensures spelled { IsSpelled (argument.board board.now) (written (argument.board board.now)) }
    {
        let mut text = self.with_word(b"+");
        text.bytes.try_extend_from_slice(board.bytes()).unwrap();
        text
    }

    /// With yes or no behind it.
    #[tactic(auto, using(crate::proofs::DecimalLemmas::switch_spells, crate::proofs::DecimalLemmas::yes_is_written, crate::proofs::DecimalLemmas::no_is_written))]
    pub fn with_switch(self, on: bool) -> LineText
        requires { length self + 2 ≤ LINE_ROOM }
        ensures value { result ≡ self ++ written_behind (argument.switch on ∷ []) }
        ensures short { length result ≤ length self + 2 }
        ensures spelled { IsSpelled (argument.switch on) (written (argument.switch on)) }
    {
        if on {
            self.with_word(b"1")
        } else {
            self.with_word(b"0")
        }
    }

    /// With a number behind it.
    #[tactic(auto, using(crate::proofs::DecimalLemmas::number_spells), unfolding(crate::specs::Argument::written))]
    pub fn with_number(self, number: u32) -> LineText
        requires { length self + 11 ≤ LINE_ROOM }
        ensures value { result ≡ self ++ written_behind (argument.number number ∷ []) }
        ensures short { length result ≤ length self + 11 }
        ensures spelled { IsSpelled (argument.number number) (written (argument.number number)) }
    {
        self.with_digits(number)
    }

    /// With the number of a flag behind it.
    #[tactic(auto, using(crate::proofs::DecimalLemmas::flag_spells), unfolding(crate::specs::Argument::written))]
    pub fn with_flag(self, flag: u8) -> LineText
        requires room { length self + 11 ≤ LINE_ROOM }
        requires fit { flag ≤ 15 }
        ensures value { result ≡ self ++ written_behind (argument.flag flag ∷ []) }
        ensures short { length result ≤ length self + 11 }
        ensures spelled { IsSpelled (argument.flag flag) (written (argument.flag flag)) }
    {
        self.with_digits(u32::from(flag))
    }

    /// With a count behind it.
    #[tactic(auto, using(crate::proofs::DecimalLemmas::count_spells), unfolding(crate::specs::Argument::written))]
    pub fn with_count(self, count: u32) -> LineText
        requires room { length self + 11 ≤ LINE_ROOM }
        requires fit { (1 ≤ count) × (count ≤ 256) }
        ensures value { result ≡ self ++ written_behind (argument.count count ∷ []) }
        ensures short { length result ≤ length self + 11 }
        ensures spelled { IsSpelled (argument.count count) (written (argument.count count)) }
    {
        self.with_digits(count)
    }
}
