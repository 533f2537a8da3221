//! Replies.

ghost use Rattle.std.specs.Prelude.{◌≡◌};
ghost use Rattle.pc_base.specs.Stream.{HasCause, WritesAll};
ghost use Rattle.pc_reply.specs.Reply.{CanBeSent, IsReply, written_reply};

use crate::head::Head;
use pc_base::{Failed, Lines, Sink};
use pc_wire::{write_body, write_line};

/// What a request is answered.
#[derive(Drop)]
pub struct Reply {
    pub head: Head,
    /// The lines of a list or a message; none behind another head.
    pub lines: Lines,
}

impl Reply {
    /// Writes the head and, where one follows, the list with its dot. Where it fails, a front of that
    /// was written. Lines behind another head aren't written.
    pub fn write<K: Sink>(&self, sink: &mut K) -> Result<(), Failed>
        ensures content { WritesAll (K.written sink.old) (K.written sink.new) result (written_reply self.now) }
        ensures beside { K.beside sink.new ≡ K.beside sink.old }
        ensures cause { HasCause (K.faults sink.old) (K.faults sink.new) result }

        // What is written is the reply, where it's one that can be sent.
        ensures reply { CanBeSent self.now → IsReply self.now (written_reply self.now) }
    {
        write_line(sink, self.head.text().bytes())?;
        if !self.head.has_list() {
            return Ok(());
        }
        write_body(sink, &self.lines)
    }
}
