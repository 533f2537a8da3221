//! Lines and bodies as they are written.

ghost use Rattle.std.specs.Prelude.{◌≡◌, ◌++◌, false, OnOk};
ghost use Rattle.pc_base.specs.Stream.{HasCause, WritesAll};
ghost use Rattle.pc_wire.specs.Lines.{has_feed};
ghost use Rattle.pc_wire.specs.Body.{IsBody, sent_as, written_line, written_content, written_body};

use pc_base::{Failed, Line, Lines, Sink, write_all};

/// Writes the bytes and what ends a line. Where it fails, a front of that was written.
pub fn write_line<K: Sink>(sink: &mut K, bytes: &[u8]) -> Result<(), Failed>
    ensures content { WritesAll (K.written sink.old) (K.written sink.new) result (written_line bytes.now) }
    ensures beside { K.beside sink.new ≡ K.beside sink.old }
    ensures cause { HasCause (K.faults sink.old) (K.faults sink.new) result }
{
    write_all(sink, bytes)?;
    write_all(sink, b"\r\n")
}

/// Writes the lines, each behind one more dot where it begins with one, and then the dot that ends
/// them. Where it fails, a front of that was written.
pub fn write_body<K: Sink>(sink: &mut K, lines: &Lines) -> Result<(), Failed>
    ensures content { WritesAll (K.written sink.old) (K.written sink.new) result (written_body lines.now) }
    ensures beside { K.beside sink.new ≡ K.beside sink.old }
    ensures cause { HasCause (K.faults sink.old) (K.faults sink.new) result }
    ensures body { OnOk result (IsBody lines.now (written_body lines.now)) }
{
    for line in lines.as_slice() {
        write_content(sink, line)?;
    }
    write_line(sink, b".")
}

/// Writes one line of a body.
fn write_content<K: Sink>(sink: &mut K, line: &Line) -> Result<(), Failed>
    ensures content { WritesAll (K.written sink.old) (K.written sink.new) result (written_content line.now) }
    ensures beside { K.beside sink.new ≡ K.beside sink.old }
    ensures cause { HasCause (K.faults sink.old) (K.faults sink.new) result }
    ensures without_feed { has_feed line.now ≡ false }
{
    let bytes = line.bytes();
    write_all(sink, added_dot(bytes))?;
    write_line(sink, bytes)
}

/// What is sent in front of a line.
fn added_dot(line: &[u8]) -> &'static [u8]
    ensures { result.now ++ line.now ≡ sent_as line.now }
{
    match line {
        [b'.', ..] => b".".as_slice(),
        _ => b"".as_slice(),
    }
}
