//! Whether names and messages fit their fields. By their types they do.

ghost use Rattle.std.specs.Prelude.{◌≡◌, IsTrue};
ghost use Rattle.std.specs.List.{list_all};
ghost use Rattle.pc_base.specs.Name.{is_name};
ghost use Rattle.pc_base.specs.Line.{is_line};
ghost use Rattle.pc_fields.specs.Fitting.{is_message};

use pc_base::{Line, Name};
use pc_message::Message;

/// Its length fits one byte.
pub fn fits_name(name: &Name) -> bool
    ensures name { result ≡ is_name name.now }
    ensures always { IsTrue result }
{
    name.bytes().len() <= 255
}

/// So do the lengths of all of them.
pub fn fits_names(names: &[Name]) -> bool
    ensures names { result ≡ list_all is_name names.now }
    ensures always { IsTrue result }
{
    names.iter().all(fits_name)
}

/// Its size is one that a message may have, and so are the lengths of its lines.
pub fn fits_message(message: &Message) -> bool
    ensures message { result ≡ is_message message.now }
    ensures always { IsTrue result }
{
    message.size() <= 65_536 && fits_lines(message)
}

fn fits_lines(message: &Message) -> bool
    ensures lines { result ≡ list_all is_line message.now }
    ensures always { IsTrue result }
{
    message.lines().as_slice().iter().all(fits_line)
}

fn fits_line(line: &Line) -> bool
    ensures line { result ≡ is_line line.now }
    ensures always { IsTrue result }
{
    line.bytes().len() <= 1000
}
