//! How a run ends.

ghost use Rattle.std.specs.Prelude.{◌≡◌};
ghost use Rattle.pcmail.specs.Status.{code_of, error_of};

use thiserror::Error;

/// How a run ended.
#[derive(Clone, Copy, Debug, PartialEq, Eq)]
pub enum Status {
    /// The command did what it says.
    Ok,
    /// The words are no command.
    Usage,
    /// The line of input with this number isn't as the command reads it.
    InputRefused { line: u64 },
    /// The input failed.
    ReadFault,
    /// The output failed.
    WriteFault,
    /// Want of memory.
    Memory,
}

/// What the program says on standard error where it doesn't end well.
#[derive(Debug, Drop, Error)]
pub enum RunError {
    #[error("usage: pcmail COMMAND ARGUMENTS")]
    Usage,
    #[error("line {line} refused")]
    InputRefused { line: u64 },
    #[error("read fault")]
    ReadFault,
    #[error("write fault")]
    WriteFault,
    #[error("want of memory")]
    Memory,
}

impl Status {
    /// The program's exit status.
    pub fn code(&self) -> u8
        ensures { result ≡ code_of self.now }
    {
        match self {
            Status::Ok => 0,
            Status::Usage => 1,
            Status::InputRefused { .. } => 2,
            Status::ReadFault => 3,
            Status::WriteFault => 4,
            Status::Memory => 9,
        }
    }

    /// The error to show, unless all went well.
    pub fn error(&self) -> Option<RunError>
        ensures { result ≡ error_of self.now }
    {
        match self {
            Status::Ok => None,
            Status::Usage => Some(RunError::Usage),
            Status::InputRefused { line } => Some(RunError::InputRefused { line: *line }),
            Status::ReadFault => Some(RunError::ReadFault),
            Status::WriteFault => Some(RunError::WriteFault),
            Status::Memory => Some(RunError::Memory),
        }
    }
}
