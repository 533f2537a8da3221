//! The events of a script.

use pc_base::{Name, Password};
use pc_request::{Request, RequestFault};

/// What the text behind `ask U` asks for.
#[derive(Clone, Copy)]
pub enum Asked {
    /// The text has more than 512 bytes.
    TooLong,
    /// The text is no request.
    Faulty(RequestFault),
    /// The text is this request.
    Read(Request),
}

/// One event.
#[derive(Clone, Copy)]
pub enum Event {
    /// An empty line or a comment, which does nothing.
    Silent,
    /// A user is enrolled.
    User { name: Name, password: Password },
    /// A user's request, in a session without client.
    Ask { user: Name, asked: Asked },
}

/// Why a line is no event.
#[derive(Clone, Copy, Debug, PartialEq, Eq)]
pub enum EventFault {
    /// No event is spelled so.
    Bad,
}
