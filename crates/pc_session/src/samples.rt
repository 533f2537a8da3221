//! Small desks and sessions, with what their answers must be. Each law is the contract of a function that does nothing.

ghost use Rattle.pc_session.specs.Samples.{AnsweredAlone, InPlaceOfHistory, ListsClients, LoggedIn, Refused, Shown, Taken, TakenOver};

/// What needs no account, and what a session refuses by itself.
pub fn answered_alone()
    ensures { AnsweredAlone }
{}

/// A client whose session was taken over, or that was taken away.
pub fn taken_over()
    ensures { TakenOver }
{}

/// A client that is made by LOGIN, one that isn't there, and the last number of a session.
pub fn logged_in()
    ensures { LoggedIn }
{}

/// What is there already, or must stay.
pub fn refused()
    ensures { Refused }
{}

/// Changes that were shown are taken as far as they are still those.
pub fn taken()
    ensures { Taken }
{}

/// What the last list of changes told.
pub fn shown()
    ensures { Shown }
{}

/// Clients, each with how it is used.
pub fn lists_clients()
    ensures { ListsClients }
{}

/// A record in place of its history, and one that lost its stamps.
pub fn in_place_of_history()
    ensures { InPlaceOfHistory }
{}
