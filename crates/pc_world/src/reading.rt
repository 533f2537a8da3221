//! Lines of a script, read as events.

ghost use Rattle.std.specs.Prelude.{◌≡◌, ◌≤◌, false, [], ◌∷◌, ◌++◌, length, IsTrue, IfOk, IfErr, OnErr, IfSome, Ok, Err, Some};
ghost use Rattle.pc_base.specs.Name.{is_name};
ghost use Rattle.pc_request.specs.Request.{IsRequest};
ghost use Rattle.pc_request.specs.Fault.{fault_of};
ghost use Rattle.pc_request.specs.declared.request.Request.{Request as RequestValue};
ghost use Rattle.pc_request.specs.declared.request.RequestFault.{RequestFault as FaultValue};
ghost use Rattle.pc_world.specs.Events.{is_silent, IsAsked, IsEvent};
ghost use Rattle.pc_world.specs.Reading.{IsAsking, Says, SaysAsk, SaysUser};
ghost use Rattle.pc_world.specs.declared.event.Asked.{Asked as AskedValue};
ghost use Rattle.pc_world.specs.declared.event.Event.{Event as EventValue};

use crate::event::{Asked, Event, EventFault};
use pc_base::{Name, Password};
use pc_request::Request;
use pc_wire::{next_word, without_spaces};

/// The most bytes of a line, and of a request in it.
const MOST_LINE: usize = 1000;

pub(crate) const MOST_REQUEST: usize = 512;

/// The event that a line is. `Bad` comes exactly where it is none: a line of more than 1,000
/// bytes, or one that isn't spelled as any event.
pub fn read_event(line: &[u8]) -> Result<Event, EventFault>
    ensures ok { IfOk result (λ event. IsEvent (line.now ∷ []) event) }
    ensures only { IfOk result (λ event. (other : EventValue) → IsEvent (line.now ∷ []) other → other ≡ event) }
    ensures bad { OnErr result ((event : EventValue) → IsEvent (line.now ∷ []) event → ⊥) }
{
    if line.len() > MOST_LINE {
        return Err(EventFault::Bad);
    }
    if is_silent_line(line) {
        return Ok(Event::Silent);
    }
    said(line)
}

fn is_silent_line(line: &[u8]) -> bool
    ensures { result ≡ is_silent line.now }
{
    match line {
        [] => true,
        [first, ..] => *first == b'#',
    }
}

/// The event that a line says which isn't silent.
fn said(line: &[u8]) -> Result<Event, EventFault>
    ensures { Says line.now result }
{
    let Some((word, rest)) = next_word(line) else {
        return Err(EventFault::Bad);
    };
    if word == b"user".as_slice() {
        return said_user(rest);
    }
    if word == b"ask".as_slice() {
        return said_ask(rest);
    }
    Err(EventFault::Bad)
}

/// The user that the words behind `user` name.
fn said_user(words: &[u8]) -> Result<Event, EventFault>
    ensures { SaysUser words.now result }
{
    let Some((name, rest)) = next_word(words) else {
        return Err(EventFault::Bad);
    };
    let Some((password, rest)) = next_word(rest) else {
        return Err(EventFault::Bad);
    };
    if next_word(rest).is_some() {
        return Err(EventFault::Bad);
    }
    let Some(name) = Name::read(name) else {
        return Err(EventFault::Bad);
    };
    let Some(password) = Password::read(password) else {
        return Err(EventFault::Bad);
    };
    Ok(Event::User { name, password })
}

/// What the words behind `ask` ask for.
fn said_ask(words: &[u8]) -> Result<Event, EventFault>
    ensures { SaysAsk words.now result }
{
    let Some((user, rest)) = next_word(words) else {
        return Err(EventFault::Bad);
    };
    let Some(user) = Name::read(user) else {
        return Err(EventFault::Bad);
    };
    let asked = asked(without_spaces(rest));
    Ok(Event::Ask { user, asked })
}

/// The word for the user and the text behind, where the line says `ask`, one space and this name. Other
/// lines may ask too, with more spaces.
pub(crate) fn asking_as<'a>(line: &'a [u8], name: &[u8]) -> Option<(&'a [u8], &'a [u8])>
    requires { IsTrue (is_name name.now) }
    ensures { IfSome result (λ found. IsAsking line.now found.0.now found.1.now × (found.0.now ≡ name.now)) }
{
    if MOST_LINE < line.len() {
        return None;
    }
    let others = behind(line, b"ask")?;
    let text = behind(others, name)?;
    Some((&others[..name.len()], without_spaces(text)))
}

/// What follows this word and the one space behind it, where the text begins with them.
pub(crate) fn behind<'a>(text: &'a [u8], word: &[u8]) -> Option<&'a [u8]>
    ensures { IfSome result (λ rest. text.now ≡ word.now ++ 32 ∷ rest.now) }
{
    if text.len() < word.len() {
        return None;
    }
    let (front, rest) = text.split_at(word.len());
    if front != word {
        return None;
    }
    let (first, rest) = rest.split_first()?;
    if *first != b' ' {
        return None;
    }
    Some(rest)
}

/// What a text asks for.
fn asked(text: &[u8]) -> Asked
    ensures is { IsAsked text.now result }
    ensures only { (other : AskedValue) → IsAsked text.now other → other ≡ result }
{
    if text.len() > MOST_REQUEST {
        return Asked::TooLong;
    }
    match Request::read(text) {
        Ok(request) => Asked::Read(request),
        Err(fault) => Asked::Faulty(fault),
    }
}
