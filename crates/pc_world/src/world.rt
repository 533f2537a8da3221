//! The world of a script: its users and their accounts.

ghost use Rattle.std.specs.Prelude.{◌≡◌, [], is_some, IsTrue, IfSome, IfOk, OnOk, OnErr};
ghost use Rattle.pc_base.specs.Name.{is_name};
ghost use Rattle.pc_world.specs.Events.{IsAsked};
ghost use Rattle.pc_world.specs.Reading.{IsAsking};
ghost use Rattle.pc_world.specs.declared.event.Asked.{Asked as AskedValue};
ghost use Rattle.pc_world.specs.declared.event.Event.TheVariants.{Ask};
ghost use Rattle.pc_world.specs.Steps.{Prints, Step, enrol_head, enrol_refusal as refusal_of, entries_of, fits as suits, place_in, printed_user, with_user};

use crate::event::{Asked, Event};
use crate::reading::asking_as;
use crate::repository::{answer, answer_text};
use crate::transcript::Transcript;
use crate::user::User;
use pc_base::{LimitWord, Memory, Name, Password, Printed, Refusal};
use std::alloc::Global;
use std::marker::Model;

/// The most users.
const MOST_USERS: usize = 32;

/// The users of a script so far, in the order in which they were enrolled. Contracts see each with the entries of the
/// account.
#[derive(Drop)]
pub struct World {
    users: Vec<User>,
}

impl Model for World {
    ghost use Rattle.std.specs.Prelude.{List};
    ghost use Rattle.pc_world.specs.Account.{Account as Kept};

    ghost Value = { List Kept };

    ghost view = { λ world. world.users.items };
}

impl World {
    /// A world without users.
    pub fn new(alloc: Global) -> World
        ensures { result ≡ [] }
    {
        World {
            users: Vec::new(alloc),
        }
    }

    /// Whether the event names what is there.
    pub fn fits(&self, event: &Event) -> bool
        ensures { result ≡ suits self.now event.now }
    {
        match event {
            Event::Silent => true,
            Event::User { .. } => true,
            Event::Ask { user, .. } => self.place_of(user.bytes()).is_some(),
        }
    }

    /// Plays an event, and answers the lines that it prints. After `Err` the world isn't used again.
    pub fn play(&mut self, alloc: Global, event: &Event) -> Result<Printed, Memory>
        requires { IsTrue (suits self.old event.now) }
        ensures { IfOk result (λ printed. Step self.old event.now printed self.new) }
    {
        let mut printed = Printed::new(alloc);
        let Ok(()) = self.play_into(alloc, event, &mut printed) else {
            return Err(Memory);
        };
        Ok(printed)
    }

    /// Plays an event, and prints its lines. After `Err` some of them may be printed, and the world isn't used again.
    pub(crate) fn play_into<T: Transcript>(
        &mut self,
        alloc: Global,
        event: &Event,
        transcript: &mut T,
    ) -> Result<(), Memory>
        requires { IsTrue (suits self.old event.now) }
        ensures ok { OnOk result (Prints self.old event.now self.new (T.adds transcript.old) transcript.new) }
        ensures err { OnErr result (T.keeps transcript.old transcript.new) }
    {
        match event {
            Event::Silent => Ok(()),
            Event::User { name, password } => self.enrol(alloc, name, password, transcript),
            Event::Ask { user, asked } => self.ask(alloc, user, asked, transcript),
        }
    }

    // The place of the user of this name.
    fn place_of(&self, name: &[u8]) -> Option<usize>
        ensures { result ≡ place_in self.now name.now }
    {
        self.users.iter().position(|user| user.is_named(name))
    }

    /// The user who is there that a line says asks, and the text behind, where the line says it with
    /// single spaces.
    pub(crate) fn asking<'a>(&self, line: &'a [u8]) -> Option<(&'a [u8], &'a [u8])>
        ensures { IfSome result (λ found. IsAsking line.now found.0.now found.1.now × IsTrue (is_name found.0.now) × IsTrue (is_some (entries_of self.now found.0.now))) }
    {
        let found = self.asking_by_name(line)?;
        self.place_of(found.0)?;
        Some(found)
    }

    // The same of a user whose name the line has.
    fn asking_by_name<'a>(&self, line: &'a [u8]) -> Option<(&'a [u8], &'a [u8])>
        ensures { IfSome result (λ found. IsAsking line.now found.0.now found.1.now × IsTrue (is_name found.0.now)) }
    {
        for user in self.users.iter() {
            if let Some(found) = asking_as(line, user.name().bytes()) {
                return Some(found);
            }
        }
        None
    }

    // Why a user of this name isn't enrolled.
    fn enrol_refusal(&self, name: &Name) -> Option<Refusal>
        ensures { result ≡ refusal_of self.now name.now }
    {
        if self.place_of(name.bytes()).is_some() {
            return Some(Refusal::AddressTaken);
        }
        if self.users.len() < MOST_USERS {
            return None;
        }
        let limit = LimitWord::Users;
        Some(Refusal::LimitReached { limit })
    }

    fn enrol<T: Transcript>(
        &mut self,
        alloc: Global,
        name: &Name,
        password: &Password,
        transcript: &mut T,
    ) -> Result<(), Memory>
        ensures world { OnOk result (self.new ≡ with_user self.old name.now password.now (refusal_of self.old name.now)) }
        ensures ok { OnOk result (T.adds transcript.old (printed_user name.now (enrol_head (refusal_of self.old name.now))) transcript.new) }
        ensures err { OnErr result (T.keeps transcript.old transcript.new) }
    {
        if let Some(why) = self.enrol_refusal(name) {
            return transcript.print_user(alloc, name, why.head().bytes());
        }
        let Ok(user) = User::enrol(alloc, name, password) else {
            return Err(Memory);
        };
        let Ok(()) = self.users.push(user) else {
            return Err(Memory);
        };
        transcript.print_user(alloc, name, b"200 Ok")
    }

    fn ask<T: Transcript>(
        &mut self,
        alloc: Global,
        name: &Name,
        asked: &Asked,
        transcript: &mut T,
    ) -> Result<(), Memory>
        requires { IsTrue (is_some (entries_of self.old name.now)) }
        ensures ok { OnOk result (Prints self.old (Ask name.now asked.now) self.new (T.adds transcript.old) transcript.new) }
        ensures err { OnErr result (T.keeps transcript.old transcript.new) }
    {
        let Some(place) = self.place_of(name.bytes()) else {
            unreachable!();
        };
        answer(alloc, &mut self.users[place], asked, transcript)
    }

    /// Plays what a user asks with a text, who is there. After `Err` the world isn't used again.
    pub(crate) fn ask_text<T: Transcript>(
        &mut self,
        alloc: Global,
        name: &[u8],
        text: &[u8],
        transcript: &mut T,
    ) -> Result<(), Memory>
        requires { IsTrue (is_some (entries_of self.old name.now)) }
        ensures asked { (asked : AskedValue) × (IsAsked text.now asked × OnOk result (Prints self.old (Ask name.now asked) self.new (T.adds transcript.old) transcript.new)) }
        ensures err { OnErr result (T.keeps transcript.old transcript.new) }
    {
        let Some(place) = self.place_of(name) else {
            unreachable!();
        };
        answer_text(alloc, &mut self.users[place], text, transcript)
    }
}
