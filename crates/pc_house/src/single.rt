//! A repository on one thread.

ghost use Rattle.std.specs.Prelude.{◌≡◌, None, Some, MatchOption};
ghost use Rattle.std.specs.List.{position};
ghost use Rattle.pc_tables.specs.Table.{same};
ghost use Rattle.pc_house.specs.Single.{AreUsers, desk_for};

use crate::desk::Desk;
use pc_base::Name;
use pc_disk::Disk;
use pc_reply::Reply;
use pc_request::Request;
use pc_session::{Reach, Repository, Session};
use std::alloc::Global;
use std::marker::Model;

/// The desks of its users, on one thread.
#[derive(Drop)]
pub struct Single<D: Disk + Drop> {
    desks: Vec<(Name, Desk<D>)>,
}

impl<D: Disk + Drop> Model for Single<D> {
    ghost use Rattle.std.specs.Prelude.{ℕ, List};
    ghost use Rattle.pc_house.specs.Desk.{DeskValue};
    ghost use Rattle.pc_house.specs.Single.{AreUsers};

    ghost Value = { List (List ℕ × DeskValue D) };

    ghost view = { λ s. s.desks.items };

    ghost invariant = { λ s. AreUsers s.desks.items };
}

impl<D: Disk + Drop> Single<D> {
    /// A repository of these desks, each under the name of its user.
    pub fn new(desks: Vec<(Name, Desk<D>)>) -> Single<D>
        requires { AreUsers desks.items }
        ensures { result ≡ desks.items }
    {
        Single { desks }
    }

    /// The desk of a user.
    pub fn desk(&self, user: &Name) -> Option<&Desk<D>>
        ensures { MatchOption result (desk_for self.now user.now ≡ None) (λ desk. desk_for self.now user.now ≡ Some desk.now) }
    {
        let place = self.place_of(user)?;
        let (_, desk) = &self.desks[place];
        Some(desk)
    }

    /// The desks.
    pub fn into_desks(self) -> Vec<(Name, Desk<D>)>
        ensures { result.items ≡ self }
    {
        let Single { desks } = self;
        desks
    }

    // The place of the desk of a user.
    fn place_of(&self, user: &Name) -> Option<usize>
        ensures { result ≡ position (λ desk. same user.now desk.0) self.now }
    {
        self.desks.iter().position(|desk| *user == desk.0)
    }
}

impl<D: Disk + Drop> Repository for Single<D> {
    ghost use Rattle.std.specs.Prelude.{⊤};
    ghost use Rattle.pc_house.specs.Single.{has_desk, told_in, told_users};

    ghost tells = { ⊤ };

    ghost disks_tell = { D.tells };

    ghost users = { λ s. has_desk s };

    ghost desks = { λ s. told_in D.faults s };

    fn ask(&mut self, alloc: Global, session: &mut Session, request: &Request) -> Reply {
        let Reach::Account(user) = session.reach(request) else {
            return session.alone(alloc, request);
        };
        let Some(place) = self.place_of(&user) else {
            return session.no_desk(alloc);
        };
        let (_, desk) = &mut self.desks[place];
        desk.ask(alloc, session, request)
    }

    fn end(&mut self, session: &mut Session) {
        let Some(user) = session.user() else {
            return;
        };
        let Some(place) = self.place_of(&user) else {
            return;
        };
        let (_, desk) = &mut self.desks[place];
        session.end(desk);
    }

    ghost are_users = { λ s _ user. told_users D.faults s user };
}
