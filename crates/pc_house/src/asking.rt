//! A request at the desk of a user.

ghost use Rattle.std.specs.Prelude.{◌≡◌, ◌+◌, ◌^◌, ◌<◌, ◌≤◌, false};
ghost use Rattle.pc_house.specs.Asking.{AsksDesk, ReachesOnly};
ghost use Rattle.pc_house.specs.Desk.{DeskFails};
ghost use Rattle.pc_reply.specs.declared.head.Head.TheVariants as head;
ghost use Rattle.pc_request.specs.Request.{IsWritable};
ghost use Rattle.pc_session.specs.States.{reach_of};
ghost use Rattle.pc_session.specs.Turn.{Heard};

use crate::desk::Desk;
use pc_disk::Disk;
use pc_reply::Reply;
use pc_request::Request;
use pc_session::{Reach, Session};
use std::alloc::Global;

impl<D: Disk + Drop> Desk<D> {
    /// Answers a request of a session: alone, or at this desk where it reaches its user. 500, 501 and 502 come as they
    /// do of `Session::with_account`.
    pub fn ask(&mut self, alloc: Global, session: &mut Session, request: &Request) -> Reply
        requires writable { IsWritable request.now }
        requires reach { ReachesOnly self.old.user (reach_of session.old.state request.now) }
        ensures asked { AsksDesk D.tells D.faults (reach_of session.old.state request.now) request.now self.old session.old result self.new session.new }
        ensures heard { Heard request.now false result session.old session.new }

        // 501 comes only where a device call was to fail; where a broken store is opened again, unless nearly all was
        // read that can be counted.
        ensures device { self.old.store.broken ≡ false → result.head ≡ head.DeviceFailed → DeskFails D.tells_due D.moment D.due self.old }
        ensures device_again { D.taken self.old.store.disk + 2 ^ 31 < 2 ^ 64 → result.head ≡ head.DeviceFailed → DeskFails D.tells_due D.moment D.due self.old }
        ensures ahead { DeskFails D.tells_due D.moment D.due self.new → DeskFails D.tells_due D.moment D.due self.old }
        ensures taken { D.taken self.new.store.disk ≤ D.taken self.old.store.disk + 2 ^ 31 }
        ensures user { self.new.user ≡ self.old.user }
    {
        match session.reach(request) {
            Reach::Nobody => session.alone(alloc, request),
            Reach::Account(_) => session.with_account(alloc, self, request),
        }
    }
}
