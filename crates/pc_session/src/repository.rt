//! A repository: the desks of its users, of which sessions ask.

ghost use Rattle.std.specs.Prelude.{◌≡◌, ℕ, List, Bool, is_some};
ghost use Rattle.pc_request.specs.Request.{IsWritable};
ghost use Rattle.pc_session.specs.Desks.{Asked, AskedSomewhere, Desks, SessionEnds};

use crate::session::Session;
use pc_reply::Reply;
use pc_request::Request;
use std::alloc::Global;

/// The desks of its users. One that is shared by threads doesn't tell what they hold.
pub trait Repository {
    /// Whether it tells what its desks hold.
    ghost tells: { Type 0 };

    /// Whether the disks of its desks tell their bytes. Where they don't, a broken store that is opened again may have any
    /// history.
    ghost disks_tell: { Type 0 };

    /// The users with a desk.
    ghost users: { Self → List ℕ → Bool };

    /// What the desks hold, where it tells that.
    ghost desks: { Self → Desks };

    /// Answers a request in a session: by the session alone, or at the desk of the user whom it reaches. Where that
    /// user has no desk, it is refused as a wrong user or password is, and nothing changes.
    fn ask(&mut self, alloc: Global, session: &mut Session, request: &Request) -> Reply
        requires { IsWritable request.now }
        ensures asked { AskedSomewhere disks_tell (users self.old) request.now session.old result session.new }
        ensures told { tells → Asked disks_tell request.now (desks self.old) session.old result (desks self.new) session.new }
        ensures users { users self.new ≡ users self.old };

    /// Ends a session: where it is its client's latest, that isn't live any more. No entry is made.
    fn end(&mut self, session: &mut Session)
        ensures told { tells → SessionEnds session.old.state.who (desks self.old) (desks self.new) }
        ensures same { session.new ≡ session.old }
        ensures users { users self.new ≡ users self.old };

    /// The desks that are told are those of its users.
    ghost are_users: { (r : Self) → tells → (user : List ℕ) → is_some (desks r user) ≡ users r user };
}
