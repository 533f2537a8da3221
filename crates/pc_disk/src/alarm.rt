//! Which device calls of a disk in memory fail.

ghost use Rattle.std.specs.Prelude.{◌≡◌};
ghost use Rattle.pc_disk.specs.Alarm.{fate_of, counted, unarmed};

use crate::choice::Choice;
use crate::fate::Fate;

/// What is armed: in how many device calls one fails or the disk stops (0: never), what a crash
/// then leaves, and whether the disk has stopped.
#[derive(Clone, Copy)]
pub struct Alarm {
    pub failing: u64,
    pub stopping: u64,
    pub choice: Choice,
    pub is_stopped: bool,
}

impl Alarm {
    /// Nothing is armed, and a crash loses what isn't synced.
    pub fn new() -> Alarm
        ensures { result ≡ unarmed }
    {
        Alarm {
            failing: 0,
            stopping: 0,
            choice: Choice::Lose,
            is_stopped: false,
        }
    }

    /// A device call passes. What becomes of it: a stop comes before a failure.
    pub fn next(&mut self) -> Fate
        ensures fate { result ≡ fate_of self.old }
        ensures after { self.new ≡ counted self.old }
    {
        let fate = if self.is_stopped {
            Fate::Failed
        } else if self.stopping == 1 {
            Fate::Stopped
        } else if self.failing == 1 {
            Fate::Failed
        } else {
            Fate::Made
        };
        self.is_stopped = self.is_stopped || self.stopping == 1;
        self.failing = self.failing.saturating_sub(1);
        self.stopping = self.stopping.saturating_sub(1);
        fate
    }
}
