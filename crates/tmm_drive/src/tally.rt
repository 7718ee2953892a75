// What the replies so far were.
ghost use Rattle.std.specs.Prelude.{◌≡◌, ◌≢◌, ◌+◌, ◌-◌, ◌^◌, ◌<◌, true, false, if◌then◌else◌};

use crate::status::Status;
use tmm_model::Turn;

/// What the replies so far were.
#[derive(Clone, Copy)]
pub struct Tally {
    /// How many lines there were.
    pub lines: u64,
    /// Whether one was refused.
    pub refused: bool,
    /// Whether one was `memory`.
    pub memory: bool,
}

impl Tally {
    ghost use Rattle.tmm_drive.specs.Reading.{counted};

    /// No line yet.
    pub fn new() -> Tally
        ensures { result ≡ record { lines = 0; refused = false; memory = false } }
    {
        Tally {
            lines: 0,
            refused: false,
            memory: false,
        }
    }

    /// Counts one more line, with its turn.
    pub fn count(&mut self, turn: &Turn)
        requires { self.old.lines < 2 ^ 64 - 1 }
        ensures { self.new ≡ counted self.old turn.now }
    {
        self.lines += 1;
        match turn {
            Turn::Silent => {}
            Turn::Reply { bytes: _, refused } => self.refused |= *refused,
            Turn::Memory => self.memory = true,
        }
    }

    /// The status of a script that was read to its end, where all replies were written.
    pub fn status(&self) -> Status
        ensures no_fault { (result ≢ Status.ReadFault) × (result ≢ Status.WriteFault) }
        ensures told { result ≡ (if self.now.memory then Status.SomeMemory else (if self.now.refused then Status.SomeRefused else Status.Clean)) }
    {
        if self.memory {
            Status::SomeMemory
        } else if self.refused {
            Status::SomeRefused
        } else {
            Status::Clean
        }
    }
}
