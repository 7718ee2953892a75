// A source of one line, again and again.
ghost use Rattle.std.specs.Prelude.{◌≡◌, ◌+◌, ◌-◌, ◌<◌, ◌≤◌, ◌%◌, ℕ, length, min, slice_index, None, IfOk, IsOk};
ghost use Rattle.std.specs.Io.{ReadsAtMost};
ghost use Rattle.std.specs.Io.KnownBytes.{ReadConsumes};
ghost use Rattle.tmm_io.specs.Causes.{HasCause};

use crate::{Failed, Source};
use std::alloc::Global;
use std::marker::Model;
use tmm_model::NoMemory;

/// Gives a stated line again and again, up to a stated number of bytes. It tells no bytes. No call
/// fails.
#[derive(Drop)]
pub struct RepeatSource {
    line: Vec<u8>,
    at: usize,
    left: u64,
}

impl Model for RepeatSource {
    ghost use Rattle.std.specs.Prelude.{◌<◌, vec_len};
    ghost use Rattle.tmm_io.specs.Given.{Repeated};

    ghost Value = { Repeated };

    ghost view = { λ s. record { line = s.line.items; at = s.at; left = s.left } };

    ghost invariant = { λ s. s.at < vec_len s.line };
}

impl RepeatSource {
    /// A source of this line, `total` bytes of it.
    pub fn make(alloc: Global, line: &[u8], total: u64) -> Result<RepeatSource, NoMemory>
        requires { 0 < length line.now }
        ensures { IfOk result (λ s. s ≡ record { line = line.now; at = 0; left = total }) }
    {
        Ok(RepeatSource {
            line: Vec::from_slice(alloc, line)?,
            at: 0,
            left: total,
        })
    }
}

impl Source for RepeatSource {
    ghost left = { λ _. None };

    ghost faults = { λ _. 0 };

    fn read(&mut self, buf: &mut [u8]) -> Result<usize, Failed>
        ensures bound { ReadsAtMost result buf.new }
        ensures bytes { ReadConsumes None None result buf.new }
        ensures cause { HasCause 0 0 result }
        ensures ok { IsOk result }
        ensures count { IfOk result (λ n. n ≡ min (length buf.old) self.old.left) }
        ensures repeated { IfOk result (λ n. (k : ℕ) → k < n → slice_index buf.new k ≡ slice_index self.old.line ((self.old.at + k) % length self.old.line)) }

        ensures line { self.new.line ≡ self.old.line }
        ensures at { IfOk result (λ n. self.new.at ≡ (self.old.at + n) % length self.old.line) }
        ensures left { IfOk result (λ n. self.new.left ≡ self.old.left - n) }
    {
        let mut count = 0;
        for place in buf.iter_mut() {
            if self.left == 0 {
                break;
            }
            *place = self.line[self.at];
            self.left -= 1;
            self.at = after(self.at, self.line.len());
            count += 1;
        }
        Ok(count)
    }
}

// The place after this one, in a line of so many bytes that begins again behind its last.
fn after(at: usize, len: usize) -> usize
    requires { at < len }
    ensures { result ≡ (at + 1) % len }
{
    if at + 1 == len { 0 } else { at + 1 }
}
