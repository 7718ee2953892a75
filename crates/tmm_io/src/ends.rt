// What is asked of the two ends of the outside.
ghost use Rattle.std.specs.Prelude.{List, ℕ};
ghost use Rattle.std.specs.declared.option.Option.{Option};
ghost use Rattle.std.specs.Io.{ReadsAtMost};
ghost use Rattle.std.specs.Io.KnownBytes.{ReadConsumes};
ghost use Rattle.tmm_io.specs.Causes.{HasCause};
ghost use Rattle.tmm_io.specs.Ends.{WritesAll};

use thiserror::Error;

/// A read or a write failed.
#[derive(Clone, Copy, PartialEq, Eq, Debug, Error)]
#[error("the input or the output failed")]
pub struct Failed;

/// Where bytes are read from.
pub trait Source {
    /// The bytes that are left, where the source tells them.
    ghost left: { Self → Option (List ℕ) };

    /// How often reading has failed.
    ghost faults: { Self → ℕ };

    /// Reads the next bytes into the front of the buffer, and says how many. No byte for a buffer
    /// that isn't empty is the end of the input. A read that fails takes no byte.
    fn read(&mut self, buf: &mut [u8]) -> Result<usize, Failed>
        ensures bound { ReadsAtMost result buf.new }
        ensures bytes { ReadConsumes (left self.old) (left self.new) result buf.new }
        ensures cause { HasCause (faults self.old) (faults self.new) result };
}

/// Where bytes are written to.
pub trait Sink {
    /// The bytes that were written, where the sink tells them.
    ghost written: { Self → Option (List ℕ) };

    /// How often writing has failed.
    ghost faults: { Self → ℕ };

    /// Writes all bytes. Where that fails, some first part of them was written.
    fn write_all(&mut self, bytes: &[u8]) -> Result<(), Failed>
        ensures bytes { WritesAll (written self.old) (written self.new) result bytes.now }
        ensures cause { HasCause (faults self.old) (faults self.new) result };
}
