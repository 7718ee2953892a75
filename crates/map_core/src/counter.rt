// How many decisions a map made.
ghost use Rattle.std.specs.Prelude.{◌≡◌, ◌≤◌, min, ◌+◌};

use std::marker::Model;

/// How many decisions have been made, up to the greatest number that it can hold.
#[derive(Drop)]
pub struct Counter {
    count: u64,
}

impl Model for Counter {
    ghost use Rattle.std.specs.Prelude.{ℕ};

    ghost Value = { ℕ };

    ghost view = { λ c. c.count };
}

impl Counter {
    /// A counter of no decisions.
    pub fn zero() -> Counter
        ensures { result ≡ 0 }
    {
        Counter { count: 0 }
    }

    /// How many decisions were counted, at most 2^64 - 1.
    pub fn value(&self) -> u64
        ensures { result ≡ self.now }
    {
        self.count
    }

    /// Counts one decision more.
    pub fn raise(&mut self)
        ensures counted { self.new ≡ min (self.old + 1) 18446744073709551615 }
        ensures kept { self.old ≤ self.new }
    {
        self.count = self.count.saturating_add(1);
    }
}
