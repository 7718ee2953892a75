// The limits of the program. Definitions and code cite them.

/// The most bytes of a line; a longer one is refused for its length.
pub const LONGEST_LINE: usize = 400;

/// The most bytes of a script.
pub const LONGEST_SCRIPT: usize = 1 << 30;

/// The most bytes of a name.
pub const LONGEST_NAME: usize = 24;

/// The greatest absolute value of a number in a line, in time units where it is a bound or a delay.
pub const GREATEST_NUMBER: u32 = 1_000_000_000;

/// The horizon of the empty list, in time units.
pub const FIRST_HORIZON: u32 = 1000;

/// The greatest horizon, in time units.
pub const LAST_HORIZON: u32 = 100_000;

/// The most facts of a class.
pub const MOST_FACTS: usize = 8;

/// The most antecedents of a rule.
pub const MOST_ANTECEDENTS: usize = 4;

/// The most exceptions of a rule.
pub const MOST_EXCEPTIONS: usize = 2;

/// The most premises of a standing list.
pub const MOST_PREMISES: usize = 2000;

/// The most points of a standing list, `start` among them.
pub const MOST_POINTS: usize = 256;

/// The most constraints of a standing list: two for each premise.
pub const MOST_EDGES: usize = 4000;

/// The greatest size of a map: what is believed, with the rules that lead to it and act on it.
pub const MOST_SIZE: u64 = 100_000;

/// The most tokens that the answer to a question blames.
pub const MOST_BLAMES: usize = 8;

/// The most events of a generated script.
pub const MOST_EVENTS: u32 = 1000;
