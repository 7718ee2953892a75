// Versions of the script.

/// A version of the script: which lines a list takes.
#[derive(Clone, Copy, PartialEq, Eq, Debug)]
pub enum Version {
    /// Rules have no exceptions. A list begins in this version.
    One,
    /// Rules may have exceptions.
    Two,
}
