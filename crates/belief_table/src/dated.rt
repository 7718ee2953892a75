// What is told of an occurrence that enters or leaves.
use tmm_model::Occ;

/// An occurrence that entered or left.
#[derive(Drop)]
pub struct DatedOcc {
    /// The number of its node then.
    pub node: u32,
    /// Its earliest date then, in whole time units.
    pub early: i64,
    /// The occurrence.
    pub occ: Occ,
}
