// A time map as it is read.
use dist_net::DistNet;
use occ_tree::Tree;
use premise_list::Standing;

/// A time map as it is read. Network and occurrences are borrowed with the premises that make them,
/// since they are right for no others.
#[derive(Drop)]
pub struct TimeMap<'a> {
    /// The standing premises.
    pub standing: &'a Standing,
    /// The occurrences that they make.
    pub tree: &'a Tree,
    /// The points that they declare, and their distances.
    pub net: &'a DistNet,
}
