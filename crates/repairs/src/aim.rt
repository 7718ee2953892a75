// What candidates are tried for.
use tmm_model::Name;

/// The protection that is to be mended, and the name of a constraint that is added for it.
#[derive(Clone, Copy)]
pub(crate) struct Aim {
    /// The name of the protection.
    pub name: Name,
    /// The free name of the list.
    pub free: Name,
}
