// Pieces of words.
ghost use Rattle.std.specs.Prelude.{◌≡◌, ◌++◌, ◌≤◌, length};
ghost use Rattle.occ_tree.specs.Words.{slash_if};

use arrayvec::ArrayVec;
use tmm_model::Name;

/// A name, and `/` where the word goes on.
pub(crate) type Piece = ArrayVec<u8, 25>;

// The name, and `/` where the word goes on.
pub(crate) fn piece(name: &Name, goes_on: bool) -> Piece
    requires { length name.now ≤ 24 }
    ensures { result.items ≡ name.now ++ slash_if goes_on }
{
    let mut piece = ArrayVec::new();
    let _fits = piece.try_extend_from_slice(name.bytes());
    if goes_on {
        piece.push(b'/');
    }
    piece
}
