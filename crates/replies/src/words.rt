// Words of a reply, each appended to its bytes.
ghost use Rattle.std.specs.Prelude.{◌≡◌, ◌∷◌, ◌++◌, IfOk, OnOk, decimal};
ghost use Rattle.std.specs.Fmt.{signed_decimal};
ghost use Rattle.tmm_model.specs.Points.{point_word, occ_word, query_word};
ghost use Rattle.tmm_model.specs.Replies.{bound_word, side_word};

use itoa::Buffer;
use std::alloc::Global;
use tmm_model::{Bound, NoMemory, Occ, PointName, QueryPoint, Seq, Side};

// A room that most replies fit.
const ROOM: usize = 128;

/// A reply that begins with the line's number, a space and this text.
pub fn begun(alloc: Global, line: u64, text: &[u8]) -> Result<Seq<u8>, NoMemory>
    ensures { IfOk result (λ out. out.items ≡ decimal line ++ 32 ∷ text.now) }
{
    let mut out = Seq::make(alloc);
    out.reserve(ROOM)?;
    put_count(&mut out, line)?;
    out.extend(b" ")?;
    out.extend(text)?;
    Ok(out)
}

/// Appends a count in decimal.
pub fn put_count(out: &mut Seq<u8>, n: u64) -> Result<(), NoMemory>
    ensures { OnOk result (out.new.items ≡ out.old.items ++ decimal n) }
{
    let mut digits = Buffer::new();
    out.extend(digits.format(n).as_bytes())
}

/// Appends a number in decimal.
pub fn put_number(out: &mut Seq<u8>, n: i64) -> Result<(), NoMemory>
    ensures { OnOk result (out.new.items ≡ out.old.items ++ signed_decimal n) }
{
    let mut digits = Buffer::new();
    out.extend(digits.format(n).as_bytes())
}

/// Appends a number, or `*` for none.
pub fn put_bound(out: &mut Seq<u8>, bound: Bound) -> Result<(), NoMemory>
    ensures { OnOk result (out.new.items ≡ out.old.items ++ bound_word bound) }
{
    match bound {
        Bound::Finite(n) => put_number(out, n),
        Bound::Free => out.extend(b"*"),
    }
}

/// Appends the word of a side.
pub fn put_side(out: &mut Seq<u8>, side: Side) -> Result<(), NoMemory>
    ensures { OnOk result (out.new.items ≡ out.old.items ++ side_word side) }
{
    match side {
        Side::Hi => out.extend(b"hi"),
        Side::Lo => out.extend(b"lo"),
        Side::Base => out.extend(b"base"),
        Side::Length => out.extend(b"length"),
    }
}

/// Appends the word of a declared point.
pub fn put_point(out: &mut Seq<u8>, point: &PointName) -> Result<(), NoMemory>
    ensures { OnOk result (out.new.items ≡ out.old.items ++ point_word point.now) }
{
    match point {
        PointName::Start => out.extend(b"start"),
        PointName::Begin(name) => out.extend(name.bytes()),
        PointName::End(name) => {
            out.extend(name.bytes())?;
            out.extend(b".end")
        }
    }
}

/// Appends the word of an occurrence.
pub fn put_occ(out: &mut Seq<u8>, occ: &Occ) -> Result<(), NoMemory>
    ensures { OnOk result (out.new.items ≡ out.old.items ++ occ_word occ.now) }
{
    out.extend(occ.root.bytes())?;
    out.put_links(occ.rules.items())
}

/// Appends the word of a point that a question names.
pub fn put_query(out: &mut Seq<u8>, point: &QueryPoint) -> Result<(), NoMemory>
    ensures { OnOk result (out.new.items ≡ out.old.items ++ query_word point.now) }
{
    match point {
        QueryPoint::Declared(point) => put_point(out, point),
        QueryPoint::Derived(occ) => put_occ(out, occ),
    }
}
