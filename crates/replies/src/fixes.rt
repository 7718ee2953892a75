// The reply that lists small changes.
ghost use Rattle.std.specs.Prelude.{◌≡◌, ◌++◌, IfOk, OnOk};
ghost use Rattle.replies.specs.Fixes.{fix_line, repairs_text};

use crate::words::{begun, put_count, put_number, put_point};
use std::alloc::Global;
use tmm_model::{Fix, Name, NoMemory, PointName, Seq};

/// The reply to `repairs`: how many changes there are, and a line for each.
pub fn reply_repairs(alloc: Global, line: u64, fixes: &[Fix]) -> Result<Seq<u8>, NoMemory>
    ensures { IfOk result (λ bytes. bytes.items ≡ repairs_text line fixes.now) }
{
    let mut out = begun(alloc, line, b"repairs ")?;
    put_count(&mut out, fixes.len() as u64)?;
    out.extend(b"\n")?;
    for fix in fixes {
        put_fix(&mut out, fix)?;
    }
    Ok(out)
}

fn put_fix(out: &mut Seq<u8>, fix: &Fix) -> Result<(), NoMemory>
    ensures { OnOk result (out.new.items ≡ out.old.items ++ fix_line fix.now) }
{
    match fix {
        Fix::Add { from, to, lo } => put_added(out, from, to, *lo),
        Fix::Erase(name) => put_named(out, b"  erase ", name, b"\n"),
        Fix::LoosenLo(name) => put_named(out, b"  loosen ", name, b" lo\n"),
        Fix::LoosenHi(name) => put_named(out, b"  loosen ", name, b" hi\n"),
    }
}

// The points and the lower bound of a constraint, which has no upper one.
fn put_added(out: &mut Seq<u8>, from: &PointName, to: &PointName, lo: i64) -> Result<(), NoMemory>
    ensures { OnOk result (out.new.items ≡ out.old.items ++ fix_line (Fix.Add from.now to.now lo)) }
{
    out.extend(b"  add ")?;
    put_point(out, from)?;
    out.extend(b" ")?;
    put_point(out, to)?;
    out.extend(b" ")?;
    put_number(out, lo)?;
    out.extend(b" *\n")
}

// A name between these bytes.
fn put_named(out: &mut Seq<u8>, front: &[u8], name: &Name, back: &[u8]) -> Result<(), NoMemory>
    ensures { OnOk result (out.new.items ≡ out.old.items ++ front.now ++ name.now ++ back.now) }
{
    out.extend(front)?;
    out.extend(name.bytes())?;
    out.extend(back)
}
