// The reply to `dump`.
ghost use Rattle.std.specs.Prelude.{◌≡◌, ◌<◌, ◌++◌, [], ◌∷◌, length, map, slice_get, Some, codes, decimal, IfOk, OnOk};
ghost use Rattle.std.specs.List.{flat_map};
ghost use Rattle.tmm_model.specs.Lines.{shown_text};
ghost use Rattle.tmm_model.specs.Replies.{text_of, DumpIs, head_line, line_of, opening_lines, two};
ghost use Rattle.replies.specs.Dump.{premise_line};

use crate::words::{begun, put_count};
use premise_list::Standing;
use std::alloc::Global;
use tmm_model::{NoMemory, Premise, Seq, Version};
use tmm_script::print_premise;

/// The reply to `dump`: how many premises stand, the line that opens version 2 where the list is of
/// it, the horizon, and a line for each premise, oldest first, which declares it.
pub fn reply_dump(alloc: Global, line: u64, standing: &Standing) -> Result<Seq<u8>, NoMemory>
    ensures { IfOk result (λ bytes. bytes.items ≡ text_of line (DumpIs standing.now.present.version standing.now.present.horizon (map shown_text standing.now.present.premises))) }
{
    let mut out = dump_begun(
        alloc,
        line,
        standing.len(),
        standing.version(),
        standing.horizon(),
    )?;
    put_premises(alloc, &mut out, standing)?;
    Ok(out)
}

// How many premises stand, the version and the horizon.
fn dump_begun(
    alloc: Global,
    line: u64,
    count: usize,
    version: Version,
    horizon: u32,
) -> Result<Seq<u8>, NoMemory>
    ensures { IfOk result (λ out. out.items ≡ head_line line (codes "dump" ∷ decimal count ∷ []) ++ opening_lines version horizon) }
{
    let mut out = begun(alloc, line, b"dump ")?;
    put_count(&mut out, count as u64)?;
    out.extend(b"\n")?;
    put_opening(&mut out, version, horizon)?;
    Ok(out)
}

fn put_opening(out: &mut Seq<u8>, version: Version, horizon: u32) -> Result<(), NoMemory>
    ensures { OnOk result (out.new.items ≡ out.old.items ++ opening_lines version horizon) }
{
    match version {
        Version::One => put_horizon(out, horizon),
        Version::Two => {
            out.extend(b"  tmm 2\n")?;
            put_horizon(out, horizon)
        }
    }
}

fn put_horizon(out: &mut Seq<u8>, horizon: u32) -> Result<(), NoMemory>
    ensures { OnOk result (out.new.items ≡ out.old.items ++ line_of two (codes "horizon" ∷ decimal horizon ∷ [])) }
{
    out.extend(b"  horizon ")?;
    put_count(out, horizon as u64)?;
    out.extend(b"\n")
}

fn put_premises(alloc: Global, out: &mut Seq<u8>, standing: &Standing) -> Result<(), NoMemory>
    ensures { OnOk result (out.new.items ≡ out.old.items ++ flat_map premise_line standing.now.present.premises) }
{
    let count = standing.len();
    for place in 0..count {
        put_premise(alloc, out, premise_at(standing, place))?;
    }
    Ok(())
}

// The premise at a place of the list.
fn premise_at(standing: &Standing, place: usize) -> &Premise
    requires { place < length standing.now.present.premises }
    ensures { slice_get standing.now.present.premises place ≡ Some result.now }
{
    match standing.at(place) {
        Some(premise) => premise,
        None => unreachable!(),
    }
}

fn put_premise(alloc: Global, out: &mut Seq<u8>, premise: &Premise) -> Result<(), NoMemory>
    ensures { OnOk result (out.new.items ≡ out.old.items ++ premise_line premise.now) }
{
    out.extend(b"  ")?;
    print_premise(alloc, premise, out)?;
    out.extend(b"\n")?;
    Ok(())
}
