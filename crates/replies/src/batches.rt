// Replies about the edits of an agent.
ghost use Rattle.std.specs.Prelude.{◌≡◌, ◌++◌, [], ◌∷◌, IfOk, OnOk};
ghost use Rattle.tmm_model.specs.Points.{query_word};
ghost use Rattle.replies.specs.Batches.{held_text, taken_lines, batch_text, cause_lines, no_batch_text};

use crate::details::{put_changes, put_steps};
use crate::words::{begun, put_count, put_number, put_query};
use std::alloc::Global;
use tmm_model::{NoMemory, QueryPoint, Refusal, Seq, Taken};

/// The reply that an edit is held, and that `count` edits are now held for its agent.
pub fn reply_held(alloc: Global, line: u64, count: u32) -> Result<Seq<u8>, NoMemory>
    ensures { IfOk result (λ bytes. bytes.items ≡ held_text line count) }
{
    let mut out = begun(alloc, line, b"held ")?;
    put_count(&mut out, u64::from(count))?;
    out.extend(b"\n")?;
    Ok(out)
}

/// The reply to a commit that made all held edits: `ok`, how many they are, and for each edit the
/// line that held it and a line for each change.
pub fn reply_batch(alloc: Global, line: u64, taken: &[Taken]) -> Result<Seq<u8>, NoMemory>
    ensures { IfOk result (λ bytes. bytes.items ≡ batch_text line taken.now) }
{
    let mut out = begun(alloc, line, b"ok ")?;
    put_count(&mut out, taken.len() as u64)?;
    out.extend(b"\n")?;
    for edit in taken {
        put_taken(&mut out, edit)?;
    }
    Ok(out)
}

fn put_taken(out: &mut Seq<u8>, taken: &Taken) -> Result<(), NoMemory>
    ensures { OnOk result (out.new.items ≡ out.old.items ++ taken_lines taken.now) }
{
    out.extend(b"  line ")?;
    put_count(out, taken.line)?;
    out.extend(b"\n")?;
    put_changes(out, &taken.changes)
}

/// The reply to a commit that made none of the held edits: `no batch`, the line that held the first
/// that is refused, and the cause, for a cycle with its steps.
pub fn reply_batch_no(
    alloc: Global,
    line: u64,
    held: u64,
    refusal: &Refusal,
) -> Result<Seq<u8>, NoMemory>
    ensures { IfOk result (λ bytes. bytes.items ≡ no_batch_text line held refusal.now) }
{
    let mut out = begun(alloc, line, b"no batch ")?;
    put_count(&mut out, held)?;
    out.extend(b"\n")?;
    put_cause(&mut out, refusal)?;
    Ok(out)
}

// Appends why an edit is refused.
fn put_cause(out: &mut Seq<u8>, refusal: &Refusal) -> Result<(), NoMemory>
    ensures { OnOk result (out.new.items ≡ out.old.items ++ cause_lines refusal.now) }
{
    match refusal {
        Refusal::LimitLine => out.extend(b"  limit line\n"),
        Refusal::Form => out.extend(b"  form\n"),
        Refusal::Taken(word) => put_word(out, b"  taken ", word),
        Refusal::Unknown(word) => put_word(out, b"  unknown ", word),
        Refusal::Sort(word) => put_word(out, b"  sort ", word),
        Refusal::LimitPremises => out.extend(b"  limit premises\n"),
        Refusal::LimitPoints => out.extend(b"  limit points\n"),
        Refusal::Cycle { sum, steps } => {
            out.extend(b"  cycle ")?;
            put_number(out, *sum)?;
            out.extend(b"\n")?;
            put_steps(out, b"    ", steps.items())
        }
        Refusal::LimitSize => out.extend(b"  limit size\n"),
    }
}

// Appends a cause that names a word of the edit.
fn put_word(out: &mut Seq<u8>, cause: &[u8], word: &QueryPoint) -> Result<(), NoMemory>
    ensures { OnOk result (out.new.items ≡ out.old.items ++ cause.now ++ query_word word.now ++ 10 ∷ []) }
{
    out.extend(cause)?;
    put_query(out, word)?;
    out.extend(b"\n")
}
