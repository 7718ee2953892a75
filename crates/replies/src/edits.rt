// Replies to edits, and refusals.
ghost use Rattle.std.specs.Prelude.{◌≡◌, ◌++◌, IfOk, decimal, [], ◌∷◌};
ghost use Rattle.tmm_model.specs.Points.{query_word};
ghost use Rattle.tmm_model.specs.Replies.{text_of, Accepted, Refused};

use crate::details::{put_changes, put_steps};
use crate::words::{begun, put_number, put_query};
use std::alloc::Global;
use tmm_model::{Changes, NoMemory, QueryPoint, Refusal, Seq};

/// The reply to an accepted edit: `ok`, and a line for each change.
pub fn reply_ok(alloc: Global, line: u64, changes: &Changes) -> Result<Seq<u8>, NoMemory>
    ensures { IfOk result (λ bytes. bytes.items ≡ text_of line (Accepted changes.now)) }
{
    let mut out = begun(alloc, line, b"ok\n")?;
    put_changes(&mut out, changes)?;
    Ok(out)
}

/// The reply to a refused line: `no` and the cause, and for a cycle its steps.
pub fn reply_no(alloc: Global, line: u64, refusal: &Refusal) -> Result<Seq<u8>, NoMemory>
    ensures { IfOk result (λ bytes. bytes.items ≡ text_of line (Refused refusal.now)) }
{
    match refusal {
        Refusal::LimitLine => begun(alloc, line, b"no limit line\n"),
        Refusal::Form => begun(alloc, line, b"no form\n"),
        Refusal::Taken(word) => no_word(alloc, line, b"no taken ", word),
        Refusal::Unknown(word) => no_word(alloc, line, b"no unknown ", word),
        Refusal::Sort(word) => no_word(alloc, line, b"no sort ", word),
        Refusal::LimitPremises => begun(alloc, line, b"no limit premises\n"),
        Refusal::LimitPoints => begun(alloc, line, b"no limit points\n"),
        Refusal::Cycle { sum, steps } => {
            let mut out = begun(alloc, line, b"no cycle ")?;
            put_number(&mut out, *sum)?;
            out.extend(b"\n")?;
            put_steps(&mut out, b"  ", steps.items())?;
            Ok(out)
        }
        Refusal::LimitSize => begun(alloc, line, b"no limit size\n"),
    }
}

fn no_word(alloc: Global, line: u64, cause: &[u8], word: &QueryPoint) -> Result<Seq<u8>, NoMemory>
    ensures { IfOk result (λ bytes. bytes.items ≡ decimal line ++ (32 ∷ cause.now) ++ query_word word.now ++ 10 ∷ []) }
{
    let mut out = begun(alloc, line, cause)?;
    put_query(&mut out, word)?;
    out.extend(b"\n")?;
    Ok(out)
}
