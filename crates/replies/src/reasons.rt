// Lines of the reasons of a belief, each appended to the bytes of a reply.
ghost use Rattle.std.specs.Prelude.{◌≡◌, ◌++◌, [], ◌∷◌, OnOk};
ghost use Rattle.tmm_model.specs.Lines.{behind_spaces};
ghost use Rattle.tmm_model.specs.Points.{occ_word};
ghost use Rattle.tmm_model.specs.Replies.{line_of, unless_words, why_lines, with_words};

use crate::details::put_steps;
use crate::words::{put_number, put_occ, put_query};
use tmm_model::{Name, NoMemory, Occ, Seq, WhyLine};

/// Appends a line of reasons, with its steps.
pub fn put_reason(out: &mut Seq<u8>, reason: &WhyLine) -> Result<(), NoMemory>
    ensures { OnOk result (out.new.items ≡ out.old.items ++ why_lines reason.now) }
{
    match reason {
        WhyLine::Premise(name) => {
            out.extend(b"  premise ")?;
            out.extend(name.bytes())?;
            out.extend(b"\n")
        }
        WhyLine::Order {
            first,
            second,
            far,
            steps,
        } => {
            out.extend(b"  order ")?;
            put_query(out, first)?;
            out.extend(b" ")?;
            put_query(out, second)?;
            out.extend(b" ")?;
            put_number(out, *far)?;
            out.extend(b"\n")?;
            put_steps(out, b"    ", steps.items())
        }
        WhyLine::Derived {
            occ,
            rule,
            trigger,
            supports,
            unless_facts,
        } => {
            out.extend(b"  ")?;
            put_occ(out, occ)?;
            out.extend(b" by ")?;
            out.extend(rule.bytes())?;
            out.extend(b" on ")?;
            put_trigger(out, trigger, supports.items(), unless_facts.as_slice())
        }
    }
}

// A trigger, the tokens that support the antecedents and the exceptions, where there are any, and
// the line's end.
fn put_trigger(
    out: &mut Seq<u8>,
    trigger: &Occ,
    supports: &[Occ],
    exceptions: &[Name],
) -> Result<(), NoMemory>
    ensures { OnOk result (out.new.items ≡ out.old.items ++ line_of [] (occ_word trigger.now ∷ with_words supports.now ++ unless_words exceptions.now)) }
{
    put_occ(out, trigger)?;
    put_supports(out, supports)?;
    put_exceptions(out, exceptions)?;
    out.extend(b"\n")
}

fn put_exceptions(out: &mut Seq<u8>, exceptions: &[Name]) -> Result<(), NoMemory>
    ensures { OnOk result (out.new.items ≡ out.old.items ++ behind_spaces (unless_words exceptions.now)) }
{
    match exceptions {
        [] => Ok(()),
        [first, rest @ ..] => {
            out.extend(b" unless ")?;
            out.extend(first.bytes())?;
            for fact in rest {
                out.extend(b" ")?;
                out.extend(fact.bytes())?;
            }
            Ok(())
        }
    }
}

fn put_supports(out: &mut Seq<u8>, supports: &[Occ]) -> Result<(), NoMemory>
    ensures { OnOk result (out.new.items ≡ out.old.items ++ behind_spaces (with_words supports.now)) }
{
    match supports {
        [] => Ok(()),
        [first, rest @ ..] => {
            out.extend(b" with ")?;
            put_occ(out, first)?;
            for token in rest {
                out.extend(b" ")?;
                put_occ(out, token)?;
            }
            Ok(())
        }
    }
}
