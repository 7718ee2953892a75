// The line of a premise.
ghost use Rattle.std.specs.Prelude.{◌≡◌, ◌∷◌, ◌++◌, map, OnOk, OnErr};
ghost use Rattle.tmm_model.specs.Points.{point_word};
ghost use Rattle.tmm_model.specs.Lines.{number_word, bound_word, behind_spaces, facts_words, shown, shown_text};
ghost use Rattle.tmm_model.specs.declared.bound.Bound.TheVariants.{Free};
ghost use Rattle.tmm_script.specs.declared.print.Field.TheVariants.{Bound as BoundField};
ghost use Rattle.tmm_script.specs.Printed.{field_word, first_word, head_words, conditions_words, tail_words, AppendsFront};

use arrayvec::ArrayVec;
use itoa::Buffer;
use std::alloc::Global;
use tmm_model::{
    Bound, MOST_ANTECEDENTS, MOST_EXCEPTIONS, Name, NoMemory, PointName, Premise, Seq,
};

/// Appends the words that declare a premise, parted by one space. The line reads as the premise in
/// each version in which it is well formed. Without memory a front of the text may have been
/// appended.
pub fn print_premise(_alloc: Global, premise: &Premise, out: &mut Seq<u8>) -> Result<(), NoMemory>
    ensures ok { OnOk result (out.new.items ≡ out.old.items ++ shown_text premise.now) }
    ensures err { OnErr result (AppendsFront out.old.items out.new.items (shown_text premise.now)) }
{
    out.extend(keyword(premise))?;
    put_fields(out, fields(premise).as_slice())?;
    put_facts(out, premise)
}

// A word behind the first one.
#[derive(Clone, Copy)]
enum Field {
    Name(Name),
    Point(PointName),
    Bound(Bound),
}

impl Default for Field {
    ghost is_default = { λ field. field ≡ BoundField Free };

    fn default() -> Field {
        Field::Bound(Bound::Free)
    }
}

fn keyword(premise: &Premise) -> &'static [u8]
    ensures { result.now ≡ first_word (shown premise.now) }
{
    match premise {
        Premise::Class { .. } => b"class",
        Premise::Kind { .. } => b"kind",
        Premise::Point { .. } => b"point",
        Premise::Event { .. } => b"event",
        Premise::Token { .. } => b"token",
        Premise::Span { .. } => b"span",
        Premise::Dist { .. } => b"dist",
        Premise::Rule { .. } => b"rule",
        Premise::Protect { .. } => b"protect",
        Premise::Against { .. } => b"against",
    }
}

// The words behind the keyword, but for a class's facts and what follows a rule's effect.
fn fields(premise: &Premise) -> ArrayVec<Field, 5>
    ensures { map field_word result.items ≡ head_words premise.now }
{
    let mut fields = ArrayVec::new();
    match premise {
        Premise::Class { name, .. } | Premise::Kind { name } | Premise::Point { name } => {
            fields.push(Field::Name(*name));
        }
        Premise::Event { name, kind: what }
        | Premise::Token { name, fact: what }
        | Premise::Span { name, fact: what } => {
            fields.push(Field::Name(*name));
            fields.push(Field::Name(*what));
        }
        Premise::Dist {
            name,
            from,
            to,
            lo,
            hi,
        } => {
            fields.push(Field::Name(*name));
            fields.push(Field::Point(*from));
            fields.push(Field::Point(*to));
            fields.push(Field::Bound(*lo));
            fields.push(Field::Bound(*hi));
        }
        Premise::Rule {
            name,
            trigger,
            lo,
            hi,
            effect,
            ..
        } => {
            fields.push(Field::Name(*name));
            fields.push(Field::Name(*trigger));
            fields.push(Field::Bound(Bound::Finite(*lo)));
            fields.push(Field::Bound(*hi));
            fields.push(Field::Name(*effect));
        }
        Premise::Protect {
            name,
            fact,
            from,
            to,
        } => {
            fields.push(Field::Name(*name));
            fields.push(Field::Name(*fact));
            fields.push(Field::Point(*from));
            fields.push(Field::Point(*to));
        }
        Premise::Against { name, one, other } => {
            fields.push(Field::Name(*name));
            fields.push(Field::Name(*one));
            fields.push(Field::Name(*other));
        }
    }
    fields
}

// The facts of a class, or the antecedents and exceptions of a rule.
fn put_facts(out: &mut Seq<u8>, premise: &Premise) -> Result<(), NoMemory>
    ensures ok { OnOk result (out.new.items ≡ out.old.items ++ behind_spaces (tail_words premise.now)) }
    ensures err { OnErr result (AppendsFront out.old.items out.new.items (behind_spaces (tail_words premise.now))) }
{
    match premise {
        Premise::Class { facts, .. } => put_names(out, facts.as_slice()),
        Premise::Rule {
            given,
            unless_facts,
            ..
        } => put_conditions(out, given, unless_facts),
        _ => Ok(()),
    }
}

// Antecedents, and then exceptions.
fn put_conditions(
    out: &mut Seq<u8>,
    given: &ArrayVec<Name, MOST_ANTECEDENTS>,
    exceptions: &ArrayVec<Name, MOST_EXCEPTIONS>,
) -> Result<(), NoMemory>
    ensures ok { OnOk result (out.new.items ≡ out.old.items ++ behind_spaces (conditions_words given.now.items exceptions.now.items)) }
    ensures err { OnErr result (AppendsFront out.old.items out.new.items (behind_spaces (conditions_words given.now.items exceptions.now.items))) }
{
    put_behind(out, b"if", given.as_slice())?;
    put_behind(out, b"unless", exceptions.as_slice())
}

// Facts behind a word, and nothing where there are none.
fn put_behind(out: &mut Seq<u8>, word: &[u8], facts: &[Name]) -> Result<(), NoMemory>
    ensures ok { OnOk result (out.new.items ≡ out.old.items ++ behind_spaces (facts_words word.now facts.now)) }
    ensures err { OnErr result (AppendsFront out.old.items out.new.items (behind_spaces (facts_words word.now facts.now))) }
{
    if facts.is_empty() {
        return Ok(());
    }
    out.extend(b" ")?;
    out.extend(word)?;
    put_names(out, facts)
}

fn put_names(out: &mut Seq<u8>, names: &[Name]) -> Result<(), NoMemory>
    ensures ok { OnOk result (out.new.items ≡ out.old.items ++ behind_spaces names.now) }
    ensures err { OnErr result (AppendsFront out.old.items out.new.items (behind_spaces names.now)) }
{
    for name in names {
        put_field(out, &Field::Name(*name))?;
    }
    Ok(())
}

// Each word behind a space.
fn put_fields(out: &mut Seq<u8>, fields: &[Field]) -> Result<(), NoMemory>
    ensures ok { OnOk result (out.new.items ≡ out.old.items ++ behind_spaces (map field_word fields.now)) }
    ensures err { OnErr result (AppendsFront out.old.items out.new.items (behind_spaces (map field_word fields.now))) }
{
    for field in fields {
        put_field(out, field)?;
    }
    Ok(())
}

fn put_field(out: &mut Seq<u8>, field: &Field) -> Result<(), NoMemory>
    ensures ok { OnOk result (out.new.items ≡ out.old.items ++ 32 ∷ field_word field.now) }
    ensures err { OnErr result (AppendsFront out.old.items out.new.items (32 ∷ field_word field.now)) }
{
    out.extend(b" ")?;
    match field {
        Field::Name(name) => out.extend(name.bytes()),
        Field::Point(point) => put_point(out, point),
        Field::Bound(Bound::Finite(number)) => put_number(out, *number),
        Field::Bound(Bound::Free) => out.extend(b"*"),
    }
}

fn put_point(out: &mut Seq<u8>, point: &PointName) -> Result<(), NoMemory>
    ensures ok { OnOk result (out.new.items ≡ out.old.items ++ point_word point.now) }
    ensures err { OnErr result (AppendsFront out.old.items out.new.items (point_word point.now)) }
{
    match point {
        PointName::Start => out.extend(b"start"),
        PointName::Begin(name) => out.extend(name.bytes()),
        PointName::End(name) => {
            out.extend(name.bytes())?;
            out.extend(b".end")
        }
    }
}

fn put_number(out: &mut Seq<u8>, number: i64) -> Result<(), NoMemory>
    ensures ok { OnOk result (out.new.items ≡ out.old.items ++ number_word number) }
    ensures err { OnErr result (out.new.items ≡ out.old.items) }
{
    let mut buffer = Buffer::new();
    out.extend(buffer.format(number).as_bytes())
}
