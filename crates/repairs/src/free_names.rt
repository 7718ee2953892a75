// The name of a constraint that a repair adds.
ghost use Rattle.std.specs.Prelude.{◌≡◌, ◌≤◌, length};
ghost use Rattle.tmm_model.specs.Lines.{IsName};
ghost use Rattle.tmm_model.specs.Sorts.{declared_by};
ghost use Rattle.tmm_model.specs.Verdicts.{words_known};
ghost use Rattle.repairs.specs.Repairs.{IsFreeName, is_declared, repair_name};

use arrayvec::ArrayVec;
use itoa::Buffer;
use premise_list::Standing;
use tmm_model::{Name, Premise};

/// The first of the names `repair-0`, `repair-1` and so on that the list does not declare. It takes
/// no memory.
pub fn free_name(standing: &Standing) -> Name
    ensures free { IsFreeName standing.now.present result }
    ensures named { IsName result }
{
    // among so many names and one more one is free
    let words = word_count(standing);
    let mut number = 0;
    while number < words && is_declared(standing, repair_name(number)) {
        number += 1;
    }
    repair_name(number)
}

// Whether the list declares the name, for a premise or for a fact.
fn is_declared(standing: &Standing, name: Name) -> bool
    ensures { result ≡ is_declared standing.now.present name }
{
    standing.get(name).is_some() || standing.class_of(name).is_some()
}

// How many names the list declares.
fn word_count(standing: &Standing) -> usize
    ensures value { result ≡ length (words_known standing.now.present.premises) }
    ensures few { result ≤ 18000 }
{
    let mut count = 0;
    for place in 0..standing.len() {
        if let Some(premise) = standing.at(place) {
            count += declared_count(premise);
        }
    }
    count
}

fn declared_count(premise: &Premise) -> usize
    ensures value { result ≡ length (declared_by premise.now) }
    ensures few { result ≤ 9 }
{
    match premise {
        Premise::Class { facts, .. } => 1 + facts.as_slice().len(),
        _ => 1,
    }
}

fn repair_name(number: usize) -> Name
    requires { number ≤ 18000 }
    ensures value { result ≡ repair_name number }
    ensures named { IsName result }
{
    match Name::of(repair_bytes(number).as_slice()) {
        Some(name) => name,
        None => unreachable!(),
    }
}

// `repair-`, and at most 20 digits.
fn repair_bytes(number: usize) -> ArrayVec<u8, 27>
    ensures { result.items ≡ repair_name number }
{
    let mut digits = Buffer::new();
    let mut bytes = ArrayVec::new();
    let _fits = bytes.try_extend_from_slice(b"repair-");
    let _fits = bytes.try_extend_from_slice(digits.format(number).as_bytes());
    bytes
}
