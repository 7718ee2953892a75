// Numbers and bounds.
ghost use Rattle.std.specs.Prelude.{◌≡◌};
ghost use Rattle.tmm_model.specs.Lines.{number_word, bound_word, IsNumber, IsBound};
ghost use Rattle.tmm_grammar.specs.Reading.{number_of, natural_of, digits_on, negative as negative_of};
ghost use Rattle.tmm_words.specs.Spelling.{IsSpelling};

use tmm_model::{Bound, GREATEST_NUMBER};

/// The number that a word spells: `0`, or an optional `-` and digits whose first is not `0`, of at
/// most 1,000,000,000 in absolute value.
pub fn number(word: &[u8]) -> Option<i64>
    ensures { IsSpelling number_word IsNumber word.now result }
{
    signed(word)
}

/// The bound that a word spells: a number, or `*` for none.
pub fn bound(word: &[u8]) -> Option<Bound>
    ensures { IsSpelling bound_word IsBound word.now result }
{
    if word == b"*".as_slice() {
        Some(Bound::Free)
    } else {
        number(word).map(Bound::Finite)
    }
}

#[tactic(auto, unfolding(tmm_grammar::specs::Reading::number_of))]
fn signed(word: &[u8]) -> Option<i64>
    ensures { result ≡ number_of word.now }
{
    match word {
        [] => None,
        [b'-', digits @ ..] => negative(natural(digits)?),
        digits => Some(i64::from(natural(digits)?)),
    }
}

fn negative(n: u32) -> Option<i64>
    ensures { result ≡ negative_of n }
{
    if n == 0 { None } else { Some(-i64::from(n)) }
}

#[tactic(auto, unfolding(tmm_grammar::specs::Reading::natural_of))]
fn natural(word: &[u8]) -> Option<u32>
    ensures { result ≡ natural_of word.now }
{
    match word {
        [] => None,
        [b'0'] => Some(0),
        [b'0', ..] => None,
        digits => value(digits),
    }
}

fn value(digits: &[u8]) -> Option<u32>
    ensures { result ≡ digits_on 0 digits.now }
{
    let mut value = 0;
    for b in digits {
        if !b.is_ascii_digit() {
            return None;
        }
        let next = value as u64 * 10 + u64::from(*b - b'0');
        if next > GREATEST_NUMBER as u64 {
            return None;
        }
        value = next as u32;
    }
    Some(value)
}
