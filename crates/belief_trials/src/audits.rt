//! The audit of right and of wrong rows.
ghost use Rattle.net_theory.specs.Fits.{IsNetOf};

use crate::premises::{Premises, let_through};
use just_check::audit;
use std::alloc::Global;
use std::test::Fail;
use tmm_model::{Name, NoMemory, Occ, Seq, Stop};

/// A push lights the lamp where the door is open; some time the door is shut.
const LAMP: &[&[u8]] = &[
    b"class door open shut",
    b"class lamp dark lit",
    b"kind push",
    b"rule r push 1 1 lit if open",
    b"token k open",
    b"dist z start k 0 0",
    b"token n dark",
    b"dist y start n 0 0",
    b"event e push",
    b"dist w start e 10 10",
    b"token m shut",
];

/// Rows by their letters, and whether they are those of the lamp: `r` and `q` are these rules on
/// `e`.
const CASES: &[(&[u8], bool)] = &[
    (b"kmner", true),
    (b"kmne", false),
    (b"kmnerr", false),
    (b"kmnre", false),
    (b"kmnerq", false),
    (b"kner", false),
    (b"mkner", false),
    (b"", false),
];

// A row by its letter.
fn row(alloc: Global, letter: u8) -> Result<Occ, NoMemory> {
    let mut rules = Seq::make(alloc);
    if !is_rule(letter) {
        let root = letter_name(letter);
        return Ok(Occ { root, rules });
    }
    match rules.push(letter_name(letter)) {
        Ok(()) => Ok(Occ {
            root: letter_name(b'e'),
            rules,
        }),
        Err(_) => Err(NoMemory),
    }
}

fn is_rule(letter: u8) -> bool {
    letter == b'r' || letter == b'q'
}

fn letter_name(letter: u8) -> Name {
    Name::of(&[letter]).unwrap_or_default()
}

// Rows by their letters.
fn rows(alloc: Global, letters: &[u8]) -> Result<Seq<Occ>, NoMemory> {
    let mut rows = Seq::make(alloc);
    for letter in letters {
        if rows.push(row(alloc, *letter)?).is_err() {
            return Err(NoMemory);
        }
    }
    Ok(rows)
}

// Whether the rows of these letters pass the audit.
fn is_passed(alloc: Global, premises: &Premises, letters: &[u8]) -> Result<bool, NoMemory>
    requires { IsNetOf premises.now.list.present premises.now.net.present }
{
    let rows = rows(alloc, letters)?;
    audit(alloc, &premises.list, &premises.net, rows.items())
}

// The letters of the first case that the audit judges wrong.
fn misjudged(alloc: Global, premises: &Premises) -> Result<Option<&'static [u8]>, Stop>
    requires { IsNetOf premises.now.list.present premises.now.net.present }
{
    for (letters, good) in CASES {
        match is_passed(alloc, premises, letters) {
            Ok(passed) if passed == *good => {}
            Ok(_) => return Ok(Some(letters)),
            Err(_) => return Err(Stop::NoMemory),
        }
    }
    Ok(None)
}

// The same, of the lamp's premises.
fn misjudged_of_lamp(alloc: Global) -> Result<Option<&'static [u8]>, Stop> {
    let premises = Premises::of(alloc, LAMP)?;
    misjudged(alloc, &premises)
}

#[test]
fn rows_are_audited(rt: HostRuntime) -> Result<(), Fail> {
    let letters = let_through(&rt, misjudged_of_lamp(rt.alloc()))?;
    assert!(rt; letters.is_none(), "{letters:?}");
    Ok(())
}
