// Names of a script.
ghost use Rattle.std.specs.Prelude.{◌≡◌, ◌+◌, ◌*◌, ◌-◌, ◌<◌, ◌≤◌, ℕ, List, [], ◌∷◌, ◌++◌, take, drop, replicate, length, IsTrue, IsSome, IfSome, IsNone, OnOk, OnErr, ◌↔◌, nat_eq, refl};
ghost use Rattle.std.specs.Int.{w64, from_le_bytes, to_le_bytes};
ghost use Rattle.std.specs.List.{list_all};
ghost use Rattle.std.specs.Ordering.{nat_cmp, as_partial_cmp};
ghost use Rattle.std.specs.Cmp.{partial_equiv_from_equiv, partial_order_from_agreeing_total, unsigned_ties};
ghost use Rattle.std.specs.Cmp.Rules.{hashing};
ghost use Rattle.std.proofs.Common.{rules};
ghost use Rattle.std.specs.Cmp.Lexicographic.{slice_cmp, pointwise, nat_list_cmp_total, nat_list_eq_equiv, lists_ties};
ghost use Rattle.tmm_model.specs.Points.{slashed};
ghost use Rattle.tmm_model.specs.Names.{is_letter, is_name_byte, is_name as is_name_of};

use crate::limits::LONGEST_NAME;
use crate::memory::NoMemory;
use std::cmp::Ordering;
use std::hash::{Hash, Hasher};
use std::marker::Model;

/// A name: 1 to 24 bytes, a letter first, then letters, digits, `_` or `-`. Names are ordered by
/// their bytes.
#[derive(Clone, Copy, Debug)]
pub struct Name {
    // the bytes, and zeros behind them
    bytes: [u8; LONGEST_NAME],
    len: u8,
}

impl Model for Name {
    ghost use Rattle.std.specs.Prelude.{ℕ, List, ◌++◌, ◌-◌, take, replicate, length};
    ghost use Rattle.tmm_model.specs.Types.{IsPadded, append-padded, length-padded};

    ghost Value = { List ℕ };

    ghost view = { λ n. take n.len n.bytes };

    ghost invariant = { λ n. IsPadded n.bytes n.len };

    ghost inverse = { λ bs. record { bytes = bs ++ replicate (24 - length bs) 0; len = length bs } };

    ghost inverse_ok = { λ a h. λ i. record { bytes = append-padded a.bytes a.len h i; len = length-padded a.bytes a.len h i } };
}

impl Name {
    /// The name with these bytes, or none where they are no name.
    pub fn of(bytes: &[u8]) -> Option<Name>
        ensures some { IsSome result ↔ IsTrue (is_name_of bytes.now) }
        ensures value { IfSome result (λ name. name ≡ bytes.now) }
    {
        if is_name(bytes) {
            Some(padded(bytes))
        } else {
            None
        }
    }

    /// Its bytes.
    pub fn bytes(&self) -> &[u8]
        ensures value { result.now ≡ self.now }
    {
        &self.bytes[..self.len as usize]
    }
}

// Appends the names, each behind a `/`. Without memory the bytes stay. There is room first for the
// longest names, so that each is written in one copy of its padded bytes.
pub(crate) fn append_links(names: &[Name], out: &mut Vec<u8>) -> Result<(), NoMemory>
    ensures ok { OnOk result (out.new.items ≡ out.old.items ++ slashed names.now) }
    ensures err { OnErr result (out.new.items ≡ out.old.items) }
{
    let before = out.as_slice().len();
    let Some(most) = names.len().checked_mul(LONGEST_NAME + 1) else {
        return Err(NoMemory);
    };
    let Some(room) = before.checked_add(most) else {
        return Err(NoMemory);
    };
    if out.resize(room, 0).is_err() {
        return Err(NoMemory);
    }
    let end = write_links(names, out.as_mut_slice(), before);
    out.truncate(end);
    Ok(())
}

// Writes the names from a place on, each behind a `/`, and answers where they end.
fn write_links(names: &[Name], out: &mut [u8], from: usize) -> usize
    requires { from + length names.now * 25 ≤ length out.old }
    ensures size { length out.new ≡ length out.old }
    ensures written { take result out.new ≡ take from out.old ++ slashed names.now }
{
    let mut at = from;
    for name in names {
        at = write_link(name, out, at);
    }
    at
}

// Writes a name behind a `/` at a place, and answers where it ends.
fn write_link(name: &Name, out: &mut [u8], at: usize) -> usize
    requires { at + 25 ≤ length out.old }
    ensures size { length out.new ≡ length out.old }
    ensures within { result ≤ at + 25 }
    ensures written { take result out.new ≡ take at out.old ++ 47 ∷ name.now }
{
    out[at] = b'/';
    out[at + 1..at + 25].copy_from_slice(&name.bytes);
    at + 1 + name.len as usize
}

fn is_name(bytes: &[u8]) -> bool
    ensures { result ≡ is_name_of bytes.now }
{
    match bytes {
        [] => false,
        [first, rest @ ..] => letter(*first) && all_name_bytes(rest) && rest.len() < LONGEST_NAME,
    }
}

fn all_name_bytes(bytes: &[u8]) -> bool
    ensures { result ≡ list_all is_name_byte bytes.now }
{
    bytes.iter().all(|b| name_byte(*b))
}

fn padded(bytes: &[u8]) -> Name
    requires { length bytes.now ≤ 24 }
    ensures { result ≡ bytes.now }
{
    let mut padded = [0; LONGEST_NAME];
    padded[..bytes.len()].copy_from_slice(bytes);
    Name {
        bytes: padded,
        len: bytes.len() as u8,
    }
}

fn letter(b: u8) -> bool
    ensures { result ≡ is_letter b }
{
    b.is_ascii_alphabetic()
}

fn name_byte(b: u8) -> bool
    ensures { result ≡ is_name_byte b }
{
    letter(b) || b.is_ascii_digit() || b == b'_' || b == b'-'
}

// `==` at an array would scan it by a call.
#[inline]
fn same_bytes(a: &[u8; LONGEST_NAME], b: &[u8; LONGEST_NAME]) -> bool
    ensures { result ≡ pointwise nat_eq a.now b.now }
{
    word(a, 0) == word(b, 0) && word(a, 8) == word(b, 8) && word(a, 16) == word(b, 16)
}

// Eight bytes as a number, the first the lowest. LLVM makes one load of it.
#[inline]
fn word(bytes: &[u8; LONGEST_NAME], at: usize) -> u64
    requires { at ≤ 16 }
    ensures value { result ≡ from_le_bytes w64 (take 8 (drop at bytes.now)) }
    ensures bytes { to_le_bytes w64 result ≡ take 8 (drop at bytes.now) }
{
    u64::from_le_bytes([
        bytes[at],
        bytes[at + 1],
        bytes[at + 2],
        bytes[at + 3],
        bytes[at + 4],
        bytes[at + 5],
        bytes[at + 6],
        bytes[at + 7],
    ])
}

/// The name `a`.
impl Default for Name {
    ghost use Rattle.std.specs.Prelude.{◌≡◌, codes};

    ghost is_default = { λ name. name ≡ codes "a" };

    fn default() -> Name {
        padded(b"a")
    }
}

impl PartialEq for Name {
    ghost eq = { pointwise nat_eq };

    ghost laws = { partial_equiv_from_equiv nat_list_eq_equiv };

    fn eq(&self, other: &Name) -> bool {
        self.len == other.len && same_bytes(&self.bytes, &other.bytes)
    }
}

impl Eq for Name {
    ghost laws = { nat_list_eq_equiv };
}

impl PartialOrd for Name {
    ghost partial_cmp = { as_partial_cmp (slice_cmp nat_cmp) };

    ghost laws = { partial_order_from_agreeing_total (slice_cmp nat_cmp) nat_list_cmp_total (λ a b. refl) (lists_ties nat_cmp unsigned_ties) };

    fn partial_cmp(&self, other: &Name) -> Option<Ordering> {
        Some(self.cmp(other))
    }
}

impl Ord for Name {
    ghost cmp = { slice_cmp nat_cmp };

    ghost total = { nat_list_cmp_total };

    ghost matches_partial_cmp = { λ a b. refl };

    ghost matches_eq = { lists_ties nat_cmp unsigned_ties };

    fn cmp(&self, other: &Name) -> Ordering {
        self.bytes().cmp(other.bytes())
    }
}

/// The bytes are fed to the hash at once.
impl Hash for Name {
    ghost hash_input = { λ name. name ∷ [] };

    ghost respects_eq = { Prim.search (hashing, rules) };

    fn hash<H: Hasher>(&self, state: &mut H) {
        state.write(self.bytes());
    }
}
