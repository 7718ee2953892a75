// Tokens that stand fast, and which of them are walls between another one and an event.
ghost use Rattle.std.specs.Prelude.{◌≡◌, true, false, List, IfOk, OnOk};
ghost use Rattle.std.specs.List.{Contains};
ghost use Rattle.tmm_model.specs.Points.{same_name};
ghost use Rattle.dist_net.specs.Net.{IsInUse};
ghost use Rattle.bearing.specs.declared.walls.FastToken.{FastToken};
ghost use Rattle.bearing.specs.Places.{net_at};
ghost use Rattle.bearing.specs.Shifts.{HasBegunBy, AreWallsBy, AreBehind, TokensHave};

use crate::lists::push;
use crate::places::{Place, is_surely_within};
use dist_net::DistNet;
use std::alloc::Global;
use tmm_model::{Name, NoMemory};

/// How many tokens are looked at behind another one.
pub(crate) const LIMIT: usize = 32;

/// A token that stands fast.
#[derive(Clone, Copy)]
pub struct FastToken {
    /// Where it begins.
    pub place: Place,
    /// Its fact.
    pub fact: Name,
}

// The first of the tokens that surely began or begin after the node at a place, no more than
// `LIMIT`.
pub(crate) fn tokens_behind(
    alloc: Global,
    net: &DistNet,
    before: bool,
    tokens: &[FastToken],
    place: &Place,
) -> Result<Vec<FastToken>, NoMemory>
    requires tokens { TokensHave (net_at net.now before) tokens.now }
    requires place { IsInUse (net_at net.now before).names place.now.base }
    ensures { IfOk result (λ behind. AreBehind (net_at net.now before) place.now tokens.now behind.items) }
{
    let mut behind = Vec::new(alloc);
    for i in 0..tokens.len() {
        note_behind(net, before, &tokens[i], place, &mut behind)?;
    }
    Ok(behind)
}

// Adds a token if it surely began or begins after the node at a place, and there is room.
fn note_behind(
    net: &DistNet,
    before: bool,
    token: &FastToken,
    place: &Place,
    behind: &mut Vec<FastToken>,
) -> Result<(), NoMemory>
    requires token { IsInUse (net_at net.now before).names token.now.place.base }
    requires place { IsInUse (net_at net.now before).names place.now.base }
    ensures { OnOk result ((tokens : List FastToken) → Contains tokens token.now → AreBehind (net_at net.now before) place.now tokens behind.old.items → AreBehind (net_at net.now before) place.now tokens behind.new.items) }
{
    if behind.len() >= LIMIT {
        return Ok(());
    }
    if !is_surely_within(net, before, &token.place, place, true) {
        return Ok(());
    }
    push(behind, *token)?;
    Ok(())
}

// Whether two of the tokens, of different facts, have surely begun by the event at a place.
pub(crate) fn are_walls(net: &DistNet, before: bool, tokens: &[FastToken], event: &Place) -> bool
    requires tokens { TokensHave (net_at net.now before) tokens.now }
    requires event { IsInUse (net_at net.now before).names event.now.base }
    ensures { result ≡ true → AreWallsBy (net_at net.now before) tokens.now event.now }
{
    for i in 0..tokens.len() {
        let token = &tokens[i];
        if is_surely_within(net, before, event, &token.place, false) {
            // of those before it none has begun
            return are_walls_beside(net, before, tokens, event, token, i + 1);
        }
    }
    false
}

// Whether one of the tokens from a place on, of another fact than this one, has surely begun by the
// event at a place, as this one has.
fn are_walls_beside(
    net: &DistNet,
    before: bool,
    tokens: &[FastToken],
    event: &Place,
    first: &FastToken,
    from: usize,
) -> bool
    requires tokens { TokensHave (net_at net.now before) tokens.now }
    requires event { IsInUse (net_at net.now before).names event.now.base }
    requires first { Contains tokens.now first.now }
    requires begun { HasBegunBy (net_at net.now before) event.now first.now }
    ensures { result ≡ true → AreWallsBy (net_at net.now before) tokens.now event.now }
{
    for i in from..tokens.len() {
        if has_begun_beside(net, before, &tokens[i], event, &first.fact) {
            return true;
        }
    }
    false
}

// Whether a token has surely begun by the event at a place, and is not of this fact.
fn has_begun_beside(
    net: &DistNet,
    before: bool,
    token: &FastToken,
    event: &Place,
    fact: &Name,
) -> bool
    requires token { IsInUse (net_at net.now before).names token.now.place.base }
    requires event { IsInUse (net_at net.now before).names event.now.base }
    ensures begun { result ≡ true → HasBegunBy (net_at net.now before) event.now token.now }
    ensures beside { result ≡ true → same_name token.now.fact fact.now ≡ false }
{
    if token.fact == *fact {
        return false;
    }
    is_surely_within(net, before, event, &token.place, false)
}
