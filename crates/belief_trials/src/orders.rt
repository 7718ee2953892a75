//! The tokens of a class stay in their order as their event moves, goes and comes back.
ghost use Rattle.std.specs.Prelude.{IfOk};
ghost use Rattle.net_theory.specs.Fits.{IsNetOf};
ghost use Rattle.list_net.specs.Settled.{NothingPending};
ghost use Rattle.occ_tree.specs.Places.{forest};
ghost use Rattle.spots.specs.OfLists.{HasList};

use crate::names::name;
use crate::premises::{Premises, let_through};
use dist_net::DistNet;
use occ_tree::Tree;
use projection::{Counter, rebuild};
use spots::Spot;
use std::alloc::Global;
use std::process::Abort;
use std::test::Fail;
use tmm_model::{Name, NoMemory, Occ, Seq, Stop, TokenRow};

/// Two presses, the second 15 time units after the first.
const PRESSES: &[&[u8]] = &[
    b"class lamp lit",
    b"kind press",
    b"event first press",
    b"dist early start first 5 90",
    b"event second press",
    b"dist late start second 20 20",
];

/// Now the first is 30 time units after the second.
const MOVE: &[u8] = b"dist moved start first 50 90";

/// How many rules lead from each press to a token.
const RULES: usize = 150;

// The line of a rule with a name of its own for each number below 1000.
fn rule_line(number: usize) -> [u8; 23] {
    let mut line = *b"rule t000 press 1 1 lit";
    line[6] = digit(number / 100);
    line[7] = digit(number / 10);
    line[8] = digit(number);
    line
}

// The last digit of a number.
fn digit(number: usize) -> u8 {
    b'0' + (number % 10) as u8
}

// The presses, and the rules in another order than that of their names.
fn with_rules(alloc: Global) -> Result<Premises, Stop>
    ensures network { IfOk result (λ made. IsNetOf made.list.present made.net.present) }
    ensures settled { IfOk result (λ made. NothingPending made.list made.net) }
{
    let mut premises = Premises::of(alloc, PRESSES)?;
    for i in 0..RULES {
        premises.add(alloc, rule_line(i * 7 % RULES).as_slice())?;
    }
    Ok(premises)
}

// The tree of all that is believed before the first press moves, with the network after it.
fn before_move(alloc: Global, premises: &mut Premises) -> Result<Tree, Stop>
    requires network { IsNetOf premises.old.list.present premises.old.net.present }
    requires settled { NothingPending premises.old.list premises.old.net }
    ensures { IfOk result (λ tree. HasList premises.new.net.present (forest tree)) }
{
    let mut counter = Counter::zero();
    let mut tree = rebuild(alloc, &premises.list, &premises.net, &mut counter)?.tree;
    tree.commit();
    premises.constrain(alloc, MOVE)?;
    Ok(tree)
}

// Checks that there are so many tokens of a class in the order of nodes, and that the first is of
// this root.
fn check_order(rt: &impl Abort, tree: &Tree, class: &Name, count: usize, root: u32) {
    let rows = tree.tokens(class);
    assert_eq!(rt; rows.len(), count);
    for i in 1..rows.len() {
        assert!(rt; is_before(tree, rows[i - 1].spot, rows[i].spot));
    }
    assert_eq!(rt; first_root(tree, rows), Some(root));
}

fn is_before(tree: &Tree, first: Spot, second: Spot) -> bool {
    match (first, second) {
        (Spot::Node(x), Spot::Node(y)) => {
            tree.is_live(x) && tree.is_live(y) && tree.cmp_order(x, y).is_lt()
        }
        _ => false,
    }
}

// The number of the root of the first token.
fn first_root(tree: &Tree, rows: &[TokenRow<Spot>]) -> Option<u32> {
    match rows.first()?.spot {
        Spot::Node(x) if tree.is_live(x) => Some(tree.row(x).root),
        _ => None,
    }
}

// The number of what is declared by this name.
fn declared(rt: &impl Abort, alloc: Global, tree: &Tree, word: &str) -> u32 {
    let occ = Occ {
        root: name(word),
        rules: Seq::make(alloc),
    };
    match tree.find(&occ) {
        Some(x) => x,
        None => panic!(rt; "nothing of this name is there"),
    }
}

// The tokens of the first press follow it to a date behind the second and out of the tree, and are
// back after a rollback.
fn tokens_follow(
    rt: &impl Abort,
    alloc: Global,
    tree: &mut Tree,
    net: &DistNet,
) -> Result<(), NoMemory>
    requires { HasList net.now.present (forest tree.old) }
{
    let lamp = name("lamp");
    let first = declared(rt, alloc, tree, "first");
    let second = declared(rt, alloc, tree, "second");
    check_order(rt, tree, &lamp, 2 * RULES, first);
    tree.re_date_all(alloc, net)?;
    check_order(rt, tree, &lamp, 2 * RULES, second);
    tree.rollback();
    check_order(rt, tree, &lamp, 2 * RULES, first);
    assert!(rt; tree.is_live(first));
    tree.withdraw(alloc, first)?;
    check_order(rt, tree, &lamp, RULES, second);
    tree.rollback();
    check_order(rt, tree, &lamp, 2 * RULES, first);
    Ok(())
}

// The same from the premises on.
fn presses_move(rt: &impl Abort, alloc: Global) -> Result<(), Stop> {
    let mut premises = with_rules(alloc)?;
    let mut tree = before_move(alloc, &mut premises)?;
    match tokens_follow(rt, alloc, &mut tree, &premises.net) {
        Ok(()) => Ok(()),
        Err(_) => Err(Stop::NoMemory),
    }
}

#[test]
fn the_tokens_of_an_event_stay_in_order(rt: HostRuntime) -> Result<(), Fail> {
    let_through(&rt, presses_move(&rt, rt.alloc()))
}
