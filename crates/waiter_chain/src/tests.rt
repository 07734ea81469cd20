//! The words of a chain of four nodes, step by step.
ghost use Rattle.std.specs.Prelude.{◌≡◌, ◌<◌, ◌≤◌, None};
ghost use Rattle.waiter_chain.specs.Calls.{Won, IsIdle, IsBehind, WaitsBehind, PolledAs};
ghost use Rattle.waiter_chain.specs.declared.view.StepEntry.{StepEntry};

use crate::chain::{Chain, ChainPass};
use crate::freight::Freight;
use crate::runs::OwnRuns;
use crate::turn::{Entered, Follow, Kind, Polled, Turn};
use std::process::Abort;
use std::test::Fail;

/// A freight whose jobs are posted and never run: whatever stands in the slots is lawful.
#[derive(Drop)]
struct Mark {
    sign: u64,
}

impl Freight for Mark {
    ghost relates = { λ v j a w. ⊥ };

    ghost admits = { λ v q. Unit {0} };

    ghost is_job = { λ v. Unit {0} };

    ghost rule = { λ o g. Unit {0} };

    ghost opens = { λ o small good. tt };

    ghost posts = { λ o g i q n xs job r low me good empty unanswered. tt };

    ghost ends = { λ o g i n before after xs ran w r low me runs pays unanswered. tt };

    ghost serves = { λ o g n job answer w r low filled unanswered related. tt };

    ghost collects = { λ o g i q n xs job answer r low me filled. tt };

    ghost cuts = { λ o g i n m q r xs s me. tt };

    ghost merges = { λ o g i j n m q r xs ys s empty apart me them. tt };
}

// The owner goes on, and makes the next node the owner, where one waits: this one.
fn pass_on(chain: &Chain<Mark>, pass: &mut ChainPass<Mark>, turn: Turn) -> Option<u64>
    requires own { pass.old.seat.table_id ≡ chain.now.table.shared.table_id }
    requires won { (m : _) × (e : StepEntry) × Won (λ g. Unit {0}) chain.now.table.shared.table_id.slots turn m e pass.old.seat.me }
    ensures own { (pass.new.seat.table_id ≡ pass.old.seat.table_id) × IsIdle pass.new.seat.me }
{
    let none = OwnRuns::<Mark>::new();
    match chain.next(pass, turn, &none) {
        Follow::Free => None,
        Follow::Waits { turn, node } => {
            chain.grant(pass, turn, &none);
            Some(node)
        }
    }
}

// A pass that waits with no job loads its own status.
fn poll_plain(chain: &Chain<Mark>, pass: &mut ChainPass<Mark>) -> Polled
    requires own { pass.old.seat.table_id ≡ chain.now.table.shared.table_id }
    requires behind { IsBehind pass.old.behind pass.old.seat.me }
    ensures own { (pass.new.seat.table_id ≡ pass.old.seat.table_id) × (pass.new.seat.id ≡ pass.old.seat.id) × (pass.new.behind ≡ pass.old.behind) }
    ensures answer { PolledAs (λ g. Unit {0}) chain.now.table.shared.table_id.slots pass.old.behind None pass.old.seat.me pass.new.seat.me result }
{
    chain.poll(pass)
}

fn central(chain: &Chain<Mark>) -> u64 {
    chain.table.shared.peek(0)
}

fn status(chain: &Chain<Mark>, node: u64) -> u64
    requires { node < chain.now.nodes }
{
    chain.table.shared.peek(1 + 2 * node as usize)
}

fn link(chain: &Chain<Mark>, node: u64) -> u64
    requires { node < chain.now.nodes }
{
    chain.table.shared.peek(2 + 2 * node as usize)
}

// A pass posts a job behind another pass, and has not said yet whom it is behind.
fn enter_with_job<A: Abort>(rt: &A, chain: &Chain<Mark>, pass: &mut ChainPass<Mark>)
    requires own { pass.old.seat.table_id ≡ chain.now.table.shared.table_id }
    requires idle { IsIdle pass.old.seat.me }
    requires quota { 1 ≤ pass.old.seat.me.0.quota }
    ensures own { pass.new.seat.table_id ≡ pass.old.seat.table_id }
    ensures waits { WaitsBehind pass.new.behind pass.new.seat.me }
{
    let slot = 1 + 2 * pass.number();
    chain.hold(pass);
    let _empty = chain.move_slot(pass, slot, Some(Mark { sign: 0 }));
    match chain.enter(pass, Kind::WithJob) {
        Entered::Owner(_turn) => panic!(rt; "the lock was free"),
        Entered::Behind => {}
    }
}

#[test]
fn waiters_are_granted_in_turn(rt: HostRuntime) -> Result<(), Fail> {
    let (chain, mut zero) = Chain::make(rt.alloc(), 4, 0, 64, Mark { sign: 7 })?;
    let mut three = chain.split(&mut zero, 1, 0);
    let mut two = chain.split(&mut zero, 1, 0);
    let mut one = chain.split(&mut zero, 1, 0);
    assert!(rt;
        zero.number() == 0 && one.number() == 1 && two.number() == 2 && three.number() == 3
    );
    assert!(rt; zero.spare() == 0 && chain.combine() == 64 && central(&chain) == 0);

    // Node 0 takes the free lock by one exchange, and node 1 finds it taken.
    let turn = match chain.try_in(&mut zero) {
        Ok(turn) => turn,
        Err(_busy) => panic!(rt; "the lock was taken"),
    };
    assert!(rt; turn.is_empty() && central(&chain) == 1);
    match chain.try_in(&mut one) {
        Ok(_turn) => panic!(rt; "two owners"),
        Err(busy) => assert!(rt; busy.word == 1),
    }

    // Nodes 1, 2, 3 enter in this order and wait.
    match chain.enter(&mut one, Kind::Plain) {
        Entered::Owner(_turn) => panic!(rt; "node 1 owns the lock"),
        Entered::Behind => assert!(rt; central(&chain) == 3),
    }
    match chain.enter(&mut two, Kind::Plain) {
        Entered::Owner(_turn) => panic!(rt; "node 2 owns the lock"),
        Entered::Behind => assert!(rt; central(&chain) == 4),
    }
    match chain.enter(&mut three, Kind::Plain) {
        Entered::Owner(_turn) => panic!(rt; "node 3 owns the lock"),
        Entered::Behind => assert!(rt; central(&chain) == 5),
    }
    match poll_plain(&chain, &mut one) {
        Polled::Owner(_turn) => panic!(rt; "node 1 was granted"),
        Polled::Done => panic!(rt; "node 1 has no job"),
        Polled::Still { word } => assert!(rt; word == 1),
    }
    match poll_plain(&chain, &mut two) {
        Polled::Owner(_turn) => panic!(rt; "node 2 was granted"),
        Polled::Done => panic!(rt; "node 2 has no job"),
        Polled::Still { word } => assert!(rt; word == 1),
    }
    match poll_plain(&chain, &mut three) {
        Polled::Owner(_turn) => panic!(rt; "node 3 was granted"),
        Polled::Done => panic!(rt; "node 3 has no job"),
        Polled::Still { word } => assert!(rt; word == 1),
    }

    // Node 0 takes the chain and makes node 3 the owner: its status is 4 and the end of its chain, 1.
    assert!(rt; pass_on(&chain, &mut zero, turn) == Some(3));
    assert!(rt; chain.table.shared.peek(7) == 5 && central(&chain) == 1);
    match poll_plain(&chain, &mut three) {
        Polled::Still { word: _ } => panic!(rt; "node 3 still waits"),
        Polled::Done => panic!(rt; "node 3 has no job"),
        Polled::Owner(turn) => assert!(rt; pass_on(&chain, &mut three, turn) == Some(2)),
    }
    match poll_plain(&chain, &mut two) {
        Polled::Still { word: _ } => panic!(rt; "node 2 still waits"),
        Polled::Done => panic!(rt; "node 2 has no job"),
        Polled::Owner(turn) => assert!(rt; pass_on(&chain, &mut two, turn) == Some(1)),
    }
    match poll_plain(&chain, &mut one) {
        Polled::Still { word: _ } => panic!(rt; "node 1 still waits"),
        Polled::Done => panic!(rt; "node 1 has no job"),
        Polled::Owner(turn) => assert!(rt; pass_on(&chain, &mut one, turn).is_none()),
    }
    assert!(rt; central(&chain) == 0);

    chain.join(&mut zero, one);
    chain.join(&mut zero, two);
    chain.join(&mut zero, three);
    assert!(rt; zero.quota() == 0);
    let (value, retired) = chain.close(zero);
    assert!(rt; retired.combine() == 64);
    match value {
        Some(mark) => assert!(rt; mark.sign == 7),
        None => panic!(rt; "the value is lost"),
    }
    Ok(())
}

#[test]
fn three_jobs_stand_behind_each_other(rt: HostRuntime) -> Result<(), Fail> {
    let (chain, mut zero) = Chain::make(rt.alloc(), 4, 3, 0, Mark { sign: 7 })?;
    let mut three = chain.split(&mut zero, 1, 1);
    let mut two = chain.split(&mut zero, 1, 1);
    let mut one = chain.split(&mut zero, 1, 1);
    let turn = match chain.try_in(&mut zero) {
        Ok(turn) => turn,
        Err(_busy) => panic!(rt; "the lock was taken"),
    };
    assert!(rt; central(&chain) == 1);

    // Each node swaps its number + 2 into the central word, and its link is the word that its swap found.
    enter_with_job(&rt, &chain, &mut one);
    assert!(rt; central(&chain) == 3 && status(&chain, 1) == 2 && link(&chain, 1) == 0);
    chain.link(&mut one);
    enter_with_job(&rt, &chain, &mut two);
    assert!(rt; central(&chain) == 4 && status(&chain, 2) == 2 && link(&chain, 2) == 0);
    chain.link(&mut two);
    enter_with_job(&rt, &chain, &mut three);
    assert!(rt; central(&chain) == 5 && status(&chain, 3) == 2 && link(&chain, 3) == 0);
    chain.link(&mut three);
    assert!(rt; link(&chain, 1) == 1 && link(&chain, 2) == 3 && link(&chain, 3) == 4);

    // The owner takes the chain from the word 5 down to its own mark, 1.
    assert!(rt; pass_on(&chain, &mut zero, turn) == Some(3));
    assert!(rt; central(&chain) == 1 && status(&chain, 3) == 5 && link(&chain, 3) == 4);
    let (_value, _retired) = chain.close(zero);
    Ok(())
}

#[test]
fn a_free_lock_is_entered_and_freed(rt: HostRuntime) -> Result<(), Fail> {
    let (chain, mut pass) = Chain::make(rt.alloc(), 2, 3, 0, Mark { sign: 1 })?;
    let other = chain.split(&mut pass, 1, 2);
    assert!(rt; pass.quota() == 1 && other.quota() == 2 && other.number() == 1);
    chain.join(&mut pass, other);
    assert!(rt; pass.quota() == 3);
    match chain.enter(&mut pass, Kind::Plain) {
        Entered::Behind => panic!(rt; "a free lock was taken"),
        Entered::Owner(turn) => {
            assert!(rt; turn.is_empty() && central(&chain) == 2);
            assert!(rt; pass_on(&chain, &mut pass, turn).is_none() && central(&chain) == 0);
        }
    }
    let (value, _retired) = chain.close(pass);
    assert!(rt; value.is_some());
    Ok(())
}
