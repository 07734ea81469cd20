//! The distributed lock at work: who owns it in which order, jobs of an account, and waits with a deadline.
ghost use Rattle.std.specs.Prelude.{◌≡◌, ◌+◌, ◌-◌, ◌*◌, ◌≤◌, length, [], Some, None};
ghost use Rattle.waiter_chain.specs.Calls.{IsBehind, PolledAs};
ghost use Rattle.waiter_chain.specs.declared.view.Stage.TheVariants.{Behind};
ghost use Rattle.combine_job.specs.declared.parcel.Parcel.TheVariants.{Posted};
ghost use Rattle.combine_job.specs.Parcels.{Ruled};
ghost use Rattle.dist_mutex.specs.Owners.{IsFree, Owning};
ghost use Rattle.dist_mutex.specs.Passes.{opening_of, slots_of, dist_state, dist_view, runs_of, due_of, HasNoRuns, IsDistPassOf, IsSamePass, IsAtRest};

use crate::mutex::DistMutex;
use crate::owner::{Next, Owner};
use crate::pass::DistPass;
use combine_job::combining::post;
use combine_job::job::{Job, Room};
use combine_job::parcel::{JobAnswer, Kept, Parcel};
use ql_base::{Clock, ListClock};
use std::process::Abort;
use std::sync::Wait;
use std::test::Fail;
use waiter_chain::turn::{Arrived, Entered, Kind, Polled};

/// A sum of money, and how many jobs it can still take.
#[derive(Drop)]
pub(crate) struct Account {
    pub(crate) balance: u64,
    pub(crate) left: u64,
}

impl Room for Account {
    ghost rooms = { λ a. a.left };

    fn room(&self) -> u64 {
        self.left
    }
}

/// Why an account refuses.
#[derive(Clone, Copy, PartialEq)]
pub(crate) enum Refusal {
    /// It has less: this much.
    Short(u64),
    /// It would have too much.
    Over,
}

fn give(account: &mut Account, amount: u64) -> Result<u64, Refusal>
    requires { 1 ≤ account.old.left }
    ensures { account.new.left + 1 ≡ account.old.left }
{
    account.left -= 1;
    match account.balance.checked_add(amount) {
        Some(balance) => {
            account.balance = balance;
            Ok(balance)
        }
        None => Err(Refusal::Over),
    }
}

fn withdraw(account: &mut Account, amount: u64) -> Result<u64, Refusal>
    requires { 1 ≤ account.old.left }
    ensures { account.new.left + 1 ≡ account.old.left }
{
    account.left -= 1;
    if account.balance < amount {
        return Err(Refusal::Short(account.balance));
    }
    account.balance -= amount;
    Ok(account.balance)
}

#[derive(Drop)]
pub(crate) enum Order {
    Give(u64),
    Take(u64),
}

impl Job<Account> for Order {
    type Out = u64;

    type Fault = Refusal;

    ghost means = { λ v j r w. w.left + 1 ≡ v.left };

    ghost is_ready = { λ j. Unit {0} };

    fn run(self, value: &mut Account) -> Result<u64, Refusal> {
        match self {
            Order::Give(amount) => give(value, amount),
            Order::Take(amount) => withdraw(value, amount),
        }
    }
}

type Bank = DistMutex<Account, Order>;

type Clerk = DistPass<Account, Order>;

// A clerk takes the free lock.
pub(crate) fn own<A: Abort, V: Room, J: Job<V>>(
    rt: &A,
    bank: &DistMutex<V, J>,
    clerk: &mut DistPass<V, J>,
) -> Owner<V>
    requires own { IsDistPassOf bank.now clerk.old }
    requires idle { IsAtRest clerk.old }
    ensures own { IsDistPassOf bank.now clerk.new }
    ensures runs { HasNoRuns clerk.new }
    ensures quota { (dist_view clerk.new).quota ≡ (dist_view clerk.old).quota }
    ensures owner { Owning V.rooms J.means (slots_of bank.now) (dist_state clerk.new) (due_of clerk.new) (runs_of clerk.new) result.turn result.kept }
{
    match bank.try_lock(clerk) {
        Ok(owner) => owner,
        Err(_busy) => panic!(rt; "the lock was taken"),
    }
}

// A clerk finds that another owns the lock, and that nobody came since the owner last looked.
pub(crate) fn find_taken<A: Abort, V: Room, J: Job<V>>(
    rt: &A,
    bank: &DistMutex<V, J>,
    clerk: &mut DistPass<V, J>,
)
    requires own { IsDistPassOf bank.now clerk.old }
    requires idle { IsAtRest clerk.old }
    ensures own { IsDistPassOf bank.now clerk.new }
    ensures idle { IsAtRest clerk.new }
    ensures quota { (dist_view clerk.new).quota ≡ (dist_view clerk.old).quota }
{
    match bank.try_lock(clerk) {
        Ok(_owner) => panic!(rt; "two owners"),
        Err(busy) => assert!(rt; busy.word == 1),
    }
}

// The owner gives the lock up and runs no job: the node that owns the lock then.
fn give_up<A: Abort, V: Room, J: Job<V>>(
    rt: &A,
    bank: &DistMutex<V, J>,
    clerk: &mut DistPass<V, J>,
    owner: Owner<V>,
) -> Option<u64>
    requires own { IsDistPassOf bank.now clerk.old }
    requires owner { Owning V.rooms J.means (slots_of bank.now) (dist_state clerk.old) (due_of clerk.old) (runs_of clerk.old) owner.turn owner.kept }
    ensures own { IsDistPassOf bank.now clerk.new }
    ensures idle { IsAtRest clerk.new }
    ensures quota { (dist_view clerk.new).quota ≡ (dist_view clerk.old).quota - due_of clerk.old }
{
    let released = bank.unlock(clerk, owner);
    assert!(rt; released.combined == 0);
    match released.next {
        Next::Free => None,
        Next::Plain(node) => Some(node),
        Next::Spent(_node) => panic!(rt; "a job waits"),
        Next::Unlinked(_node) => panic!(rt; "a job waits"),
    }
}

// A clerk stands behind another clerk, and waits for the lock itself.
fn wait_plain<A: Abort, V: Room, J: Job<V>>(
    rt: &A,
    bank: &DistMutex<V, J>,
    clerk: &mut DistPass<V, J>,
)
    requires own { IsDistPassOf bank.now clerk.old }
    requires idle { IsAtRest clerk.old }
    ensures own { IsDistPassOf bank.now clerk.new }
    ensures runs { runs_of clerk.new ≡ [] }
    ensures behind { IsBehind clerk.new.pass.behind (dist_state clerk.new) }
{
    match bank.chain.enter(&mut clerk.pass, Kind::Plain) {
        Entered::Owner(_turn) => panic!(rt; "the lock was free"),
        Entered::Behind => {}
    }
}

// A pass that waits with no job loads its own status.
fn poll_plain<V: Room, J: Job<V>>(bank: &DistMutex<V, J>, clerk: &mut DistPass<V, J>) -> Polled
    requires own { IsDistPassOf bank.now clerk.old }
    requires runs { runs_of clerk.old ≡ [] }
    requires behind { IsBehind clerk.old.pass.behind (dist_state clerk.old) }
    ensures own { IsSamePass clerk.old clerk.new × (clerk.new.pass.behind ≡ clerk.old.pass.behind) }
    ensures runs { runs_of clerk.new ≡ [] }
    ensures answer { PolledAs (Ruled V.rooms J.means J.is_ready (opening_of bank.now)) (slots_of bank.now) clerk.old.pass.behind None (dist_state clerk.old) (dist_state clerk.new) result }
{
    bank.chain.poll(&mut clerk.pass)
}

// It waits still.
fn still_waits<A: Abort, V: Room, J: Job<V>>(
    rt: &A,
    bank: &DistMutex<V, J>,
    clerk: &mut DistPass<V, J>,
)
    requires own { IsDistPassOf bank.now clerk.old }
    requires runs { runs_of clerk.old ≡ [] }
    requires behind { IsBehind clerk.old.pass.behind (dist_state clerk.old) }
    ensures own { IsDistPassOf bank.now clerk.new }
    ensures runs { runs_of clerk.new ≡ [] }
    ensures behind { IsBehind clerk.new.pass.behind (dist_state clerk.new) }
{
    match poll_plain(bank, clerk) {
        Polled::Still { word } => assert!(rt; word == 1),
        Polled::Done => panic!(rt; "it has no job"),
        Polled::Owner(_turn) => panic!(rt; "it was granted"),
    }
}

// It finds that it was made the owner.
fn owned<A: Abort, V: Room, J: Job<V>>(
    rt: &A,
    bank: &DistMutex<V, J>,
    clerk: &mut DistPass<V, J>,
) -> Owner<V>
    requires own { IsDistPassOf bank.now clerk.old }
    requires runs { runs_of clerk.old ≡ [] }
    requires behind { IsBehind clerk.old.pass.behind (dist_state clerk.old) }
    ensures own { IsDistPassOf bank.now clerk.new }
    ensures owner { Owning V.rooms J.means (slots_of bank.now) (dist_state clerk.new) (due_of clerk.new) (runs_of clerk.new) result.turn result.kept }
{
    match poll_plain(bank, clerk) {
        Polled::Still { word: _ } => panic!(rt; "it waits still"),
        Polled::Done => panic!(rt; "it has no job"),
        Polled::Owner(turn) => bank.take(clerk, turn),
    }
}

// It was made the owner, and gives the lock up to the node that it answers.
fn own_in_turn<A: Abort, V: Room, J: Job<V>>(
    rt: &A,
    bank: &DistMutex<V, J>,
    clerk: &mut DistPass<V, J>,
) -> Option<u64>
    requires own { IsDistPassOf bank.now clerk.old }
    requires runs { runs_of clerk.old ≡ [] }
    requires behind { IsBehind clerk.old.pass.behind (dist_state clerk.old) }
    ensures own { IsDistPassOf bank.now clerk.new }
    ensures idle { IsAtRest clerk.new }
{
    let owner = owned(rt, bank, clerk);
    give_up(rt, bank, clerk, owner)
}

// A clerk posts this order behind another clerk, and waits.
pub(crate) fn wait_with<A: Abort, V: Room, J: Job<V>>(
    rt: &A,
    bank: &DistMutex<V, J>,
    clerk: &mut DistPass<V, J>,
    job: J,
)
    requires own { IsDistPassOf bank.now clerk.old }
    requires idle { IsAtRest clerk.old }
    requires quota { 1 ≤ (dist_view clerk.old).quota }
    requires ready { J.is_ready job }
    ensures own { IsDistPassOf bank.now clerk.new }
    ensures runs { runs_of clerk.new ≡ [] }
    ensures waits { ((dist_view clerk.new).stage ≡ Behind clerk.new.pass.behind (Some (Posted job))) × ((dist_state clerk.new).1 ≡ []) }
{
    match post(&bank.chain, &mut clerk.pass, job) {
        Arrived::Owner(_turn) => panic!(rt; "the lock was free"),
        Arrived::Waiting => {}
    }
}

// A clerk posts this order behind another clerk, and has not said yet whom it is behind.
fn enter_with<A: Abort, V: Room, J: Job<V>>(
    rt: &A,
    bank: &DistMutex<V, J>,
    clerk: &mut DistPass<V, J>,
    job: J,
)
    requires own { IsDistPassOf bank.now clerk.old }
    requires idle { IsAtRest clerk.old }
    requires quota { 1 ≤ (dist_view clerk.old).quota }
    requires ready { J.is_ready job }
    ensures own { IsDistPassOf bank.now clerk.new }
    ensures runs { runs_of clerk.new ≡ [] }
    ensures waits { ((dist_view clerk.new).stage ≡ Behind clerk.new.pass.behind (Some (Posted job))) × ((dist_state clerk.new).1 ≡ []) }
{
    let slot = 1 + 2 * clerk.number();
    bank.chain.hold(&mut clerk.pass);
    let _empty = bank
        .chain
        .move_slot(&mut clerk.pass, slot, Some(Parcel::Posted(job)));
    match bank.chain.enter(&mut clerk.pass, Kind::WithJob) {
        Entered::Owner(_turn) => panic!(rt; "the lock was free"),
        Entered::Behind => {}
    }
}

// It says it late.
fn link_late<V: Room, J: Job<V>>(bank: &DistMutex<V, J>, clerk: &mut DistPass<V, J>)
    requires own { IsDistPassOf bank.now clerk.old }
    requires runs { runs_of clerk.old ≡ [] }
    requires waits { (job : J) × ((dist_view clerk.old).stage ≡ Behind clerk.old.pass.behind (Some (Posted job))) × ((dist_state clerk.old).1 ≡ []) }
    ensures own { IsDistPassOf bank.now clerk.new }
    ensures runs { runs_of clerk.new ≡ [] }
    ensures waits { (job : J) × ((dist_view clerk.new).stage ≡ Behind clerk.new.pass.behind (Some (Posted job))) × ((dist_state clerk.new).1 ≡ []) }
{
    bank.chain.link(&mut clerk.pass);
}

// The clerk finds that its order has run, or runs it as the owner.
pub(crate) fn settle<R: Wait, V: Room, J: Job<V>>(
    rt: &R,
    bank: &DistMutex<V, J>,
    clerk: &mut DistPass<V, J>,
) -> JobAnswer<J::Out, J::Fault>
    requires own { IsDistPassOf bank.now clerk.old }
    requires runs { runs_of clerk.old ≡ [] }
    requires waits { (job : J) × ((dist_view clerk.old).stage ≡ Behind clerk.old.pass.behind (Some (Posted job))) × ((dist_state clerk.old).1 ≡ []) }
    ensures own { IsDistPassOf bank.now clerk.new }
    ensures idle { IsAtRest clerk.new }
{
    bank.await_answer(rt, clerk)
}

pub(crate) fn an_account(jobs: u64) -> Account
    ensures { (result.left ≡ jobs) × (result.balance ≡ 0) }
{
    Account {
        balance: 0,
        left: jobs,
    }
}

// The passes of the nodes 1, 2 and 3, each with so much of the quota.
pub(crate) fn three_clerks<V: Room, J: Job<V>>(
    bank: &DistMutex<V, J>,
    zero: &mut DistPass<V, J>,
    quota: u64,
) -> (DistPass<V, J>, DistPass<V, J>, DistPass<V, J>)
    requires own { IsDistPassOf bank.now zero.old }
    requires idle { IsAtRest zero.old }
    requires fits { (3 ≤ (dist_view zero.old).spare) × (3 * quota ≤ (dist_view zero.old).quota) }
    ensures own { IsDistPassOf bank.now zero.new × IsDistPassOf bank.now result.0 × IsDistPassOf bank.now result.1 × IsDistPassOf bank.now result.2 }
    ensures idle { IsAtRest zero.new × IsAtRest result.0 × IsAtRest result.1 × IsAtRest result.2 }
    ensures quota { ((dist_view result.0).quota ≡ quota) × ((dist_view result.1).quota ≡ quota) × ((dist_view result.2).quota ≡ quota) }
{
    let three = bank.split(zero, 1, quota);
    let two = bank.split(zero, 1, quota);
    let one = bank.split(zero, 1, quota);
    (one, two, three)
}

// The lock is closed: its value, with the number of jobs that ran.
pub(crate) fn closed<A: Abort, V: Room, J: Job<V>>(
    rt: &A,
    bank: DistMutex<V, J>,
    clerk: DistPass<V, J>,
) -> Kept<V>
    requires own { IsDistPassOf bank clerk }
    requires idle { IsAtRest clerk }
{
    let limit = bank.combine();
    let (kept, retired) = bank.close(clerk);
    assert!(rt; retired.combine() == limit);
    match kept {
        Some(kept) => kept,
        None => panic!(rt; "the value is lost"),
    }
}

// Three clerks come behind the owner, the last one last, and wait for the lock itself.
fn line_up<A: Abort, V: Room, J: Job<V>>(
    rt: &A,
    bank: &DistMutex<V, J>,
    one: &mut DistPass<V, J>,
    two: &mut DistPass<V, J>,
    three: &mut DistPass<V, J>,
)
    requires own { IsDistPassOf bank.now one.old × IsDistPassOf bank.now two.old × IsDistPassOf bank.now three.old }
    requires idle { IsAtRest one.old × IsAtRest two.old × IsAtRest three.old }
    ensures own { IsDistPassOf bank.now one.new × IsDistPassOf bank.now two.new × IsDistPassOf bank.now three.new }
    ensures runs { (runs_of one.new ≡ []) × (runs_of two.new ≡ []) × (runs_of three.new ≡ []) }
    ensures behind { IsBehind one.new.pass.behind (dist_state one.new) × IsBehind two.new.pass.behind (dist_state two.new) × IsBehind three.new.pass.behind (dist_state three.new) }
{
    wait_plain(rt, bank, one);
    wait_plain(rt, bank, two);
    wait_plain(rt, bank, three);
    still_waits(rt, bank, two);
}

// The last that came is the first that owns the lock, and so on.
fn own_one_after_the_other<A: Abort, V: Room, J: Job<V>>(
    rt: &A,
    bank: &DistMutex<V, J>,
    one: &mut DistPass<V, J>,
    two: &mut DistPass<V, J>,
    three: &mut DistPass<V, J>,
)
    requires own { IsDistPassOf bank.now one.old × IsDistPassOf bank.now two.old × IsDistPassOf bank.now three.old }
    requires runs { (runs_of one.old ≡ []) × (runs_of two.old ≡ []) × (runs_of three.old ≡ []) }
    requires behind { IsBehind one.old.pass.behind (dist_state one.old) × IsBehind two.old.pass.behind (dist_state two.old) × IsBehind three.old.pass.behind (dist_state three.old) }
    ensures own { IsDistPassOf bank.now one.new × IsDistPassOf bank.now two.new × IsDistPassOf bank.now three.new }
    ensures idle { IsAtRest one.new × IsAtRest two.new × IsAtRest three.new }
{
    assert!(rt; own_in_turn(rt, bank, three) == Some(2));
    assert!(rt; own_in_turn(rt, bank, two) == Some(1));
    assert!(rt; own_in_turn(rt, bank, one).is_none());
}

#[test]
fn waiters_get_the_lock_in_turn(rt: HostRuntime) -> Result<(), Fail> {
    let (bank, mut zero) = Bank::make(rt.alloc(), 4, 0, 64, an_account(0))?;
    let (mut one, mut two, mut three) = three_clerks(&bank, &mut zero, 0);
    let owner = own(&rt, &bank, &mut zero);
    find_taken(&rt, &bank, &mut one);
    line_up(&rt, &bank, &mut one, &mut two, &mut three);
    assert!(rt; give_up(&rt, &bank, &mut zero, owner) == Some(3));
    find_taken(&rt, &bank, &mut zero);
    own_one_after_the_other(&rt, &bank, &mut one, &mut two, &mut three);
    let owner = own(&rt, &bank, &mut zero);
    assert!(rt; give_up(&rt, &bank, &mut zero, owner).is_none());
    bank.join(&mut zero, one);
    bank.join(&mut zero, two);
    bank.join(&mut zero, three);
    let kept = closed(&rt, bank, zero);
    assert!(rt; kept.ran == 0 && kept.value.balance == 0);
    Ok(())
}

#[test]
fn a_clerk_that_links_late_runs_its_own_order(rt: HostRuntime) -> Result<(), Fail> {
    let (bank, mut zero) = Bank::make(rt.alloc(), 4, 1, 64, an_account(1))?;
    let others = bank.split(&mut zero, 2, 0);
    let mut one = bank.split(&mut zero, 1, 1);
    let owner = own(&rt, &bank, &mut zero);
    enter_with(&rt, &bank, &mut one, Order::Give(10));
    let released = bank.unlock(&mut zero, owner);
    match released.next {
        Next::Unlinked(node) => assert!(rt; released.combined == 0 && node == 1),
        _ => panic!(rt; "node 1 had linked"),
    }
    link_late(&bank, &mut one);
    let answer = settle(&rt, &bank, &mut one);
    assert!(rt; answer.at == 0 && answer.result == Ok(10));
    bank.join(&mut zero, one);
    bank.join(&mut zero, others);
    let kept = closed(&rt, bank, zero);
    assert!(rt; kept.ran == 1 && kept.value.balance == 10);
    Ok(())
}

#[test]
fn an_owner_runs_jobs_at_rising_positions(rt: HostRuntime) -> Result<(), Fail> {
    let (bank, mut pass) = Bank::make(rt.alloc(), 2, 4, 0, an_account(4))?;
    assert!(rt;
        bank.combine() == 0 && pass.quota() == 4 && pass.number() == 0 && pass.spare() == 1
    );
    let mut owner = own(&rt, &bank, &mut pass);
    let first = bank.run_owned(&mut pass, &mut owner, Order::Take(4));
    let second = bank.run_owned(&mut pass, &mut owner, Order::Give(10));
    assert!(rt; first.at == 0 && first.result == Err(Refusal::Short(0)));
    assert!(rt; second.at == 1 && second.result == Ok(10));
    assert!(rt; pass.quota() == 2 && owner.ran() == 2 && owner.value().balance == 10);
    assert!(rt; give_up(&rt, &bank, &mut pass, owner).is_none());
    let owner = bank.lock(&rt, &mut pass);
    assert!(rt; owner.ran() == 2);
    assert!(rt; give_up(&rt, &bank, &mut pass, owner).is_none());
    let third = bank.lock_combine(&rt, &mut pass, Order::Give(u64::MAX));
    assert!(rt; third.at == 2 && third.result == Err(Refusal::Over) && pass.quota() == 1);
    let kept = closed(&rt, bank, pass);
    assert!(rt; kept.ran == 3 && kept.value.balance == 10);
    Ok(())
}

#[test]
fn a_free_lock_is_taken_past_the_deadline_too(rt: HostRuntime) -> Result<(), Fail> {
    let mut clock = ListClock::new(vec![in rt.alloc(); 7, 8]?);
    let (bank, mut pass) = Bank::make(rt.alloc(), 1, 0, 0, an_account(0))?;
    match bank.lock_until(&rt, &mut pass, &mut clock, 0) {
        Ok(owner) => {
            let _released = bank.unlock(&mut pass, owner);
        }
        Err(_late) => panic!(rt; "the lock was taken"),
    }
    assert_eq!(rt; clock.now(), 7, "the clock was asked");
    let (kept, _retired) = bank.close(pass);
    assert!(rt; kept.is_some());
    Ok(())
}

#[test]
fn an_owned_lock_is_late_at_the_deadline(rt: HostRuntime) -> Result<(), Fail> {
    let mut clock = ListClock::new(vec![in rt.alloc(); 0, 3, 5, 6]?);
    let (bank, mut zero) = Bank::make(rt.alloc(), 2, 0, 0, an_account(0))?;
    let mut one = bank.split(&mut zero, 1, 0);
    let owner = own(&rt, &bank, &mut zero);
    match bank.lock_until(&rt, &mut one, &mut clock, 5) {
        Ok(_owner) => panic!(rt; "two owners"),
        Err(late) => {
            assert!(rt; late.now == 5 && late.deadline == 5 && late.fault.word == 1);
        }
    }
    assert_eq!(rt; clock.now(), 6, "the clock was asked after the deadline");
    let _released = bank.unlock(&mut zero, owner);
    match bank.lock_until(&rt, &mut one, &mut clock, 5) {
        Ok(owner) => {
            let _released = bank.unlock(&mut one, owner);
        }
        Err(_late) => panic!(rt; "the lock is not free"),
    }
    bank.join(&mut zero, one);
    let (kept, _retired) = bank.close(zero);
    assert!(rt; kept.is_some());
    Ok(())
}
