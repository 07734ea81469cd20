//! Jobs on an account.
ghost use Rattle.std.specs.Prelude.{◌≡◌, ◌+◌, ◌*◌, ◌≤◌, [], Some};
ghost use Rattle.waiter_chain.specs.Calls.{IsIdle, HasTurn, MayEnd};
ghost use Rattle.waiter_chain.specs.declared.view.Stage.TheVariants.{Behind};
ghost use Rattle.combine_job.specs.Parcels.{Related, Ruled};
ghost use Rattle.combine_job.specs.Combining.{HasJob};

use crate::combining::{collect, post, run_posted};
use crate::job::{Job, Room};
use crate::once::OnceJob;
use crate::parcel::{JobAnswer, Kept, Parcel};
use crate::run::run_kept;
use std::process::Abort;
use std::test::Fail;
use waiter_chain::chain::{Chain, ChainPass};
use waiter_chain::runs::OwnRuns;
use waiter_chain::turn::{Arrived, Follow, Kind, Polled, Turn};

/// A sum of money, and how many jobs it can still take.
#[derive(Drop)]
struct Account {
    balance: u64,
    left: u64,
}

impl Room for Account {
    ghost rooms = { λ a. a.left };

    fn room(&self) -> u64 {
        self.left
    }
}

/// The account has less: this much.
#[derive(Drop, PartialEq)]
struct Short {
    balance: u64,
}

// Takes the amount where the account has it.
fn withdraw(account: &mut Account, amount: u64) -> Result<u64, Short>
    requires { 1 ≤ account.old.left }
    ensures { account.new.left + 1 ≡ account.old.left }
{
    account.left -= 1;
    if account.balance < amount {
        return Err(Short {
            balance: account.balance,
        });
    }
    account.balance -= amount;
    Ok(account.balance)
}

#[derive(Drop)]
enum Order {
    Take(u64),
    Give(u64),
}

impl Job<Account> for Order {
    type Out = u64;

    type Fault = Short;

    ghost means = { λ v j r w. w.left + 1 ≡ v.left };

    ghost is_ready = { λ j. Unit {0} };

    fn run(self, value: &mut Account) -> Result<u64, Short> {
        match self {
            Order::Take(amount) => withdraw(value, amount),
            Order::Give(amount) => {
                value.left -= 1;
                value.balance = value.balance.saturating_add(amount);
                Ok(value.balance)
            }
        }
    }
}

#[test]
fn a_refusal_is_counted(rt: HostRuntime) -> Result<(), Fail> {
    let mut kept = Kept {
        value: Account {
            balance: 0,
            left: 3,
        },
        ran: 0,
    };
    assert!(rt; kept.value.room() == 3);
    let answer = run_kept(&mut kept, Order::Take(4));
    assert!(rt; answer.at == 0 && answer.result == Err(Short { balance: 0 }));
    assert!(rt; kept.ran == 1);
    kept.value.balance = 10;
    let answer = run_kept(&mut kept, Order::Take(4));
    assert!(rt; answer.at == 1 && answer.result == Ok(6));
    assert!(rt; kept.ran == 2 && kept.value.balance == 6);
    Ok(())
}

#[test]
fn a_closure_answers_as_the_job(rt: HostRuntime) -> Result<(), Fail> {
    let mut kept = Kept {
        value: Account {
            balance: 0,
            left: 3,
        },
        ran: 0,
    };
    let job = OnceJob::new(|account: &mut Account| withdraw(account, 4));
    let answer = run_kept(&mut kept, job);
    assert!(rt; answer.at == 0 && answer.result == Err(Short { balance: 0 }));
    assert!(rt; kept.ran == 1);
    Ok(())
}

// A pass takes the free lock.
fn own<A: Abort, V: Room, J: Job<V>>(
    rt: &A,
    chain: &Chain<Parcel<V, J>>,
    pass: &mut ChainPass<Parcel<V, J>>,
) -> Turn
    requires own { pass.old.seat.table_id ≡ chain.now.table.shared.table_id }
    requires idle { IsIdle pass.old.seat.me }
    ensures own { pass.new.seat.table_id ≡ pass.old.seat.table_id }
    ensures turn { HasTurn chain.now.table.shared.table_id.slots result pass.new.seat.me }
    ensures ends { MayEnd (Related V.rooms J.means) 0 [] pass.new.seat.me }
{
    match chain.try_in(pass) {
        Ok(turn) => turn,
        Err(_busy) => panic!(rt; "the lock was taken"),
    }
}

// The owner finds a node that waits with a job and has linked, and takes its slots.
fn find_job<A: Abort, V: Room, J: Job<V>>(
    rt: &A,
    chain: &Chain<Parcel<V, J>>,
    pass: &mut ChainPass<Parcel<V, J>>,
    turn: Turn,
) -> (Turn, u64)
    requires own { pass.old.seat.table_id ≡ chain.now.table.shared.table_id }
    requires turn { HasTurn chain.now.table.shared.table_id.slots turn pass.old.seat.me }
    requires ends { MayEnd (Related V.rooms J.means) 0 [] pass.old.seat.me }
    ensures own { pass.new.seat.table_id ≡ pass.old.seat.table_id }
    ensures found { HasJob (Related V.rooms J.means) (Ruled V.rooms J.means J.is_ready chain.now.table.shared.key) chain.now.table.shared.table_id.slots 0 [] result.0 result.1 pass.new.seat.me }
{
    let none = OwnRuns::<Parcel<V, J>>::new();
    match chain.next(pass, turn, &none) {
        Follow::Free => panic!(rt; "nobody came"),
        Follow::Waits { turn, node: _ } => match chain.kind_of(pass, &turn) {
            Kind::Plain => panic!(rt; "the next node has no job"),
            Kind::WithJob => {
                let link = chain.link_of(pass, &turn);
                if link == 0 {
                    panic!(rt; "the next node has not linked");
                }
                (turn, link)
            }
        },
    }
}

// It takes the value, runs that job, and puts the value back.
fn run_found<V: Room, J: Job<V>>(
    chain: &Chain<Parcel<V, J>>,
    pass: &mut ChainPass<Parcel<V, J>>,
    turn: Turn,
    link: u64,
) -> Turn
    requires own { pass.old.seat.table_id ≡ chain.now.table.shared.table_id }
    requires found { HasJob (Related V.rooms J.means) (Ruled V.rooms J.means J.is_ready chain.now.table.shared.key) chain.now.table.shared.table_id.slots 0 [] turn link pass.old.seat.me }
    ensures own { pass.new.seat.table_id ≡ pass.old.seat.table_id }
    ensures turn { HasTurn chain.now.table.shared.table_id.slots result pass.new.seat.me }
    ensures ends { MayEnd (Related V.rooms J.means) 0 [] pass.new.seat.me }
{
    let none = OwnRuns::<Parcel<V, J>>::new();
    let value = chain.move_slot(pass, 0, None);
    let kept = value.unwrap().into_kept();
    let (turn, kept) = run_posted(chain, pass, turn, link, kept, &none);
    let _empty = chain.move_slot(pass, 0, Some(Parcel::Value(kept)));
    turn
}

// The owner runs the job of this node, which stands behind this word.
fn serve<A: Abort, V: Room, J: Job<V>>(
    rt: &A,
    chain: &Chain<Parcel<V, J>>,
    pass: &mut ChainPass<Parcel<V, J>>,
    turn: Turn,
    next: (u64, u64),
) -> Turn
    requires own { pass.old.seat.table_id ≡ chain.now.table.shared.table_id }
    requires turn { HasTurn chain.now.table.shared.table_id.slots turn pass.old.seat.me }
    requires ends { MayEnd (Related V.rooms J.means) 0 [] pass.old.seat.me }
    ensures own { pass.new.seat.table_id ≡ pass.old.seat.table_id }
    ensures turn { HasTurn chain.now.table.shared.table_id.slots result pass.new.seat.me }
    ensures ends { MayEnd (Related V.rooms J.means) 0 [] pass.new.seat.me }
{
    let (turn, link) = find_job(rt, chain, pass, turn);
    assert!(rt; (turn.node(), link) == next);
    run_found(chain, pass, turn, link)
}

// It frees the lock.
fn give_up<A: Abort, V: Room, J: Job<V>>(
    rt: &A,
    chain: &Chain<Parcel<V, J>>,
    pass: &mut ChainPass<Parcel<V, J>>,
    turn: Turn,
)
    requires own { pass.old.seat.table_id ≡ chain.now.table.shared.table_id }
    requires turn { HasTurn chain.now.table.shared.table_id.slots turn pass.old.seat.me }
    requires ends { MayEnd (Related V.rooms J.means) 0 [] pass.old.seat.me }
    ensures own { pass.new.seat.table_id ≡ pass.old.seat.table_id }
    ensures idle { IsIdle pass.new.seat.me }
{
    let none = OwnRuns::<Parcel<V, J>>::new();
    match chain.next(pass, turn, &none) {
        Follow::Free => {}
        Follow::Waits {
            turn: _turn,
            node: _,
        } => panic!(rt; "another came"),
    }
}

// A pass posts this job and waits.
fn wait_with<A: Abort, V: Room, J: Job<V>>(
    rt: &A,
    chain: &Chain<Parcel<V, J>>,
    pass: &mut ChainPass<Parcel<V, J>>,
    job: J,
)
    requires own { pass.old.seat.table_id ≡ chain.now.table.shared.table_id }
    requires idle { IsIdle pass.old.seat.me }
    requires quota { 1 ≤ pass.old.seat.me.0.quota }
    requires ready { J.is_ready job }
    ensures own { pass.new.seat.table_id ≡ pass.old.seat.table_id }
    ensures waits { (job : _) × (pass.new.seat.me.0.stage ≡ Behind pass.new.behind (Some job)) × (pass.new.seat.me.1 ≡ []) }
{
    match post(chain, pass, job) {
        Arrived::Owner(_turn) => panic!(rt; "the lock was free"),
        Arrived::Waiting => {}
    }
}

// It finds that its job has not run.
fn still_waits<A: Abort, V: Room, J: Job<V>>(
    rt: &A,
    chain: &Chain<Parcel<V, J>>,
    pass: &mut ChainPass<Parcel<V, J>>,
)
    requires own { pass.old.seat.table_id ≡ chain.now.table.shared.table_id }
    requires waits { (job : _) × (pass.old.seat.me.0.stage ≡ Behind pass.old.behind (Some job)) × (pass.old.seat.me.1 ≡ []) }
    ensures own { pass.new.seat.table_id ≡ pass.old.seat.table_id }
    ensures waits { (job : _) × (pass.new.seat.me.0.stage ≡ Behind pass.new.behind (Some job)) × (pass.new.seat.me.1 ≡ []) }
{
    match chain.poll(pass) {
        Polled::Still { word } => assert!(rt; word == 2),
        Polled::Owner(_turn) => panic!(rt; "it was granted"),
        Polled::Done => panic!(rt; "its job has run"),
    }
}

// It finds its job done.
fn answer_of<A: Abort, V: Room, J: Job<V>>(
    rt: &A,
    chain: &Chain<Parcel<V, J>>,
    pass: &mut ChainPass<Parcel<V, J>>,
) -> JobAnswer<J::Out, J::Fault>
    requires own { pass.old.seat.table_id ≡ chain.now.table.shared.table_id }
    requires waits { (job : _) × (pass.old.seat.me.0.stage ≡ Behind pass.old.behind (Some job)) × (pass.old.seat.me.1 ≡ []) }
    ensures own { pass.new.seat.table_id ≡ pass.old.seat.table_id }
    ensures idle { IsIdle pass.new.seat.me }
{
    match chain.poll(pass) {
        Polled::Still { word: _ } => panic!(rt; "it waits still"),
        Polled::Owner(_turn) => panic!(rt; "it was granted"),
        Polled::Done => collect(chain, pass),
    }
}

#[test]
fn an_owner_pauses_while_it_has_a_job_in_hand(rt: HostRuntime) -> Result<(), Fail> {
    let account = Account {
        balance: 0,
        left: 2,
    };
    let first = Parcel::<Account, Order>::Value(Kept {
        value: account,
        ran: 0,
    });
    let (chain, mut zero) = Chain::make(rt.alloc(), 3, 2, 64, first)?;
    let mut two = chain.split(&mut zero, 1, 1);
    let mut one = chain.split(&mut zero, 1, 1);
    let turn = own(&rt, &chain, &mut zero);
    wait_with(&rt, &chain, &mut one, Order::Give(10));

    // The owner has node 1's job in its hand and stops: node 1 waits, and who comes stands in the next chain.
    let (turn, link) = find_job(&rt, &chain, &mut zero, turn);
    assert!(rt; turn.node() == 1 && link == 1);
    still_waits(&rt, &chain, &mut one);
    wait_with(&rt, &chain, &mut two, Order::Take(100));

    // It goes on, and node 1 has its answer before the owner gives the lock up.
    let turn = run_found(&chain, &mut zero, turn, link);
    let answer = answer_of(&rt, &chain, &mut one);
    assert!(rt; answer.at == 0 && answer.result == Ok(10));
    let (turn, link) = find_job(&rt, &chain, &mut zero, turn);
    assert!(rt; turn.node() == 2 && link == 1);
    let turn = run_found(&chain, &mut zero, turn, link);
    give_up(&rt, &chain, &mut zero, turn);
    let answer = answer_of(&rt, &chain, &mut two);
    assert!(rt; answer.at == 1 && answer.result == Err(Short { balance: 10 }));
    chain.join(&mut zero, one);
    chain.join(&mut zero, two);
    let (value, _retired) = chain.close(zero);
    match value {
        Some(Parcel::Value(kept)) => assert!(rt; kept.ran == 2 && kept.value.balance == 10),
        _ => panic!(rt; "the value is lost"),
    }
    Ok(())
}

#[test]
fn three_jobs_run_along_their_links(rt: HostRuntime) -> Result<(), Fail> {
    let account = Account {
        balance: 0,
        left: 3,
    };
    let first = Parcel::<Account, Order>::Value(Kept {
        value: account,
        ran: 0,
    });
    let (chain, mut zero) = Chain::make(rt.alloc(), 4, 3, 64, first)?;
    let mut three = chain.split(&mut zero, 1, 1);
    let mut two = chain.split(&mut zero, 1, 1);
    let mut one = chain.split(&mut zero, 1, 1);
    let turn = own(&rt, &chain, &mut zero);
    wait_with(&rt, &chain, &mut one, Order::Take(4));
    wait_with(&rt, &chain, &mut two, Order::Take(100));
    wait_with(&rt, &chain, &mut three, Order::Give(10));

    // The owner finds the word 5 of node 3, whose link leads to node 2, and so on down to the owner's own mark.
    let turn = serve(&rt, &chain, &mut zero, turn, (3, 4));
    let turn = serve(&rt, &chain, &mut zero, turn, (2, 3));
    let turn = serve(&rt, &chain, &mut zero, turn, (1, 1));
    give_up(&rt, &chain, &mut zero, turn);
    let answer = answer_of(&rt, &chain, &mut three);
    assert!(rt; answer.at == 0 && answer.result == Ok(10));
    let answer = answer_of(&rt, &chain, &mut two);
    assert!(rt; answer.at == 1 && answer.result == Err(Short { balance: 10 }));
    let answer = answer_of(&rt, &chain, &mut one);
    assert!(rt; answer.at == 2 && answer.result == Ok(6));
    let (_value, _retired) = chain.close(zero);
    Ok(())
}
