//! Many threads at one lock, each with a pass of its own. Afterwards one thread replays all jobs on a plain number,
//! position by position, and each answer must be the one that it was given.
ghost use Rattle.std.specs.Prelude.{◌≡◌, ◌+◌, ◌*◌, ◌≤◌, length, IfOk};
ghost use Rattle.std.specs.Thread.{IsSync};
ghost use Rattle.dist_mutex.specs.Passes.{dist_view, IsDistPassOf, IsAtRest};

use crate::mutex::DistMutex;
use crate::pass::DistPass;
use crate::tests::closed;
use combine_job::job::{Job, Room};
use std::alloc::AllocError;
use std::process::Abort;
use std::sync::Wait;
use std::test::Fail;
use std::thread::{Threads, join_mut};

/// A sum of money, and how many jobs it can still take.
#[derive(Drop)]
struct Till {
    balance: u64,
    left: u64,
}

impl Room for Till {
    ghost rooms = { λ a. a.left };

    fn room(&self) -> u64 {
        self.left
    }
}

/// Refused, with the balance, where the sum would be too great, or the till has less.
#[derive(Clone, Copy)]
enum Change {
    Add(u64),
    Subtract(u64),
}

impl Job<Till> for Change {
    type Out = u64;

    type Fault = u64;

    ghost means = { λ v j r w. w.left + 1 ≡ v.left };

    ghost is_ready = { λ j. Unit {0} };

    fn run(self, value: &mut Till) -> Result<u64, u64> {
        value.left -= 1;
        let changed = match self {
            Change::Add(amount) => value.balance.checked_add(amount),
            Change::Subtract(amount) => value.balance.checked_sub(amount),
        };
        match changed {
            Some(balance) => {
                value.balance = balance;
                Ok(balance)
            }
            None => Err(value.balance),
        }
    }
}

type Shop = DistMutex<Till, Change>;

type Hand = DistPass<Till, Change>;

/// A job with its answer, or none yet.
#[derive(Clone, Copy)]
struct Note {
    change: Change,
    at: u64,
    result: Result<u64, u64>,
    asked: bool,
}

fn no_note() -> Note {
    Note {
        change: Change::Add(0),
        at: 0,
        result: Ok(0),
        asked: false,
    }
}

/// A pass, and a note for each job that it is to ask for.
#[derive(Drop)]
struct Clerk {
    hand: Hand,
    notes: Vec<Note>,
}

// Of three jobs one adds 9 and two take 5 each, so sooner or later some are refused.
fn change_of(round: u64) -> Change {
    match round % 3 {
        0 => Change::Add(9),
        _ => Change::Subtract(5),
    }
}

// Asks for as many jobs as it has notes.
fn serve<R: Wait>(rt: &R, shop: &Shop, clerk: &mut Clerk)
    requires own { IsDistPassOf shop.now clerk.old.hand }
    requires idle { IsAtRest clerk.old.hand }
    requires quota { length clerk.old.notes.items ≤ (dist_view clerk.old.hand).quota }
    ensures own { IsDistPassOf shop.now clerk.new.hand }
    ensures idle { IsAtRest clerk.new.hand }
{
    let rounds = clerk.notes.len() as u64;
    let mut round = 0;
    while round < rounds {
        let change = change_of(round);
        let answer = shop.lock_combine(rt, &mut clerk.hand, change);
        if let Some(note) = clerk.notes.get_mut(round as usize) {
            *note = Note {
                change,
                at: answer.at,
                result: answer.result,
                asked: true,
            };
        }
        round += 1;
    }
}

fn serve_two<R: Threads + Wait + Sync>(rt: &R, shop: &Shop, one: &mut Clerk, two: &mut Clerk)
    requires own { IsDistPassOf shop.now one.old.hand × IsDistPassOf shop.now two.old.hand }
    requires idle { IsAtRest one.old.hand × IsAtRest two.old.hand }
    requires quota { (length one.old.notes.items ≤ (dist_view one.old.hand).quota) × (length two.old.notes.items ≤ (dist_view two.old.hand).quota) }
    ensures own { IsDistPassOf shop.now one.new.hand × IsDistPassOf shop.now two.new.hand }
    ensures idle { IsAtRest one.new.hand × IsAtRest two.new.hand }
{
    let _done = join_mut(
        rt,
        &mut || serve(rt, shop, one),
        &mut || serve(rt, shop, two),
    );
}

fn serve_four<R: Threads + Wait + Sync>(
    rt: &R,
    shop: &Shop,
    one: &mut Clerk,
    two: &mut Clerk,
    three: &mut Clerk,
    four: &mut Clerk,
)
    requires own { IsDistPassOf shop.now one.old.hand × IsDistPassOf shop.now two.old.hand × IsDistPassOf shop.now three.old.hand × IsDistPassOf shop.now four.old.hand }
    requires idle { IsAtRest one.old.hand × IsAtRest two.old.hand × IsAtRest three.old.hand × IsAtRest four.old.hand }
    requires quota { (length one.old.notes.items ≤ (dist_view one.old.hand).quota) × (length two.old.notes.items ≤ (dist_view two.old.hand).quota) }
    requires quota_too { (length three.old.notes.items ≤ (dist_view three.old.hand).quota) × (length four.old.notes.items ≤ (dist_view four.old.hand).quota) }
    ensures own { IsDistPassOf shop.now one.new.hand × IsDistPassOf shop.now two.new.hand × IsDistPassOf shop.now three.new.hand × IsDistPassOf shop.now four.new.hand }
    ensures idle { IsAtRest one.new.hand × IsAtRest two.new.hand × IsAtRest three.new.hand × IsAtRest four.new.hand }
{
    let _done = join_mut(
        rt,
        &mut ||
            requires { IsSync R.row × IsDistPassOf shop.now one.now.hand × IsDistPassOf shop.now two.now.hand × IsAtRest one.now.hand × IsAtRest two.now.hand × (length one.now.notes.items ≤ (dist_view one.now.hand).quota) × (length two.now.notes.items ≤ (dist_view two.now.hand).quota) }
            ensures { IsDistPassOf shop.entry.now one.exit.now.hand × IsDistPassOf shop.entry.now two.exit.now.hand × IsAtRest one.exit.now.hand × IsAtRest two.exit.now.hand }
        { serve_two(rt, shop, one, two) },
        &mut ||
            requires { IsSync R.row × IsDistPassOf shop.now three.now.hand × IsDistPassOf shop.now four.now.hand × IsAtRest three.now.hand × IsAtRest four.now.hand × (length three.now.notes.items ≤ (dist_view three.now.hand).quota) × (length four.now.notes.items ≤ (dist_view four.now.hand).quota) }
            ensures { IsDistPassOf shop.entry.now three.exit.now.hand × IsDistPassOf shop.entry.now four.exit.now.hand × IsAtRest three.exit.now.hand × IsAtRest four.exit.now.hand }
        { serve_two(rt, shop, three, four) },
    );
}

/// Four clerks, each of whom works in a thread of its own.
#[derive(Drop)]
struct Team {
    one: Clerk,
    two: Clerk,
    three: Clerk,
    four: Clerk,
}

fn serve_team<R: Threads + Wait + Sync>(rt: &R, shop: &Shop, team: &mut Team)
    requires own { IsDistPassOf shop.now team.old.one.hand × IsDistPassOf shop.now team.old.two.hand × IsDistPassOf shop.now team.old.three.hand × IsDistPassOf shop.now team.old.four.hand }
    requires idle { IsAtRest team.old.one.hand × IsAtRest team.old.two.hand × IsAtRest team.old.three.hand × IsAtRest team.old.four.hand }
    requires quota { (length team.old.one.notes.items ≤ (dist_view team.old.one.hand).quota) × (length team.old.two.notes.items ≤ (dist_view team.old.two.hand).quota) }
    requires quota_too { (length team.old.three.notes.items ≤ (dist_view team.old.three.hand).quota) × (length team.old.four.notes.items ≤ (dist_view team.old.four.hand).quota) }
    ensures own { IsDistPassOf shop.now team.new.one.hand × IsDistPassOf shop.now team.new.two.hand × IsDistPassOf shop.now team.new.three.hand × IsDistPassOf shop.now team.new.four.hand }
    ensures idle { IsAtRest team.new.one.hand × IsAtRest team.new.two.hand × IsAtRest team.new.three.hand × IsAtRest team.new.four.hand }
{
    serve_four(
        rt,
        shop,
        &mut team.one,
        &mut team.two,
        &mut team.three,
        &mut team.four,
    );
}

fn serve_teams<R: Threads + Wait + Sync>(rt: &R, shop: &Shop, early: &mut Team, late: &mut Team)
    requires early_own { IsDistPassOf shop.now early.old.one.hand × IsDistPassOf shop.now early.old.two.hand × IsDistPassOf shop.now early.old.three.hand × IsDistPassOf shop.now early.old.four.hand }
    requires early_idle { IsAtRest early.old.one.hand × IsAtRest early.old.two.hand × IsAtRest early.old.three.hand × IsAtRest early.old.four.hand }
    requires early_quota { (length early.old.one.notes.items ≤ (dist_view early.old.one.hand).quota) × (length early.old.two.notes.items ≤ (dist_view early.old.two.hand).quota) × (length early.old.three.notes.items ≤ (dist_view early.old.three.hand).quota) × (length early.old.four.notes.items ≤ (dist_view early.old.four.hand).quota) }
    requires late_own { IsDistPassOf shop.now late.old.one.hand × IsDistPassOf shop.now late.old.two.hand × IsDistPassOf shop.now late.old.three.hand × IsDistPassOf shop.now late.old.four.hand }
    requires late_idle { IsAtRest late.old.one.hand × IsAtRest late.old.two.hand × IsAtRest late.old.three.hand × IsAtRest late.old.four.hand }
    requires late_quota { (length late.old.one.notes.items ≤ (dist_view late.old.one.hand).quota) × (length late.old.two.notes.items ≤ (dist_view late.old.two.hand).quota) × (length late.old.three.notes.items ≤ (dist_view late.old.three.hand).quota) × (length late.old.four.notes.items ≤ (dist_view late.old.four.hand).quota) }
    ensures early_own { IsDistPassOf shop.now early.new.one.hand × IsDistPassOf shop.now early.new.two.hand × IsDistPassOf shop.now early.new.three.hand × IsDistPassOf shop.now early.new.four.hand }
    ensures early_idle { IsAtRest early.new.one.hand × IsAtRest early.new.two.hand × IsAtRest early.new.three.hand × IsAtRest early.new.four.hand }
    ensures late_own { IsDistPassOf shop.now late.new.one.hand × IsDistPassOf shop.now late.new.two.hand × IsDistPassOf shop.now late.new.three.hand × IsDistPassOf shop.now late.new.four.hand }
    ensures late_idle { IsAtRest late.new.one.hand × IsAtRest late.new.two.hand × IsAtRest late.new.three.hand × IsAtRest late.new.four.hand }
{
    let _done = join_mut(
        rt,
        &mut ||
            requires { IsSync R.row × IsDistPassOf shop.now early.now.one.hand × IsDistPassOf shop.now early.now.two.hand × IsDistPassOf shop.now early.now.three.hand × IsDistPassOf shop.now early.now.four.hand × IsAtRest early.now.one.hand × IsAtRest early.now.two.hand × IsAtRest early.now.three.hand × IsAtRest early.now.four.hand × (length early.now.one.notes.items ≤ (dist_view early.now.one.hand).quota) × (length early.now.two.notes.items ≤ (dist_view early.now.two.hand).quota) × (length early.now.three.notes.items ≤ (dist_view early.now.three.hand).quota) × (length early.now.four.notes.items ≤ (dist_view early.now.four.hand).quota) }
            ensures { IsDistPassOf shop.entry.now early.exit.now.one.hand × IsDistPassOf shop.entry.now early.exit.now.two.hand × IsDistPassOf shop.entry.now early.exit.now.three.hand × IsDistPassOf shop.entry.now early.exit.now.four.hand × IsAtRest early.exit.now.one.hand × IsAtRest early.exit.now.two.hand × IsAtRest early.exit.now.three.hand × IsAtRest early.exit.now.four.hand }
        { serve_team(rt, shop, early) },
        &mut ||
            requires { IsSync R.row × IsDistPassOf shop.now late.now.one.hand × IsDistPassOf shop.now late.now.two.hand × IsDistPassOf shop.now late.now.three.hand × IsDistPassOf shop.now late.now.four.hand × IsAtRest late.now.one.hand × IsAtRest late.now.two.hand × IsAtRest late.now.three.hand × IsAtRest late.now.four.hand × (length late.now.one.notes.items ≤ (dist_view late.now.one.hand).quota) × (length late.now.two.notes.items ≤ (dist_view late.now.two.hand).quota) × (length late.now.three.notes.items ≤ (dist_view late.now.three.hand).quota) × (length late.now.four.notes.items ≤ (dist_view late.now.four.hand).quota) }
            ensures { IsDistPassOf shop.entry.now late.exit.now.one.hand × IsDistPassOf shop.entry.now late.exit.now.two.hand × IsDistPassOf shop.entry.now late.exit.now.three.hand × IsDistPassOf shop.entry.now late.exit.now.four.hand × IsAtRest late.exit.now.one.hand × IsAtRest late.exit.now.two.hand × IsAtRest late.exit.now.three.hand × IsAtRest late.exit.now.four.hand }
        { serve_team(rt, shop, late) },
    );
}

fn notes<R: AllocGlobal>(rt: &R, count: u64) -> Result<Vec<Note>, AllocError>
    ensures { IfOk result (λ v. length v.items ≡ count) }
{
    vec![in rt.alloc(); no_note(); count as usize]
}

/// The notes of four clerks.
type FourNotes = (Vec<Note>, Vec<Note>, Vec<Note>, Vec<Note>);

fn four_notes<R: AllocGlobal>(rt: &R, count: u64) -> Result<FourNotes, AllocError>
    ensures { IfOk result (λ v. (length v.0.items ≡ count) × (length v.1.items ≡ count) × (length v.2.items ≡ count) × (length v.3.items ≡ count)) }
{
    Ok((
        notes(rt, count)?,
        notes(rt, count)?,
        notes(rt, count)?,
        notes(rt, count)?,
    ))
}

// A clerk gets a pass of its own.
fn hire(shop: &Shop, hand: &mut Hand, notes: Vec<Note>) -> Clerk
    requires own { IsDistPassOf shop.now hand.old }
    requires idle { IsAtRest hand.old }
    requires fits { (1 ≤ (dist_view hand.old).spare) × (length notes.items ≤ (dist_view hand.old).quota) }
    ensures own { IsDistPassOf shop.now hand.new × IsDistPassOf shop.now result.hand }
    ensures idle { IsAtRest hand.new × IsAtRest result.hand }
    ensures left { ((dist_view hand.new).spare + 1 ≡ (dist_view hand.old).spare) × ((dist_view hand.new).quota + length notes.items ≡ (dist_view hand.old).quota) }
    ensures quota { length result.notes.items ≤ (dist_view result.hand).quota }
{
    let hand = shop.split(hand, 1, notes.len() as u64);
    Clerk { hand, notes }
}

// Four clerks get passes of their own, and so many notes each.
fn hire_team(shop: &Shop, hand: &mut Hand, notes: FourNotes, count: u64) -> Team
    requires own { IsDistPassOf shop.now hand.old }
    requires idle { IsAtRest hand.old }
    requires notes { (length notes.0.items ≡ count) × (length notes.1.items ≡ count) × (length notes.2.items ≡ count) × (length notes.3.items ≡ count) }
    requires fits { (4 ≤ (dist_view hand.old).spare) × (4 * count ≤ (dist_view hand.old).quota) }
    ensures own { IsDistPassOf shop.now hand.new × IsDistPassOf shop.now result.one.hand × IsDistPassOf shop.now result.two.hand × IsDistPassOf shop.now result.three.hand × IsDistPassOf shop.now result.four.hand }
    ensures idle { IsAtRest hand.new × IsAtRest result.one.hand × IsAtRest result.two.hand × IsAtRest result.three.hand × IsAtRest result.four.hand }
    ensures left { ((dist_view hand.new).spare + 4 ≡ (dist_view hand.old).spare) × ((dist_view hand.new).quota + 4 * count ≡ (dist_view hand.old).quota) }
    ensures quota { (length result.one.notes.items ≤ (dist_view result.one.hand).quota) × (length result.two.notes.items ≤ (dist_view result.two.hand).quota) }
    ensures quota_too { (length result.three.notes.items ≤ (dist_view result.three.hand).quota) × (length result.four.notes.items ≤ (dist_view result.four.hand).quota) }
{
    let (first, second, third, fourth) = notes;
    Team {
        one: hire(shop, hand, first),
        two: hire(shop, hand, second),
        three: hire(shop, hand, third),
        four: hire(shop, hand, fourth),
    }
}

// Each note goes to the position of its answer. Whether these positions rise.
fn gather(table: &mut Vec<Note>, notes: &[Note]) -> bool {
    let mut next = 0;
    let mut rises = true;
    for note in notes {
        rises = rises && next <= note.at;
        next = note.at.saturating_add(1);
        if let Some(place) = table.get_mut(note.at as usize) {
            *place = *note;
        }
    }
    rises
}

// A clerk's notes go to their positions, and its pass goes back.
fn dismiss(shop: &Shop, hand: &mut Hand, clerk: Clerk, table: &mut Vec<Note>) -> bool
    requires own { IsDistPassOf shop.now hand.old × IsDistPassOf shop.now clerk.hand }
    requires idle { IsAtRest hand.old × IsAtRest clerk.hand }
    ensures own { IsDistPassOf shop.now hand.new }
    ensures idle { IsAtRest hand.new }
{
    let rises = gather(table, clerk.notes.as_slice());
    shop.join(hand, clerk.hand);
    rises
}

// The same for four clerks. Whether the positions of each rise.
fn dismiss_team(shop: &Shop, hand: &mut Hand, team: Team, table: &mut Vec<Note>) -> bool
    requires own { IsDistPassOf shop.now hand.old × IsDistPassOf shop.now team.one.hand × IsDistPassOf shop.now team.two.hand × IsDistPassOf shop.now team.three.hand × IsDistPassOf shop.now team.four.hand }
    requires idle { IsAtRest hand.old × IsAtRest team.one.hand × IsAtRest team.two.hand × IsAtRest team.three.hand × IsAtRest team.four.hand }
    ensures own { IsDistPassOf shop.now hand.new }
    ensures idle { IsAtRest hand.new }
{
    let Team {
        one,
        two,
        three,
        four,
    } = team;
    let first = dismiss(shop, hand, one, table);
    let second = dismiss(shop, hand, two, table);
    let third = dismiss(shop, hand, three, table);
    let fourth = dismiss(shop, hand, four, table);
    first && second && third && fourth
}

// The balance at the end, where each position has a job whose answer is the one that a plain number gives.
fn replay(table: &[Note], first: u64) -> Option<u64> {
    let mut balance = first;
    for note in table {
        let expected = match note.change {
            Change::Add(amount) => Ok(balance.saturating_add(amount)),
            Change::Subtract(amount) => {
                if balance < amount {
                    Err(balance)
                } else {
                    Ok(balance - amount)
                }
            }
        };
        if !note.asked || note.result != expected {
            return None;
        }
        balance = expected.unwrap_or(balance);
    }
    Some(balance)
}

fn a_till(jobs: u64) -> Till
    ensures { result.left ≡ jobs }
{
    Till {
        balance: 100,
        left: jobs,
    }
}

// The lock is closed. Each position of the table has the answer that a plain number gives, and so the balance is right.
fn settle_up<A: Abort>(rt: &A, shop: Shop, hand: Hand, table: &[Note])
    requires own { IsDistPassOf shop hand }
    requires idle { IsAtRest hand }
{
    let kept = closed(rt, shop, hand);
    assert!(rt; kept.ran == table.len() as u64 && kept.value.left == 0);
    assert!(rt; replay(table, 100) == Some(kept.value.balance));
}

#[test]
fn four_threads_change_money(rt: HostRuntime) -> Result<(), Fail> {
    let mut table = notes(&rt, 1200)?;
    let own = four_notes(&rt, 300)?;
    let (shop, mut hand) = Shop::make(rt.alloc(), 5, 1200, 8, a_till(1200))?;
    let mut team = hire_team(&shop, &mut hand, own, 300);
    serve_team(&rt, &shop, &mut team);
    assert!(rt; dismiss_team(&shop, &mut hand, team, &mut table));
    settle_up(&rt, shop, hand, table.as_slice());
    Ok(())
}

#[test]
fn eight_threads_change_money(rt: HostRuntime) -> Result<(), Fail> {
    let mut table = notes(&rt, 800)?;
    let (first, second) = (four_notes(&rt, 100)?, four_notes(&rt, 100)?);
    let (shop, mut hand) = Shop::make(rt.alloc(), 9, 800, 2, a_till(800))?;
    let mut early = hire_team(&shop, &mut hand, first, 100);
    let mut late = hire_team(&shop, &mut hand, second, 100);
    serve_teams(&rt, &shop, &mut early, &mut late);
    assert!(rt; dismiss_team(&shop, &mut hand, early, &mut table));
    assert!(rt; dismiss_team(&shop, &mut hand, late, &mut table));
    settle_up(&rt, shop, hand, table.as_slice());
    Ok(())
}
