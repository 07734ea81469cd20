//! What the replies to a soak sum up to.
ghost use Rattle.std.specs.Prelude.{◌≡◌, ◌≤◌, ◌<◌, ◌+◌, ◌^◌, length, sum_by, zip};
ghost use Rattle.std.specs.List.{AllZip};
ghost use Rattle.query_rules.specs.History.{IsHistory, AnswersEachOnce, entries};
ghost use Rattle.query_rules.specs.Log.{is_counted};
ghost use Rattle.query_rules.specs.Soak.{soak_script, soak_totals};
ghost use Rattle.query_rules.specs.declared.query.Total.TheVariants as total;
ghost use Rattle.soak_laws.specs.Totals as laws;
ghost use Rattle.query_rules.specs.declared.query.TheConstants.{MOST_QUERIES};

use query_text::{KeptReply, Outcome, Query, Reply, Script, Totals};
use soak_laws::a_soak_has_one_summary;

/// What the replies to the soak of `count` queries come to: their counts, the sum of what was added to the maps, and
/// the sum of what was given to the ledger. In every history of the script these are its totals, and the values of its
/// maps and of its ledger at the end have the same sums.
///
/// It goes over the replies twice, and takes no memory.
pub fn sum_up(count: u64, script: &Script, outcome: &Outcome) -> Totals
    requires count { count ≤ MOST_QUERIES }
    requires script { script.now ≡ soak_script count }
    requires history { IsHistory 16 script.now.callers outcome.now }
    ensures { result ≡ soak_totals count }
{
    a_soak_has_one_summary();
    let counts = outcome.totals();
    let sums = Sums::of(script, outcome);
    Totals {
        queries: counts.queries,
        writes: counts.writes,
        reads: counts.reads,
        refused: counts.refused,
        jobs: counts.jobs,
        sum: sums.maps,
        ledger: sums.ledger,
    }
}

// What was added to the maps, and what was given to the ledger.
#[derive(Drop)]
struct Sums {
    maps: u128,
    ledger: u128,
}

impl Sums {
    // Of all replies.
    fn of(script: &Script, outcome: &Outcome) -> Self
        requires once { AllZip AnswersEachOnce script.now.callers outcome.now }
        requires maps { sum_by laws.told_delta (entries script.now.callers outcome.now) < 2 ^ 128 }
        requires ledger { sum_by laws.told_gift (entries script.now.callers outcome.now) < 2 ^ 128 }
        ensures maps { result.maps ≡ sum_by laws.told_delta (entries script.now.callers outcome.now) }
        ensures ledger { result.ledger ≡ sum_by laws.told_gift (entries script.now.callers outcome.now) }
    {
        let callers = script.callers();
        let mut sums = Sums { maps: 0, ledger: 0 };
        for caller in 0..callers.count() {
            sums.add_all(callers.queries(caller), outcome.replies(caller));
        }
        sums
    }

    // Adds what the replies to one caller tell.
    fn add_all(&mut self, queries: &[Query], replies: &[KeptReply])
        requires long { length replies.now ≡ length queries.now }
        requires maps { self.old.maps + sum_by laws.told_delta (zip queries.now replies.now) < 2 ^ 128 }
        requires ledger { self.old.ledger + sum_by laws.told_gift (zip queries.now replies.now) < 2 ^ 128 }
        ensures maps { self.new.maps ≡ self.old.maps + sum_by laws.told_delta (zip queries.now replies.now) }
        ensures ledger { self.new.ledger ≡ self.old.ledger + sum_by laws.told_gift (zip queries.now replies.now) }
    {
        for i in 0..queries.len() {
            self.add(&queries[i], replies[i].reply());
        }
    }

    // Adds what one reply tells.
    fn add(&mut self, query: &Query, reply: Reply)
        requires maps { self.old.maps + laws.told_delta (query.now, reply) < 2 ^ 128 }
        requires ledger { self.old.ledger + laws.told_gift (query.now, reply) < 2 ^ 128 }
        ensures maps { self.new.maps ≡ self.old.maps + laws.told_delta (query.now, reply) }
        ensures ledger { self.new.ledger ≡ self.old.ledger + laws.told_gift (query.now, reply) }
    {
        self.maps += u128::from(told_delta(query, reply));
        self.ledger += u128::from(told_gift(query, reply));
    }
}

// What a reply tells of an addition: its delta, where it was written.
fn told_delta(query: &Query, reply: Reply) -> u64
    ensures { result ≡ laws.told_delta (query.now, reply) }
{
    if is_write(reply) { delta_of(query) } else { 0 }
}

// What a reply tells of a gift: its amount, where the ledger answered.
fn told_gift(query: &Query, reply: Reply) -> u64
    ensures { result ≡ laws.told_gift (query.now, reply) }
{
    if is_job(reply) { gift_of(query) } else { 0 }
}

fn is_write(reply: Reply) -> bool
    ensures { result ≡ is_counted total.Writes reply }
{
    match reply {
        Reply::Placed { place, .. } => place % 2 == 1,
        Reply::Busy | Reply::Late { .. } | Reply::Job { .. } => false,
    }
}

fn is_job(reply: Reply) -> bool
    ensures { result ≡ is_counted total.Jobs reply }
{
    match reply {
        Reply::Job { .. } => true,
        Reply::Placed { .. } | Reply::Busy | Reply::Late { .. } => false,
    }
}

fn delta_of(query: &Query) -> u64
    ensures { result ≡ laws.delta_of query.now }
{
    match *query {
        Query::Add { delta, .. } => delta,
        _ => 0,
    }
}

fn gift_of(query: &Query) -> u64
    ensures { result ≡ laws.gift_of query.now }
{
    match *query {
        Query::Give { n, .. } => n,
        _ => 0,
    }
}
