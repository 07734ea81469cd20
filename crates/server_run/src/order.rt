//! The order of a log's lines.
ghost use Rattle.std.specs.Prelude.{◌≡◌, ◌+◌, ◌<◌, ◌≤◌, ◌++◌, ◌^◌, [], length, sum_by, get_or, take, drop, vec_capacity, IsPermutation, IsSorted};
ghost use Rattle.std.specs.List.{AllByRecursion};
ghost use Rattle.query_rules.specs.Log.{IsOrder, spots_of, spots_from};
ghost use Rattle.query_rules.specs.Log as log;
ghost use Rattle.query_text.specs.Packed.{spots_in, packed_cmp, HasPackedKey, IsPackable};
ghost use Rattle.query_text.specs.declared.packed.TheConstants.{SPOT_CALLERS, SPOT_INDEXES};

use crate::reserved::push_reserved;
use query_text::{KeptReply, Outcome, PackedSpot, Reply, Section};

/// The spots of all replies in the order of the log: those of the map lines, then those of the job lines. They are put
/// into `room`, an empty list that was reserved for all replies, so the call takes no memory. It takes the time of two
/// sorts, and doesn't look for job lines where each reply has a map line.
pub fn order_of(room: Vec<PackedSpot>, outcome: &Outcome) -> Vec<PackedSpot>
    requires empty { room.items ≡ [] }
    requires room { sum_by length outcome.now ≤ vec_capacity room }
    requires packable { IsPackable outcome.now }
    ensures { IsOrder outcome.now (spots_in result.items) }
{
    let mut order = room;
    add_section(&mut order, Section::Maps, outcome);
    let placed = order.len();
    order.sort_unstable();
    if placed < count_replies(outcome) {
        add_section(&mut order, Section::Jobs, outcome);
        sort_from(&mut order, placed);
    }
    order
}

// How many replies there are.
fn count_replies(outcome: &Outcome) -> usize
    requires few { sum_by length outcome.now ≤ SPOT_INDEXES }
    ensures { result ≡ sum_by length outcome.now }
{
    let mut count = 0;
    for caller in 0..outcome.count() {
        count += outcome.replies(caller).len();
    }
    count
}

// Sorts what stands from there on.
fn sort_from(spots: &mut [PackedSpot], from: usize)
    requires { from ≤ length spots.old }
    ensures front { take from spots.new ≡ take from spots.old }
    ensures each { IsPermutation (drop from spots.old) (drop from spots.new) }
    ensures sorted { IsSorted packed_cmp (drop from spots.new) }
    ensures len { length spots.new ≡ length spots.old }
{
    let (_, rest) = spots.split_at_mut(from);
    rest.sort_unstable();
}

// Adds the spots of a section, by caller and index.
fn add_section(spots: &mut Vec<PackedSpot>, section: Section, outcome: &Outcome)
    requires room { length spots.old.items + length (spots_of section 0 outcome.now) ≤ vec_capacity spots.old }
    requires packable { IsPackable outcome.now }
    ensures spots { spots_in spots.new.items ≡ spots_in spots.old.items ++ spots_of section 0 outcome.now }
    ensures room { vec_capacity spots.old ≤ vec_capacity spots.new }
{
    for caller in 0..outcome.count() {
        add_spots(spots, section, caller, outcome.replies(caller));
    }
}

// What orders a reply in a section, where it stands there.
fn key_in(section: Section, reply: &KeptReply) -> Option<u64>
    ensures { result ≡ log.key_in section reply.now }
{
    match (section, reply.reply()) {
        (Section::Maps, Reply::Placed { place, .. }) => Some(place),
        (Section::Jobs, Reply::Job { at, .. }) => Some(at),
        _ => None,
    }
}

// Adds the spots of one caller's replies.
fn add_spots(spots: &mut Vec<PackedSpot>, section: Section, caller: u64, replies: &[KeptReply])
    requires room { length spots.old.items + length (spots_from section caller 0 replies.now) ≤ vec_capacity spots.old }
    requires caller { caller < SPOT_CALLERS }
    requires few { length replies.now ≤ SPOT_INDEXES }
    requires keys { AllByRecursion HasPackedKey replies.now }
    ensures spots { spots_in spots.new.items ≡ spots_in spots.old.items ++ spots_from section caller 0 replies.now }
    ensures room { vec_capacity spots.old ≤ vec_capacity spots.new }
{
    let mut index = 0;
    let mut rest = replies;
    while let [reply, after @ ..] = rest {
        if let Some(key) = key_in(section, reply) {
            push_reserved(spots, PackedSpot::of(key, caller, index));
        }
        index += 1;
        rest = after;
    }
}
