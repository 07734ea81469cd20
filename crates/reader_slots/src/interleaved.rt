//! Every interleaving of two readers and a writer at one lock over two slots, step by step beside a plain table.
//!
//! Each of the three goes from phase to phase, by one step of the hall at a time, and each order of their steps is
//! played from the start, with the lock's may-defer bit set. Where a step answers yes, as an exchange that succeeded or
//! a slot that names the lock, it goes on to one phase, and else to another:
//!
//! | Phase of a reader | Its next step | yes | no |
//! |---|---|---|---|
//! | tries the first slot | places a token there | undecided | tries the second |
//! | tries the second slot | places a token there | undecided | over |
//! | undecided | looks at the lock's word | inside | kept out |
//! | kept out | takes its token back | over | owes a unit |
//! | inside | leaves its slot | over | inside by the count |
//! | owes a unit, or inside by the count | lowers the count | over | |
//!
//! | Phase of the writer | Its next step | yes | no |
//! |---|---|---|---|
//! | outside | announces itself: readers no longer defer | sweeps the first slot | |
//! | sweeps a slot | looks at it | finds a token | sweeps the next, or swept |
//! | finds a token | takes it into its hand | sweeps the next, or swept | the same |
//! | swept | adds its hand to the count | tries to finish | |
//! | tries to finish | takes the lock | holds | refused |
//! | refused | takes its announcement back | over | |
//! | holds | gives the lock back | over | |
//!
//! The table says what each step has to answer, and which bits and which count the lock's word has after it. The numbers
//! of ways were counted apart from this code. A way is compared from the step on with which it leaves the way before it.
ghost use Rattle.std.specs.Prelude.{◌≡◌, ◌<◌, false};
ghost use Rattle.hall.specs.Passes.{view, IsPassOf, shape_of};
ghost use Rattle.hall.specs.Views.{standing};
ghost use Rattle.hall.specs.declared.view.Standing.TheVariants.{Away, Slotted, Undecided, Announcing};

use crate::tests::let_defer;
use crate::{Checked, check};
use hall::view::Standing;
use hall::{Hall, NoCargo, Pass, Policy, Word};
use std::process::Abort;

// Both readers try slot 0 first.
const SLOTS: usize = 2;

// Five steps of each reader but one, which finds the first slot free, and eight of the writer.
const LONGEST: usize = 17;

const WAYS: u32 = 671_152;

// Ways on which a reader was inside, on which the writer held the lock, and on which there was both.
const INSIDE_HELD_BOTH: (u32, u32, u32) = (116_944, 137_312, 20_636);

/// One step at the hall.
#[derive(Clone, Copy, Debug, PartialEq, Eq)]
enum Event {
    Place { slot: u64 },
    Check,
    TakeBack { slot: u64 },
    LeaveSlot { slot: u64 },
    Lower,
    Announce,
    Look { slot: u64 },
    Pick { slot: u64 },
    AddHand,
    Hold,
    Retract,
    Release,
}

#[derive(Clone, Copy, Debug, PartialEq, Eq)]
enum Phase {
    TriesFirst,
    TriesSecond,
    Undecided { slot: u64 },
    KeptOut { slot: u64 },
    Inside { slot: u64 },
    InsideByCount,
    Owes,
    Outside,
    Sweeps { slot: u64 },
    Finds { slot: u64 },
    Swept,
    Finishes,
    Refused,
    Holds,
    Over,
}

/// The next step of a phase, and where it leads.
#[derive(Clone, Copy)]
struct Row {
    event: Event,
    yes: Phase,
    no: Phase,
}

fn either(event: Event, yes: Phase, no: Phase) -> Option<Row> {
    Some(Row { event, yes, no })
}

// A step that has one outcome.
fn always(event: Event, next: Phase) -> Option<Row> {
    either(event, next, next)
}

impl Phase {
    // The table.
    fn next(self) -> Option<Row> {
        match self {
            Phase::TriesFirst => either(
                Event::Place { slot: 0 },
                Phase::Undecided { slot: 0 },
                Phase::TriesSecond,
            ),
            Phase::TriesSecond => either(
                Event::Place { slot: 1 },
                Phase::Undecided { slot: 1 },
                Phase::Over,
            ),
            Phase::Undecided { slot } => either(
                Event::Check,
                Phase::Inside { slot },
                Phase::KeptOut { slot },
            ),
            Phase::KeptOut { slot } => either(Event::TakeBack { slot }, Phase::Over, Phase::Owes),
            Phase::Inside { slot } => either(
                Event::LeaveSlot { slot },
                Phase::Over,
                Phase::InsideByCount,
            ),
            Phase::InsideByCount | Phase::Owes => always(Event::Lower, Phase::Over),
            Phase::Outside => always(Event::Announce, Phase::Sweeps { slot: 0 }),
            Phase::Sweeps { slot } => either(
                Event::Look { slot },
                Phase::Finds { slot },
                Phase::past(slot),
            ),
            Phase::Finds { slot } => always(Event::Pick { slot }, Phase::past(slot)),
            Phase::Swept => always(Event::AddHand, Phase::Finishes),
            Phase::Finishes => either(Event::Hold, Phase::Holds, Phase::Refused),
            Phase::Refused => always(Event::Retract, Phase::Over),
            Phase::Holds => always(Event::Release, Phase::Over),
            Phase::Over => None,
        }
    }

    // A sweep goes on to the other slot, and then has swept.
    fn past(slot: u64) -> Phase {
        if slot == 0 {
            Phase::Sweeps { slot: 1 }
        } else {
            Phase::Swept
        }
    }

    fn is_inside(self) -> bool {
        matches!(self, Phase::Inside { .. } | Phase::InsideByCount)
    }

    // It has placed a token, and hasn't given a unit back since.
    fn has_unit(self) -> bool {
        self.is_inside()
            || matches!(
                self,
                Phase::Undecided { .. } | Phase::KeptOut { .. } | Phase::Owes
            )
    }
}

/// What there was on a way.
#[derive(Clone, Copy)]
struct Met {
    reader_inside: bool,
    writer_held: bool,
}

/// The lock in plain words. Its units stand in slots, in the writer's hand and in the count.
#[derive(Clone, Copy)]
struct Plain {
    tokens: [bool; SLOTS],
    hand: i32,
    count: i32,
    may_defer: bool,
    begun: bool,
    held: bool,
    met: Met,
}

fn index(slot: u64) -> usize
    ensures { result < 2 }
{
    (slot % 2) as usize
}

impl Event {
    fn is_of_writer(self) -> bool {
        matches!(
            self,
            Event::Announce
                | Event::Look { .. }
                | Event::Pick { .. }
                | Event::AddHand
                | Event::Hold
                | Event::Retract
                | Event::Release
        )
    }
}

impl Plain {
    // Nobody is there, and readers may defer.
    fn new() -> Plain {
        Plain {
            tokens: [false; SLOTS],
            hand: 0,
            count: 0,
            may_defer: true,
            begun: false,
            held: false,
            met: Met {
                reader_inside: false,
                writer_held: false,
            },
        }
    }

    // Says whether the slot had a token. It has none afterwards.
    fn clear(&mut self, slot: u64) -> bool {
        let had = self.tokens[index(slot)];
        self.tokens[index(slot)] = false;
        had
    }

    // What a step of a reader has to answer.
    fn by_reader(&mut self, event: Event) -> bool {
        match event {
            Event::Place { slot } => {
                let taken = self.tokens[index(slot)];
                self.tokens[index(slot)] = true;
                !taken
            }
            Event::Check => {
                self.met.reader_inside = self.met.reader_inside || self.may_defer;
                self.may_defer
            }
            Event::TakeBack { slot } | Event::LeaveSlot { slot } => self.clear(slot),
            _ => {
                self.count = self.count.wrapping_sub(1);
                true
            }
        }
    }

    // What a step of the writer has to answer.
    fn by_writer(&mut self, event: Event) -> bool {
        match event {
            Event::Announce => (self.may_defer, self.begun) = (false, true),
            Event::Look { slot } => return self.tokens[index(slot)],
            Event::Pick { slot } => {
                let had = self.clear(slot);
                self.hand = self.hand.wrapping_add(i32::from(had));
                return had;
            }
            Event::AddHand => {
                self.count = self.count.wrapping_add(self.hand);
                self.hand = 0;
            }
            Event::Hold => {
                if self.count != 0 {
                    return false;
                }
                (self.begun, self.held) = (false, true);
                self.met.writer_held = true;
            }
            Event::Retract => (self.may_defer, self.begun) = (true, false),
            _ => self.held = false,
        }
        true
    }

    // What a step has to answer.
    fn answers(&mut self, event: Event) -> bool {
        if event.is_of_writer() {
            self.by_writer(event)
        } else {
            self.by_reader(event)
        }
    }

    // At the end all is as at the start, but for the may-defer bit.
    fn ends<A: Abort>(&self, rt: &A) {
        assert_eq!(rt; self.tokens, [false; SLOTS]);
        assert_eq!(rt; (self.hand, self.count), (0, 0));
        assert_eq!(rt; (self.begun, self.held), (false, false));
    }

    // No writer is beside a reader, and each reader's unit stands in one place.
    fn adds_up<A: Abort>(&self, rt: &A, phases: [Phase; 3]) {
        let units = phases.iter().filter(|phase| phase.has_unit()).count();
        let tokens = self.tokens.iter().filter(|token| **token).count();
        let others = usize::try_from(self.count.wrapping_add(self.hand)).ok();
        assert_eq!(rt; others, units.checked_sub(tokens), "{phases:?}");
        assert!(rt;
            !self.held || !phases.iter().any(|phase| phase.is_inside()),
            "{phases:?}"
        );
    }

    // The word has these bits and this count.
    fn shows<A: Abort>(&self, rt: &A, word: Word) {
        assert_eq!(rt; word.count(), self.count);
        assert_eq!(rt; word.may_defer(), self.may_defer);
        assert_eq!(rt; word.begun(), self.begun);
        assert_eq!(rt; word.held(), self.held);
        assert!(rt; !word.upgrade());
    }
}

/// One of the three, between two steps: its phase by the table, and where its pass stands.
#[derive(Clone, Copy)]
struct Actor {
    phase: Phase,
    standing: Standing,
}

impl Actor {
    fn at(phase: Phase) -> Actor
        ensures { result.standing ≡ Away }
    {
        Actor {
            phase,
            standing: Standing::Away,
        }
    }
}

// A reader places a token in a slot. Whether it did, and where that leaves the pass; so of each step below.
fn place_step<A: Abort>(
    rt: &A,
    hall: &Hall<NoCargo>,
    pass: &mut Pass<NoCargo>,
    slot: u64,
) -> (bool, Standing)
    requires pass { IsPassOf hall.now pass.old × (standing (view pass.old) 0 ≡ Away) }
    requires lock { (shape_of hall.now).locks ≡ 1 }
    ensures pass { IsPassOf hall.now pass.new }
    ensures stands { standing (view pass.new) 0 ≡ result.1 }
{
    if slot >= hall.slots() {
        rt.abort()
    }
    match hall.place_slot(pass, 0, slot) {
        Ok(()) => (true, Standing::Undecided(slot)),
        Err(_) => (false, Standing::Away),
    }
}

// An undecided reader takes its token back, or owes a unit.
fn take_back_step<A: Abort>(
    rt: &A,
    hall: &Hall<NoCargo>,
    pass: &mut Pass<NoCargo>,
    slot: u64,
) -> (bool, Standing)
    requires pass { IsPassOf hall.now pass.old × (standing (view pass.old) 0 ≡ Undecided slot) }
    requires lock { (shape_of hall.now).locks ≡ 1 }
    ensures pass { IsPassOf hall.now pass.new }
    ensures stands { standing (view pass.new) 0 ≡ result.1 }
{
    if slot >= hall.slots() {
        rt.abort()
    }
    if hall.withdraw_slot(pass, 0, slot) {
        (true, Standing::Away)
    } else {
        (false, Standing::Owing)
    }
}

// A reader inside leaves its slot, or finds that its unit is in the count.
fn leave_step<A: Abort>(
    rt: &A,
    hall: &Hall<NoCargo>,
    pass: &mut Pass<NoCargo>,
    slot: u64,
) -> (bool, Standing)
    requires pass { IsPassOf hall.now pass.old × (standing (view pass.old) 0 ≡ Slotted slot) }
    requires lock { (shape_of hall.now).locks ≡ 1 }
    ensures pass { IsPassOf hall.now pass.new }
    ensures stands { standing (view pass.new) 0 ≡ result.1 }
{
    if slot >= hall.slots() {
        rt.abort()
    }
    if hall.leave_slot(pass, 0, slot) {
        (true, Standing::Away)
    } else {
        (false, Standing::Inline)
    }
}

// Makes a reader's step at the hall.
fn read_step<A: Abort>(
    rt: &A,
    hall: &Hall<NoCargo>,
    pass: &mut Pass<NoCargo>,
    stands: Standing,
    event: Event,
) -> (bool, Standing)
    requires pass { IsPassOf hall.now pass.old × (standing (view pass.old) 0 ≡ stands) }
    requires lock { (shape_of hall.now).locks ≡ 1 }
    ensures pass { IsPassOf hall.now pass.new }
    ensures stands { standing (view pass.new) 0 ≡ result.1 }
{
    match (event, stands) {
        (Event::Place { slot }, Standing::Away) => place_step(rt, hall, pass, slot),
        (Event::Check, Standing::Undecided(slot)) => match check(hall, pass, 0) {
            Checked::Inside => (true, Standing::Slotted(slot)),
            Checked::NotInside { word: _ } => (false, Standing::Undecided(slot)),
        },
        (Event::TakeBack { slot: named }, Standing::Undecided(slot)) if named == slot => {
            take_back_step(rt, hall, pass, slot)
        }
        (Event::LeaveSlot { slot: named }, Standing::Slotted(slot)) if named == slot => leave_step(
            rt, hall, pass, slot,
        ),
        (Event::Lower, Standing::Inline | Standing::Owing) => {
            hall.lower(pass, 0);
            (true, Standing::Away)
        }
        _ => rt.abort(),
    }
}

fn announcing(place: u64, hand: u64) -> Standing
    ensures { result ≡ Announcing place hand false }
{
    Standing::Announcing {
        place,
        hand,
        from_upgrade: false,
    }
}

// The writer is announced, beside nobody that the word shows.
fn announce_step<A: Abort>(
    rt: &A,
    hall: &Hall<NoCargo>,
    pass: &mut Pass<NoCargo>,
) -> (bool, Standing)
    requires pass { IsPassOf hall.now pass.old × (standing (view pass.old) 0 ≡ Away) }
    requires lock { (shape_of hall.now).locks ≡ 1 }
    ensures pass { IsPassOf hall.now pass.new }
    ensures stands { standing (view pass.new) 0 ≡ result.1 }
{
    if hall.announce(pass, 0, Word(1)).is_err() {
        rt.abort()
    }
    (true, announcing(0, 0))
}

// The sweep looks at a slot, and goes on unless that names the lock.
fn look_step<A: Abort>(
    rt: &A,
    hall: &Hall<NoCargo>,
    pass: &mut Pass<NoCargo>,
    slot: u64,
    hand: u64,
) -> (bool, Standing)
    requires pass { IsPassOf hall.now pass.old × (standing (view pass.old) 0 ≡ Announcing slot hand false) }
    requires lock { (shape_of hall.now).locks ≡ 1 }
    ensures pass { IsPassOf hall.now pass.new }
    ensures stands { standing (view pass.new) 0 ≡ result.1 }
{
    if slot >= hall.slots() {
        rt.abort()
    }
    let found = hall.look(pass, 0, slot);
    if found == 1 {
        let stays = announcing(slot, hand);
        (true, stays)
    } else {
        let goes_on = announcing(slot + 1, hand);
        (false, goes_on)
    }
}

// It takes the token there into its hand, and goes on.
fn pick_step<A: Abort>(
    rt: &A,
    hall: &Hall<NoCargo>,
    pass: &mut Pass<NoCargo>,
    slot: u64,
    hand: u64,
) -> (bool, Standing)
    requires pass { IsPassOf hall.now pass.old × (standing (view pass.old) 0 ≡ Announcing slot hand false) }
    requires lock { (shape_of hall.now).locks ≡ 1 }
    ensures pass { IsPassOf hall.now pass.new }
    ensures stands { standing (view pass.new) 0 ≡ result.1 }
{
    if slot >= hall.slots() || hand > slot {
        rt.abort()
    }
    if hall.pick(pass, 0, slot) {
        let has_more = announcing(slot + 1, hand + 1);
        (true, has_more)
    } else {
        let goes_on = announcing(slot + 1, hand);
        (false, goes_on)
    }
}

// A writer that has swept adds its hand to the count.
fn add_step(
    hall: &Hall<NoCargo>,
    pass: &mut Pass<NoCargo>,
    place: u64,
    hand: u64,
) -> (bool, Standing)
    requires pass { IsPassOf hall.now pass.old × (standing (view pass.old) 0 ≡ Announcing place hand false) }
    requires lock { (shape_of hall.now).locks ≡ 1 }
    ensures pass { IsPassOf hall.now pass.new }
    ensures stands { standing (view pass.new) 0 ≡ result.1 }
{
    hall.add_hand(pass, 0, hand);
    let empty = announcing(place, 0);
    (true, empty)
}

// An announced writer tries to take the lock.
fn hold_step<A: Abort>(
    rt: &A,
    hall: &Hall<NoCargo>,
    pass: &mut Pass<NoCargo>,
    place: u64,
    hand: u64,
) -> (bool, Standing)
    requires pass { IsPassOf hall.now pass.old × (standing (view pass.old) 0 ≡ Announcing place hand false) }
    requires lock { (shape_of hall.now).locks ≡ 1 }
    ensures pass { IsPassOf hall.now pass.new }
    ensures stands { standing (view pass.new) 0 ≡ result.1 }
{
    if place != hall.slots() || hand != 0 {
        rt.abort()
    }
    match hall.hold(pass, 0) {
        Ok(()) => (true, Standing::Exclusive),
        Err(_) => (false, announcing(place, 0)),
    }
}

// Makes the step of an announced writer.
fn announced_step<A: Abort>(
    rt: &A,
    hall: &Hall<NoCargo>,
    pass: &mut Pass<NoCargo>,
    place: u64,
    hand: u64,
    event: Event,
) -> (bool, Standing)
    requires pass { IsPassOf hall.now pass.old × (standing (view pass.old) 0 ≡ Announcing place hand false) }
    requires lock { (shape_of hall.now).locks ≡ 1 }
    ensures pass { IsPassOf hall.now pass.new }
    ensures stands { standing (view pass.new) 0 ≡ result.1 }
{
    match event {
        Event::Look { slot } if slot == place => look_step(rt, hall, pass, place, hand),
        Event::Pick { slot } if slot == place => pick_step(rt, hall, pass, place, hand),
        Event::AddHand => add_step(hall, pass, place, hand),
        Event::Hold => hold_step(rt, hall, pass, place, hand),
        Event::Retract if hand == 0 => {
            hall.retract(pass, 0);
            (true, Standing::Away)
        }
        _ => rt.abort(),
    }
}

// Makes the writer's step.
fn write_step<A: Abort>(
    rt: &A,
    hall: &Hall<NoCargo>,
    pass: &mut Pass<NoCargo>,
    stands: Standing,
    event: Event,
) -> (bool, Standing)
    requires pass { IsPassOf hall.now pass.old × (standing (view pass.old) 0 ≡ stands) }
    requires lock { (shape_of hall.now).locks ≡ 1 }
    ensures pass { IsPassOf hall.now pass.new }
    ensures stands { standing (view pass.new) 0 ≡ result.1 }
{
    match stands {
        Standing::Away if event == Event::Announce => announce_step(rt, hall, pass),
        Standing::Exclusive if event == Event::Release => {
            hall.release(pass, 0);
            (true, Standing::Away)
        }
        Standing::Announcing {
            place,
            hand,
            from_upgrade,
        } if !from_upgrade => announced_step(rt, hall, pass, place, hand, event),
        _ => rt.abort(),
    }
}

// Makes a step of either.
fn make_step<A: Abort>(
    rt: &A,
    hall: &Hall<NoCargo>,
    pass: &mut Pass<NoCargo>,
    stands: Standing,
    event: Event,
) -> (bool, Standing)
    requires pass { IsPassOf hall.now pass.old × (standing (view pass.old) 0 ≡ stands) }
    requires lock { (shape_of hall.now).locks ≡ 1 }
    ensures pass { IsPassOf hall.now pass.new }
    ensures stands { standing (view pass.new) 0 ≡ result.1 }
{
    if event.is_of_writer() {
        write_step(rt, hall, pass, stands, event)
    } else {
        read_step(rt, hall, pass, stands, event)
    }
}

// Compares the lock's word with the table, after a step that is new.
fn compare<A: Abort>(
    rt: &A,
    hall: &Hall<NoCargo>,
    pass: &mut Pass<NoCargo>,
    plain: &Plain,
    is_new: bool,
)
    requires pass { IsPassOf hall.now pass.old }
    requires lock { (shape_of hall.now).locks ≡ 1 }
    ensures pass { IsPassOf hall.now pass.new }
    ensures same { standing (view pass.new) 0 ≡ standing (view pass.old) 0 }
{
    if !is_new {
        return;
    }
    plain.shows(rt, hall.load(pass, 0));
}

// Plays one step, with the hall and with the table.
fn step<A: Abort>(
    rt: &A,
    hall: &Hall<NoCargo>,
    pass: &mut Pass<NoCargo>,
    actor: Actor,
    plain: &mut Plain,
    is_new: bool,
) -> Actor
    requires pass { IsPassOf hall.now pass.old × (standing (view pass.old) 0 ≡ actor.standing) }
    requires lock { (shape_of hall.now).locks ≡ 1 }
    ensures pass { IsPassOf hall.now pass.new }
    ensures stands { standing (view pass.new) 0 ≡ result.standing }
{
    let Some(Row { event, yes, no }) = actor.phase.next() else {
        rt.abort()
    };
    let (answer, standing) = make_step(rt, hall, pass, actor.standing, event);
    assert_eq!(rt; answer, plain.answers(event), "{event:?}");
    compare(rt, hall, pass, plain, is_new);
    let phase = if answer { yes } else { no };
    Actor { phase, standing }
}

#[derive(Clone, Copy, Debug, PartialEq, Eq)]
enum Who {
    One,
    Two,
    Writer,
}

/// Who has a step left to make.
#[derive(Clone, Copy)]
struct Left {
    one: bool,
    two: bool,
    writer: bool,
}

impl Left {
    fn of(phases: [Phase; 3]) -> Left {
        let [one, two, writer] = phases.map(|phase| phase != Phase::Over);
        Left { one, two, writer }
    }

    // The next of them after this one.
    fn after(self, who: Option<Who>) -> Option<Who> {
        match who {
            None if self.one => Some(Who::One),
            None | Some(Who::One) if self.two => Some(Who::Two),
            None | Some(Who::One | Who::Two) if self.writer => Some(Who::Writer),
            _ => None,
        }
    }
}

/// Whose step is next, and who could be in its place in a later way.
#[derive(Clone, Copy)]
struct Turn {
    who: Option<Who>,
    later: Option<Who>,
}

/// The way that is played. Its turns below `new_from` are those of the way before it.
#[derive(Clone, Copy)]
struct Path {
    turns: [Turn; LONGEST],
    new_from: usize,
}

impl Path {
    fn new() -> Path {
        let nobody = Turn {
            who: None,
            later: None,
        };
        Path {
            turns: [nobody; LONGEST],
            new_from: 0,
        }
    }

    // Who makes this step: who is named for it, or the first who can.
    fn choose(&mut self, place: usize, phases: [Phase; 3]) -> Option<Who>
        requires { place < 17 }
    {
        let named = self.turns[place].who;
        if place < self.new_from {
            return named;
        }
        let left = Left::of(phases);
        let who = match named {
            Some(who) => Some(who),
            None => left.after(None),
        };
        let later = left.after(who);
        self.turns[place] = Turn { who, later };
        who
    }

    // Goes on to the next way: the last turn that can be another's is, and nobody is named behind it. False after the
    // last way.
    fn go_on(&mut self) -> bool {
        for place in (0..LONGEST).rev() {
            let later = self.turns[place].later;
            self.turns[place].who = later;
            if later.is_some() {
                self.new_from = place;
                return true;
            }
        }
        false
    }
}

// Plays a whole way from the start, at which readers may defer. Afterwards each is away.
fn play<A: Abort>(
    rt: &A,
    hall: &Hall<NoCargo>,
    one: &mut Pass<NoCargo>,
    two: &mut Pass<NoCargo>,
    writer: &mut Pass<NoCargo>,
    path: &mut Path,
) -> Met
    requires one { IsPassOf hall.now one.old × (standing (view one.old) 0 ≡ Away) }
    requires two { IsPassOf hall.now two.old × (standing (view two.old) 0 ≡ Away) }
    requires writer { IsPassOf hall.now writer.old × (standing (view writer.old) 0 ≡ Away) }
    requires lock { (shape_of hall.now).locks ≡ 1 }
    ensures one { IsPassOf hall.now one.new × (standing (view one.new) 0 ≡ Away) }
    ensures two { IsPassOf hall.now two.new × (standing (view two.new) 0 ≡ Away) }
    ensures writer { IsPassOf hall.now writer.new × (standing (view writer.new) 0 ≡ Away) }
{
    let mut plain = Plain::new();
    let mut first = Actor::at(Phase::TriesFirst);
    let mut second = Actor::at(Phase::TriesFirst);
    let mut third = Actor::at(Phase::Outside);
    for place in 0..LONGEST {
        let is_new = place >= path.new_from;
        match path.choose(place, [first.phase, second.phase, third.phase]) {
            Some(Who::One) => first = step(rt, hall, one, first, &mut plain, is_new),
            Some(Who::Two) => second = step(rt, hall, two, second, &mut plain, is_new),
            Some(Who::Writer) => third = step(rt, hall, writer, third, &mut plain, is_new),
            None => {}
        }
        if is_new {
            plain.adds_up(rt, [first.phase, second.phase, third.phase]);
        }
    }
    let (Standing::Away, Standing::Away, Standing::Away) = (
        first.standing,
        second.standing,
        third.standing,
    ) else {
        rt.abort()
    };
    plain.ends(rt);
    plain.met
}

// After a way on which the writer held the lock, readers don't defer, and have to be let.
fn begin_again<A: Abort>(rt: &A, hall: &Hall<NoCargo>, pass: &mut Pass<NoCargo>)
    requires pass { IsPassOf hall.now pass.old × (standing (view pass.old) 0 ≡ Away) }
    requires lock { (shape_of hall.now).locks ≡ 1 }
    ensures pass { IsPassOf hall.now pass.new × (standing (view pass.new) 0 ≡ Away) }
{
    if hall.load(pass, 0) == Word(1) {
        return;
    }
    let_defer(rt, hall, pass);
}

#[test]
fn every_interleaving(rt: HostRuntime) {
    let made = Hall::make(rt.alloc(), 1, 2, Policy::WritePriority, 3, 0, NoCargo);
    let Ok((hall, first)) = made else { rt.abort() };
    let mut writer = first;
    let mut two = hall.split(&mut writer, 1, 0);
    let mut one = hall.split(&mut writer, 1, 0);
    let mut path = Path::new();
    let (mut with_reader, mut with_writer, mut with_both) = (0u32, 0u32, 0u32);
    for way in 1..=WAYS {
        begin_again(&rt, &hall, &mut writer);
        let met = play(&rt, &hall, &mut one, &mut two, &mut writer, &mut path);
        with_reader = with_reader.wrapping_add(u32::from(met.reader_inside));
        with_writer = with_writer.wrapping_add(u32::from(met.writer_held));
        with_both = with_both.wrapping_add(u32::from(met.reader_inside && met.writer_held));
        assert_eq!(rt; path.go_on(), way < WAYS);
    }
    assert_eq!(rt; (with_reader, with_writer, with_both), INSIDE_HELD_BOTH);
}
