//! What a pass knows. No value of these types is made by the code: they are for the proofs.
use lock_model::Policy;
use std::collections::LinkedList;

/// What a pass has at one lock.
///
/// | Standing | What it means |
/// |---|---|
/// | `Away` | no mode, no announcement, no token, no unit to give back |
/// | `Inline` | holds shared; its unit is in the count |
/// | `Slotted` | holds shared; its unit is a token in a slot |
/// | `Undecided` | placed a token in a slot, and hasn't looked at the state word again |
/// | `Owing` | found its slot cleared: it owes a unit of the count |
/// | `Upgrade` | holds upgrade |
/// | `Exclusive` | holds exclusive |
/// | `Announcing` | announced as a writer |
#[derive(Clone, Copy)]
pub enum Standing {
    Away,
    Inline,
    Slotted(u64),
    Undecided(u64),
    Owing,
    Upgrade,
    Exclusive,
    Announcing {
        /// The slots below it were looked at.
        place: u64,
        /// Units that were taken out of slots and aren't in the count yet.
        hand: u64,
        from_upgrade: bool,
    },
}

/// The kinds of step.
#[derive(Clone, Copy)]
pub enum StepKind {
    Load,
    Enter,
    Lower,
    Announce,
    Hold,
    Retract,
    Release,
    UpgradeIn,
    UpgradeOut,
    UpgradeLower,
    Up,
    UpRetract,
    ExclusiveShared,
    ExclusiveUpgrade,
    PlaceSlot,
    Check,
    WithdrawSlot,
    LeaveSlot,
    Look,
    Pick,
    AddHand,
    LoadCargo,
    StoreCargo,
    AddCargo,
    Split,
    Join,
}

/// One step that was made.
#[derive(Clone, Copy)]
pub struct StepEntry {
    /// The number of the pass that made it.
    pub number: u64,
    pub kind: StepKind,
    /// The lock that it was made for, on its state word or on a slot. A step on a cargo word, a split and a join have 0.
    pub lock: u64,
    /// Which word of the table it was made on. A split and a join have 0.
    pub place: u64,
    /// The pass's standing at that lock before it. A step on a cargo word, a split and a join have `Away`.
    pub before: Standing,
    /// The word that it found; of a store, the word that it wrote.
    pub word: u64,
    /// It may have changed its word: false of a load and of an exchange that failed.
    pub won: bool,
}

/// A number was at a lock; `strong` where it was announced there or held upgrade or exclusive.
#[derive(Clone, Copy)]
pub struct Footprint {
    pub number: u64,
    pub lock: u64,
    pub strong: bool,
}

/// How a hall was made.
#[derive(Clone, Copy)]
pub struct Shape {
    pub locks: u64,
    pub slots: u64,
    pub seats: u64,
    pub policy: Policy,
    /// How many words the cargo has.
    pub words: u64,
}

/// What one pass knows. Only its own steps change it.
pub struct View<P> {
    pub shape: Shape,
    pub number: u64,
    /// How many numbers are the pass's own: its number and the spare ones that follow it. 0 of a pass that was taken in.
    pub span: u64,
    /// The numbers of passes that were taken in, each as a first number and how many.
    pub taken: LinkedList<(u64, u64)>,
    pub quota: u64,
    /// By lock.
    pub standings: LinkedList<Standing>,
    /// The newest first.
    pub steps: LinkedList<StepEntry>,
    /// Where the pass, and those that it took in, have been. The newest first.
    pub trail: LinkedList<Footprint>,
    /// What the pass knows of the cargo.
    pub part: P,
}

/// What the rule of a hall reads beside its state.
#[derive(Drop)]
pub struct Plan<C> {
    pub shape: Shape,
    pub quota: u64,
    pub cargo: C,
}
