//! What a pass knows of its chain, as plain data. No value of these types but an `StepEntry`'s parts is ever made: a
//! pass carries its view for the proofs alone.
use std::collections::LinkedList;
use std::snapshot::Snapshot;

/// What a chain was made with. It is kept for the proofs alone.
#[derive(Drop)]
pub struct Opening<P> {
    pub nodes: u64,
    pub quota: u64,
    pub first: Snapshot<P>,
}

/// The kinds of step on a word of the chain that a pass lists.
pub enum StepKind {
    /// A store into its own status.
    SetStatus,
    /// A swap of its own number + 2 into the central word.
    SwapIn,
    /// An exchange of the central word from 0 to 1.
    TryIn,
    /// A load of its own status.
    LoadStatus,
    /// An exchange of the central word from the owner's mark to 0.
    Free,
    /// A swap of 1 into the central word, by the owner.
    TakeChain,
    /// A store into the next node's status, which makes that node the owner.
    Grant,
    /// A store into its own link.
    StoreLink,
    /// A load of the next node's status.
    LoadKind,
    /// A load of the next node's link.
    LoadLink,
    /// A store of 3 into the status of the next node, whose job has run.
    Serve,
}

/// One step of a pass, as its list of steps keeps it.
pub struct StepEntry {
    /// The pass's number at this step.
    pub number: u64,
    pub kind: StepKind,
    /// The word's place in the table.
    pub place: u64,
    /// At a store the word that was stored, and else the word that was found.
    pub word: u64,
}

/// The next node of an owner's chain, whose job slot and answer slot the owner has taken.
pub struct Next<P> {
    pub node: u64,
    /// The word that its swap found.
    pub behind: u64,
    /// Its job.
    pub job: P,
}

/// An owner's own job slot.
pub enum OwnSlot<P> {
    /// It is at home.
    Unused,
    /// The owner has it in hand, and has posted no job that has not run.
    InHand,
    /// The owner has it in hand, and this job was posted and has not run.
    Unrun(P),
}

/// What an owner knows.
pub struct Ownership<P> {
    /// The next node is `first - 2`, unless `first` is `end`.
    pub first: u64,
    pub end: u64,
    /// What the central word is as long as nobody came since the owner last looked.
    pub mark: u64,
    /// Since the mark was set, the central word was found to be another.
    pub others_came: bool,
    /// The next node's status was found to be 2.
    pub job_waits: bool,
    /// The next node, once the owner has taken its slots.
    pub next: Option<Next<P>>,
    pub mine: OwnSlot<P>,
    /// What the owner took out of slot 0.
    pub value: P,
}

/// Where a pass stands.
pub enum Stage<P> {
    Idle,
    /// It is idle, and has its own job slot in hand.
    Holding,
    /// It is about to enter, and its link is 0. Whether it has its own job slot in hand.
    Cleared(bool),
    /// Its link is 0 and its status says how it enters, and it has not swapped itself in yet. Where it enters with a
    /// job it has its own job slot in hand.
    Ready(bool),
    /// It waits. The word that its swap found, and the job that it has posted, where it has posted one.
    Behind(u64, Option<P>),
    Owns(Ownership<P>),
    /// Another pass ran its job. It has its own answer slot in hand, in which the answer stood: the job and this answer.
    Done(P, P),
}

pub struct View<P> {
    pub number: u64,
    /// How many numbers right after its own it can still give away.
    pub spare: u64,
    /// The numbers that it took over by joins, each with how many come after it.
    pub past: LinkedList<(u64, u64)>,
    /// Another pass took it in.
    pub gone: bool,
    /// A link word of one of its numbers may be another than 0.
    pub linked: bool,
    /// How many jobs it may still run.
    pub quota: u64,
    pub stage: Stage<P>,
    /// Its own jobs that ran, each with its answer, the earliest first.
    pub own: LinkedList<(P, P)>,
    /// Its steps, the earliest first.
    pub steps: LinkedList<StepEntry>,
}
