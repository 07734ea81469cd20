//! The table of a hall, its passes, and the steps on its state words.
ghost use Rattle.std.specs.Prelude.{◌≡◌, ◌≢◌, ℕ, ◌+◌, ◌<◌, ◌^◌, ◌⊎◌, [], false, MatchResult};
ghost use Rattle.state_word.specs.Words.{units_of, upgrade_of, begun_of, held_of};
ghost use Rattle.hall.specs.declared.view.Standing.TheVariants.{Away, Inline, Owing, Exclusive, Announcing};
ghost use Rattle.hall.specs.Views.{standing};

use crate::cargo::Cargo;
use crate::plays::{
    AnnouncePlay, EnterPlay, HoldPlay, LoadPlay, LowerPlay, ReleasePlay, RetractPlay,
};
use crate::rule::HallRule;
use crate::view::{Plan, View};
use atomic_table::{Seat, Table};
use lock_model::Policy;
use state_word::{BEGUN, HELD, MAY_DEFER, ONE, Word};
use std::alloc::Global;

/// Many shared locks over one array of slots, with a cargo behind them.
#[derive(Drop)]
pub struct Hall<C: Cargo> {
    pub(crate) table: Table<(), View<C::Part>, Plan<C>, HallRule<C>, Global>,
    pub(crate) slots: u64,
    pub(crate) locks: u64,
    pub(crate) policy: Policy,
    pub(crate) cargo: C,
    ghost slotless: { table.shared.table_id.slots ≡ 0 },
    ghost carries: { cargo ≡ table.shared.key.cargo },
    ghost sized: { (slots ≡ table.shared.key.shape.slots) × (locks ≡ table.shared.key.shape.locks) },
    ghost ruled: { policy ≡ table.shared.key.shape.policy },
    ghost some_slot: { 0 < slots },
    ghost counted: { (0 < slots + locks) × (slots + locks < 2 ^ 32) × (slots + locks < table.shared.table_id.words + 1) },
    ghost wide: { (table.shared.table_id.words ≡ slots + locks + table.shared.key.shape.words) × (table.shared.table_id.words < 2 ^ 32) },
}

/// The token of one seat: every step is made through one. It has the seat's number, and spare numbers and a quota that
/// it can give to others.
#[derive(Drop)]
pub struct Pass<C: Cargo> {
    pub(crate) seat: Seat<(), View<C::Part>>,
    pub(crate) number: u64,
    pub(crate) spare: u64,
    pub(crate) quota: u64,
    ghost tied: { (number ≡ seat.me.0.number) × (seat.me.0.span ≡ spare + 1) × (quota ≡ seat.me.0.quota) × (seat.me.1 ≡ []) },
    ghost low: { number + spare < 2 ^ 20 },
}

impl<C: Cargo> Pass<C> {
    ghost use Rattle.hall.specs.Passes.{view};

    /// The seat's number. No two passes of a hall have one number.
    pub fn number(&self) -> u64
        ensures value { result ≡ (view self.now).number }
        ensures low { result < 2 ^ 20 }
    {
        self.number
    }

    /// How many numbers a split can give away. They follow the seat's number.
    pub fn spare(&self) -> u64
        ensures value { result + 1 ≡ (view self.now).span }
        ensures low { result < 2 ^ 20 }
    {
        self.spare
    }

    /// What the pass may still add by `add_cargo`.
    pub fn quota(&self) -> u64
        ensures { result ≡ (view self.now).quota }
    {
        self.quota
    }
}

impl<C: Cargo> Hall<C> {
    ghost use Rattle.hall.specs.Passes.{view, IsPassOf, shape_of, cargo_of};
    ghost use Rattle.hall.specs.Plays.{conflicts_for_shared, conflicts_for_announcing, HasRoom, Loads, Enters, EnterMisses, GivesBack, Announces, AnnounceMisses, Holding, HoldMisses, Retracts, Releases};

    /// What the hall carries.
    pub fn cargo(&self) -> &C
        ensures { result.now ≡ cargo_of self.now }
    {
        &self.cargo
    }

    /// Whether announced writers keep new readers out.
    pub fn policy(&self) -> Policy
        ensures { result ≡ (shape_of self.now).policy }
    {
        self.policy
    }

    /// How many slots there are: 1 at least.
    pub fn slots(&self) -> u64
        ensures value { result ≡ (shape_of self.now).slots }
        ensures some { 0 < result }
        ensures low { result < 2 ^ 32 }
    {
        self.slots
    }

    pub(crate) fn place(&self, lock: u64) -> usize
        requires { lock < (shape_of self.now).locks }
        ensures value { result ≡ (shape_of self.now).slots + lock }
        ensures inside { result < self.now.table.shared.table_id.words }
    {
        (self.slots + lock) as usize
    }

    /// Loads the state word of a lock.
    pub fn load(&self, pass: &mut Pass<C>, lock: u64) -> Word
        requires pass { IsPassOf self.now pass.old }
        requires lock { lock < (shape_of self.now).locks }
        ensures pass { IsPassOf self.now pass.new }
        ensures step { Loads C.CargoRule (view pass.old) lock result (view pass.new) }
    {
        let place = self.place(lock);
        Word(self.table.shared.load::<LoadPlay<C>>(&mut pass.seat, place))
    }

    /// Enters as an inline reader, by one exchange from a word that was seen. `Err` carries the word that was found.
    pub fn enter(&self, pass: &mut Pass<C>, lock: u64, seen: Word) -> Result<(), Word>
        requires pass { IsPassOf self.now pass.old }
        requires lock { lock < (shape_of self.now).locks }
        requires away { standing (view pass.old) lock ≡ Away }
        requires seen { conflicts_for_shared (shape_of self.now).policy seen ≡ false }
        requires room { HasRoom seen }
        ensures pass { IsPassOf self.now pass.new }
        ensures step { MatchResult result (λ _. Enters C.CargoRule (view pass.old) lock seen (view pass.new)) (λ word. (word ≢ seen) × EnterMisses C.CargoRule (view pass.old) lock word (view pass.new)) }
    {
        let place = self.place(lock);
        let table = &self.table.shared;
        let found = table.compare_exchange::<EnterPlay<C>>(
            &mut pass.seat,
            place,
            seen.0,
            seen.enter().0,
        );
        if found == seen.0 {
            Ok(())
        } else {
            Err(Word(found))
        }
    }

    /// Gives a unit of the count back: an inline reader leaves, or a reader that owes a unit pays it. It answers the
    /// word that it found.
    pub fn lower(&self, pass: &mut Pass<C>, lock: u64) -> Word
        requires pass { IsPassOf self.now pass.old }
        requires lock { lock < (shape_of self.now).locks }
        requires inside { (standing (view pass.old) lock ≡ Inline) ⊎ (standing (view pass.old) lock ≡ Owing) }
        ensures pass { IsPassOf self.now pass.new }
        ensures step { GivesBack C.CargoRule (view pass.old) lock result (view pass.new) }
    {
        let place = self.place(lock);
        let table = &self.table.shared;
        Word(table.fetch_sub::<LowerPlay<C>>(&mut pass.seat, place, ONE))
    }

    /// Announces a writer, by one exchange from a word that was seen. `Err` carries the word that was found.
    pub fn announce(&self, pass: &mut Pass<C>, lock: u64, seen: Word) -> Result<(), Word>
        requires pass { IsPassOf self.now pass.old }
        requires lock { lock < (shape_of self.now).locks }
        requires away { standing (view pass.old) lock ≡ Away }
        requires seen { conflicts_for_announcing seen ≡ false }
        ensures pass { IsPassOf self.now pass.new }
        ensures step { MatchResult result (λ _. Announces C.CargoRule (view pass.old) lock seen (view pass.new)) (λ word. (word ≢ seen) × AnnounceMisses C.CargoRule (view pass.old) lock word (view pass.new)) }
    {
        let place = self.place(lock);
        let table = &self.table.shared;
        let found = table.compare_exchange::<AnnouncePlay<C>>(
            &mut pass.seat,
            place,
            seen.0,
            seen.announce().0,
        );
        if found == seen.0 {
            Ok(())
        } else {
            Err(Word(found))
        }
    }

    /// The announced writer takes the lock, where no reader is inside. `Err` carries the word that was found, whose
    /// count isn't 0.
    pub fn hold(&self, pass: &mut Pass<C>, lock: u64) -> Result<(), Word>
        requires pass { IsPassOf self.now pass.old }
        requires lock { lock < (shape_of self.now).locks }
        requires swept { standing (view pass.old) lock ≡ Announcing (shape_of self.now).slots 0 false }
        ensures pass { IsPassOf self.now pass.new }
        ensures step { MatchResult result (λ _. Holding C.CargoRule (view pass.old) lock 4 (view pass.new)) (λ word. HoldMisses C.CargoRule (view pass.old) lock word (view pass.new)) }
    {
        let place = self.place(lock);
        let table = &self.table.shared;
        let found = table.compare_exchange::<HoldPlay<C>>(&mut pass.seat, place, BEGUN, HELD);
        if found == BEGUN {
            Ok(())
        } else {
            Err(Word(found))
        }
    }

    /// Takes an announcement back, at whatever place its sweep stands, with no unit in its hand. It answers the word
    /// that it found.
    pub fn retract(&self, pass: &mut Pass<C>, lock: u64) -> Word
        requires pass { IsPassOf self.now pass.old }
        requires lock { lock < (shape_of self.now).locks }
        requires announced { (place : ℕ) × (standing (view pass.old) lock ≡ Announcing place 0 false) }
        ensures pass { IsPassOf self.now pass.new }
        ensures step { Retracts C.CargoRule (view pass.old) lock result (view pass.new) }
    {
        let place = self.place(lock);
        let table = &self.table.shared;
        Word(table.fetch_xor::<RetractPlay<C>>(&mut pass.seat, place, MAY_DEFER + BEGUN))
    }

    /// The exclusive holder leaves, with its part of the cargo settled for this lock. It answers the word that it
    /// found, which is always `HELD` alone.
    pub fn release(&self, pass: &mut Pass<C>, lock: u64) -> Word
        requires pass { IsPassOf self.now pass.old }
        requires lock { lock < (shape_of self.now).locks }
        requires exclusive { standing (view pass.old) lock ≡ Exclusive }
        requires settled { C.settled lock (view pass.old).part }
        ensures pass { IsPassOf self.now pass.new }
        ensures step { Releases C.CargoRule (view pass.old) lock result (view pass.new) }
    {
        let place = self.place(lock);
        let table = &self.table.shared;
        Word(table.fetch_xor::<ReleasePlay<C>>(&mut pass.seat, place, HELD))
    }
}
