//! Upgrade mode, and the ways from a stronger hold of a lock to a weaker one: each is one step, and no moment lies
//! between in which the pass holds nothing.
ghost use Rattle.std.specs.Prelude.{◌≡◌, ◌≢◌, ℕ, ◌+◌, ◌<◌, false, true, MatchResult};
ghost use Rattle.hall.specs.declared.view.Standing.TheVariants.{Away, Upgrade, Exclusive, Announcing};
ghost use Rattle.hall.specs.Plays.{conflicts_for_announcing, HoldMisses};
ghost use Rattle.hall.specs.Upgrading.{ShowsUpgrade, TakesUpgrade, UpgradeMisses, LeavesUpgrade, LowersUpgrade, AnnouncesUp, UpMisses, RetractsUp, HoldingUp, LowersToShared, LowersToUpgrade};
ghost use Rattle.hall.specs.Views.{standing};

use crate::cargo::Cargo;
use crate::hall::{Hall, Pass};
use crate::plays::{
    ExclusiveSharedPlay, ExclusiveUpgradePlay, HoldUpPlay, UpPlay, UpRetractPlay, UpgradeInPlay,
    UpgradeLowerPlay, UpgradeOutPlay,
};
use state_word::{BEGUN, HELD, MAY_DEFER, ONE, UPGRADE, Word};

impl<C: Cargo> Hall<C> {
    ghost use Rattle.hall.specs.Passes.{view, IsPassOf, shape_of};

    /// Takes upgrade, by one exchange from a word that was seen. `Err` carries the word that was found.
    pub fn upgrade_in(&self, pass: &mut Pass<C>, lock: u64, seen: Word) -> Result<(), Word>
        requires pass { IsPassOf self.now pass.old }
        requires lock { lock < (shape_of self.now).locks }
        requires away { standing (view pass.old) lock ≡ Away }
        requires seen { conflicts_for_announcing seen ≡ false }
        ensures pass { IsPassOf self.now pass.new }
        ensures step { MatchResult result (λ _. TakesUpgrade C.CargoRule (view pass.old) lock seen (view pass.new)) (λ word. (word ≢ seen) × UpgradeMisses C.CargoRule (view pass.old) lock word (view pass.new)) }
    {
        let place = self.place(lock);
        let table = &self.table.shared;
        let found = table.compare_exchange::<UpgradeInPlay<C>>(
            &mut pass.seat,
            place,
            seen.0,
            seen.up().0,
        );
        if found == seen.0 {
            Ok(())
        } else {
            Err(Word(found))
        }
    }

    /// The upgrade holder leaves. It answers the word that it found.
    pub fn upgrade_out(&self, pass: &mut Pass<C>, lock: u64) -> Word
        requires pass { IsPassOf self.now pass.old }
        requires lock { lock < (shape_of self.now).locks }
        requires upgrade { standing (view pass.old) lock ≡ Upgrade }
        ensures pass { IsPassOf self.now pass.new }
        ensures step { LeavesUpgrade C.CargoRule (view pass.old) lock result (view pass.new) }
    {
        let place = self.place(lock);
        let table = &self.table.shared;
        Word(table.fetch_sub::<UpgradeOutPlay<C>>(&mut pass.seat, place, UPGRADE))
    }

    /// The upgrade holder becomes an inline reader. It answers the word that it found.
    pub fn upgrade_lower(&self, pass: &mut Pass<C>, lock: u64) -> Word
        requires pass { IsPassOf self.now pass.old }
        requires lock { lock < (shape_of self.now).locks }
        requires upgrade { standing (view pass.old) lock ≡ Upgrade }
        ensures pass { IsPassOf self.now pass.new }
        ensures step { LowersUpgrade C.CargoRule (view pass.old) lock result (view pass.new) }
    {
        let place = self.place(lock);
        let table = &self.table.shared;
        Word(table.fetch_add::<UpgradeLowerPlay<C>>(&mut pass.seat, place, ONE - UPGRADE))
    }

    /// Announces the upgrade holder as a writer, by one exchange from a word that was seen. It holds upgrade still.
    /// `Err` carries the word that was found.
    pub fn up(&self, pass: &mut Pass<C>, lock: u64, seen: Word) -> Result<(), Word>
        requires pass { IsPassOf self.now pass.old }
        requires lock { lock < (shape_of self.now).locks }
        requires upgrade { standing (view pass.old) lock ≡ Upgrade }
        requires seen { ShowsUpgrade seen }
        ensures pass { IsPassOf self.now pass.new }
        ensures step { MatchResult result (λ _. AnnouncesUp C.CargoRule (view pass.old) lock seen (view pass.new)) (λ word. (word ≢ seen) × UpMisses C.CargoRule (view pass.old) lock word (view pass.new)) }
    {
        let place = self.place(lock);
        let table = &self.table.shared;
        let found = table.compare_exchange::<UpPlay<C>>(
            &mut pass.seat,
            place,
            seen.0,
            seen.announce().0,
        );
        if found == seen.0 {
            Ok(())
        } else {
            Err(Word(found))
        }
    }

    /// Takes an announcement from upgrade back, at whatever place its sweep stands, with no unit in its hand: the pass
    /// holds upgrade as before. It answers the word that it found.
    pub fn up_retract(&self, pass: &mut Pass<C>, lock: u64) -> Word
        requires pass { IsPassOf self.now pass.old }
        requires lock { lock < (shape_of self.now).locks }
        requires announced { (place : ℕ) × (standing (view pass.old) lock ≡ Announcing place 0 true) }
        ensures pass { IsPassOf self.now pass.new }
        ensures step { RetractsUp C.CargoRule (view pass.old) lock result (view pass.new) }
    {
        let place = self.place(lock);
        let table = &self.table.shared;
        Word(table.fetch_xor::<UpRetractPlay<C>>(&mut pass.seat, place, MAY_DEFER + BEGUN))
    }

    /// The writer that was announced from upgrade takes the lock, where no reader is inside. `Err` carries the word
    /// that was found, whose count isn't 0.
    pub fn hold_from_upgrade(&self, pass: &mut Pass<C>, lock: u64) -> Result<(), Word>
        requires pass { IsPassOf self.now pass.old }
        requires lock { lock < (shape_of self.now).locks }
        requires swept { standing (view pass.old) lock ≡ Announcing (shape_of self.now).slots 0 true }
        ensures pass { IsPassOf self.now pass.new }
        ensures step { MatchResult result (λ _. HoldingUp C.CargoRule (view pass.old) lock 6 (view pass.new)) (λ word. HoldMisses C.CargoRule (view pass.old) lock word (view pass.new)) }
    {
        let place = self.place(lock);
        let table = &self.table.shared;
        let alone = BEGUN + UPGRADE;
        let found = table.compare_exchange::<HoldUpPlay<C>>(&mut pass.seat, place, alone, HELD);
        if found == alone {
            Ok(())
        } else {
            Err(Word(found))
        }
    }

    /// The exclusive holder becomes an inline reader, with its part of the cargo settled for this lock. It answers the
    /// word that it found, which is always `HELD` alone.
    pub fn exclusive_shared(&self, pass: &mut Pass<C>, lock: u64) -> Word
        requires pass { IsPassOf self.now pass.old }
        requires lock { lock < (shape_of self.now).locks }
        requires exclusive { standing (view pass.old) lock ≡ Exclusive }
        requires settled { C.settled lock (view pass.old).part }
        ensures pass { IsPassOf self.now pass.new }
        ensures step { LowersToShared C.CargoRule (view pass.old) lock result (view pass.new) }
    {
        let place = self.place(lock);
        let table = &self.table.shared;
        Word(table.fetch_add::<ExclusiveSharedPlay<C>>(&mut pass.seat, place, ONE - HELD))
    }

    /// The exclusive holder keeps upgrade alone, with its part of the cargo settled for this lock. It answers the word
    /// that it found, which is always `HELD` alone.
    pub fn exclusive_upgrade(&self, pass: &mut Pass<C>, lock: u64) -> Word
        requires pass { IsPassOf self.now pass.old }
        requires lock { lock < (shape_of self.now).locks }
        requires exclusive { standing (view pass.old) lock ≡ Exclusive }
        requires settled { C.settled lock (view pass.old).part }
        ensures pass { IsPassOf self.now pass.new }
        ensures step { LowersToUpgrade C.CargoRule (view pass.old) lock result (view pass.new) }
    {
        let place = self.place(lock);
        let table = &self.table.shared;
        Word(table.fetch_xor::<ExclusiveUpgradePlay<C>>(&mut pass.seat, place, HELD + UPGRADE))
    }
}
