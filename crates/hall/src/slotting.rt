//! Slots: readers that defer stand in one in place of the count, and an announced writer sweeps them into the count.
//!
//! No value of a view is there when the code runs. So where a step needs a slot, a place or a hand that stands in the
//! pass's standing, the call takes it as an argument, and asks that it is that one.
ghost use Rattle.std.specs.Prelude.{◌≡◌, ◌≢◌, ℕ, ◌+◌, ◌<◌, Bool, true, false, MatchResult};
ghost use Rattle.hall.specs.declared.view.Standing.TheVariants.{Away, Slotted, Undecided, Announcing};
ghost use Rattle.hall.specs.Slotting.{HasNonePending, PlacesToken, FindsTaken, Checks, Withdraws, Owes, LeavesSlot, IsInline, LooksAtSlot, PicksToken, FindsCleared, AddsHand};
ghost use Rattle.hall.specs.Views.{standing};

use crate::cargo::Cargo;
use crate::hall::{Hall, Pass};
use crate::plays::{
    AddHandPlay, CheckPlay, ForLock, LeaveSlotPlay, LookPlay, PickPlay, PlaceSlotPlay,
    WithdrawSlotPlay,
};
use state_word::{ONE, Word};
use std::marker::Brand;

impl<C: Cargo> Hall<C> {
    ghost use Rattle.hall.specs.Passes.{view, IsPassOf, shape_of};

    fn slot_place(&self, slot: u64) -> usize
        requires { slot < (shape_of self.now).slots }
        ensures value { result ≡ slot }
        ensures inside { result < self.now.table.shared.table_id.words }
    {
        slot as usize
    }

    /// Places a token for the lock in a slot, by one exchange. `Err` carries the word that was found, which isn't 0.
    pub fn place_slot(&self, pass: &mut Pass<C>, lock: u64, slot: u64) -> Result<(), u64>
        requires pass { IsPassOf self.now pass.old }
        requires lock { lock < (shape_of self.now).locks }
        requires slot { slot < (shape_of self.now).slots }
        requires away { standing (view pass.old) lock ≡ Away }
        requires clear { HasNonePending (view pass.old) }
        ensures pass { IsPassOf self.now pass.new }
        ensures step { MatchResult result (λ _. PlacesToken C.CargoRule (view pass.old) lock slot 0 (view pass.new)) (λ found. (found ≢ 0) × FindsTaken C.CargoRule (view pass.old) lock slot found (view pass.new)) }
    {
        let place = self.slot_place(slot);
        let table = &self.table.shared;
        let found = table.compare_exchange::<PlaceSlotPlay<C>>(&mut pass.seat, place, 0, lock + 1);
        if found == 0 { Ok(()) } else { Err(found) }
    }

    /// Looks at the lock's word after a token was placed. Where it lets readers defer the pass is inside by its token,
    /// and else undecided as before.
    pub fn check(&self, pass: &mut Pass<C>, lock: u64) -> Word
        requires pass { IsPassOf self.now pass.old }
        requires lock { lock < (shape_of self.now).locks }
        requires undecided { (slot : ℕ) × (standing (view pass.old) lock ≡ Undecided slot) }
        ensures pass { IsPassOf self.now pass.new }
        ensures step { Checks C.CargoRule (view pass.old) lock result (view pass.new) }
    {
        let place = self.place(lock);
        let table = &self.table.shared;
        Word(table.load::<CheckPlay<C>>(&mut pass.seat, place))
    }

    /// An undecided pass takes its token back, by one exchange, and is away. `false`: the token is gone, and the pass
    /// owes a unit of the count.
    pub fn withdraw_slot(&self, pass: &mut Pass<C>, lock: u64, slot: u64) -> bool
        requires pass { IsPassOf self.now pass.old }
        requires lock { lock < (shape_of self.now).locks }
        requires slot { slot < (shape_of self.now).slots }
        requires undecided { standing (view pass.old) lock ≡ Undecided slot }
        ensures pass { IsPassOf self.now pass.new }
        ensures back { result ≡ true → Withdraws C.CargoRule (view pass.old) lock slot (lock + 1) (view pass.new) }
        ensures gone { result ≡ false → (found : ℕ) × (found ≢ lock + 1) × Owes C.CargoRule (view pass.old) lock slot found (view pass.new) }
    {
        let place = self.slot_place(slot);
        let table = &self.table.shared;
        let token = lock + 1;
        let found = table.compare_exchange::<WithdrawSlotPlay<C>>(&mut pass.seat, place, token, 0);
        found == token
    }

    /// A reader with a token in a slot leaves, by one exchange. `false`: the token is gone, and the reader is inside
    /// with its unit in the count.
    pub fn leave_slot(&self, pass: &mut Pass<C>, lock: u64, slot: u64) -> bool
        requires pass { IsPassOf self.now pass.old }
        requires lock { lock < (shape_of self.now).locks }
        requires slot { slot < (shape_of self.now).slots }
        requires slotted { standing (view pass.old) lock ≡ Slotted slot }
        ensures pass { IsPassOf self.now pass.new }
        ensures left { result ≡ true → LeavesSlot C.CargoRule (view pass.old) lock slot (lock + 1) (view pass.new) }
        ensures gone { result ≡ false → (found : ℕ) × (found ≢ lock + 1) × IsInline C.CargoRule (view pass.old) lock slot found (view pass.new) }
    {
        let place = self.slot_place(slot);
        let table = &self.table.shared;
        let token = lock + 1;
        let found = table.compare_exchange::<LeaveSlotPlay<C>>(&mut pass.seat, place, token, 0);
        found == token
    }

    fn look_for<K: ForLock>(&self, pass: &mut Pass<C>, lock: u64, slot: u64) -> u64
        requires pass { IsPassOf self.now pass.old }
        requires known { lock ≡ K.lock }
        requires lock { lock < (shape_of self.now).locks }
        requires slot { slot < (shape_of self.now).slots }
        requires announced { (hand : ℕ) × (raised : Bool) × (standing (view pass.old) lock ≡ Announcing slot hand raised) }
        ensures pass { IsPassOf self.now pass.new }
        ensures step { LooksAtSlot C.CargoRule (view pass.old) lock slot result (view pass.new) }
    {
        let place = self.slot_place(slot);
        let table = &self.table.shared;
        table.load::<LookPlay<K, C>>(&mut pass.seat, place)
    }

    /// The sweep of an announced writer looks at the slot at its place. It answers the word there, and goes on to the
    /// next slot unless that names the lock.
    pub fn look(&self, pass: &mut Pass<C>, lock: u64, slot: u64) -> u64
        requires pass { IsPassOf self.now pass.old }
        requires lock { lock < (shape_of self.now).locks }
        requires slot { slot < (shape_of self.now).slots }
        requires announced { (hand : ℕ) × (raised : Bool) × (standing (view pass.old) lock ≡ Announcing slot hand raised) }
        ensures pass { IsPassOf self.now pass.new }
        ensures step { LooksAtSlot C.CargoRule (view pass.old) lock slot result (view pass.new) }
    {
        self.look_for::<Brand>(pass, lock, slot)
    }

    /// The sweep takes the token at its place into its hand, by one exchange, and goes on to the next slot. `false`:
    /// the slot didn't name the lock any more.
    pub fn pick(&self, pass: &mut Pass<C>, lock: u64, slot: u64) -> bool
        requires pass { IsPassOf self.now pass.old }
        requires lock { lock < (shape_of self.now).locks }
        requires slot { slot < (shape_of self.now).slots }
        requires announced { (hand : ℕ) × (raised : Bool) × (standing (view pass.old) lock ≡ Announcing slot hand raised) }
        ensures pass { IsPassOf self.now pass.new }
        ensures picked { result ≡ true → PicksToken C.CargoRule (view pass.old) lock slot (lock + 1) (view pass.new) }
        ensures gone { result ≡ false → (found : ℕ) × (found ≢ lock + 1) × FindsCleared C.CargoRule (view pass.old) lock slot found (view pass.new) }
    {
        let place = self.slot_place(slot);
        let table = &self.table.shared;
        let token = lock + 1;
        let found = table.compare_exchange::<PickPlay<C>>(&mut pass.seat, place, token, 0);
        found == token
    }

    /// The announced writer adds the units in its hand to the count, by one step, also where there are none. It answers
    /// the word that it found.
    pub fn add_hand(&self, pass: &mut Pass<C>, lock: u64, hand: u64) -> Word
        requires pass { IsPassOf self.now pass.old }
        requires lock { lock < (shape_of self.now).locks }
        requires announced { (place : ℕ) × (raised : Bool) × (standing (view pass.old) lock ≡ Announcing place hand raised) }
        ensures pass { IsPassOf self.now pass.new }
        ensures step { AddsHand C.CargoRule (view pass.old) lock result (view pass.new) }
    {
        let place = self.place(lock);
        let table = &self.table.shared;
        let units = hand.wrapping_mul(ONE);
        Word(table.fetch_add::<AddHandPlay<C>>(&mut pass.seat, place, units))
    }
}
