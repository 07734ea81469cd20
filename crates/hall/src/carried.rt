//! Steps on the cargo's words.
ghost use Rattle.std.specs.Prelude.{◌≡◌, ◌+◌, ◌<◌, ◌≤◌, ◌%◌, ◌^◌};
ghost use Rattle.hall.specs.Cargo.{Notes, NotesAside};
ghost use Rattle.hall.specs.Rule.{cargo_seat};

use crate::cargo::Cargo;
use crate::hall::{Hall, Pass};
use crate::plays::{AddNoted, LoadNoted, LoadNotedAside, Note, StoreNoted};
use state_word::Word;

impl<C: Cargo> Hall<C> {
    ghost use Rattle.hall.specs.Passes.{view, IsPassOf, shape_of, cargo_of};
    ghost use Rattle.hall.specs.Plays.{LoadsNoted, LoadsWord, StoresWord, AddsToWord};

    fn cargo_place(&self, place: u64) -> usize
        requires { place < (shape_of self.now).words }
        ensures value { result ≡ (shape_of self.now).slots + (shape_of self.now).locks + place }
        ensures inside { result < self.now.table.shared.table_id.words }
    {
        (self.slots + self.locks + place) as usize
    }

    /// Loads the state word of a lock, and notes something in the pass's part of the cargo, by the cargo's words of the
    /// same moment. The note has to keep the cargo's rule.
    pub fn load_noted<N: Note<C>>(&self, pass: &mut Pass<C>, lock: u64) -> Word
        requires pass { IsPassOf self.now pass.old }
        requires lock { lock < (shape_of self.now).locks }
        requires note { NotesAside (C.holds (cargo_of self.now)) pass.old.seat.id (cargo_seat (view pass.old)) N.becomes }
        ensures pass { IsPassOf self.now pass.new × (pass.new.seat.id ≡ pass.old.seat.id) }
        ensures step { LoadsNoted C.CargoRule N.becomes (view pass.old) lock result (view pass.new) }
    {
        let place = self.place(lock);
        let table = &self.table.shared;
        Word(table.load::<LoadNotedAside<N, C>>(&mut pass.seat, place))
    }

    /// Loads a cargo word. The note says what the pass knows afterwards, by the cargo's words of that moment; it has to
    /// keep the cargo's rule.
    pub fn load_cargo<N: Note<C>>(&self, pass: &mut Pass<C>, place: u64) -> u64
        requires pass { IsPassOf self.now pass.old }
        requires place { place < (shape_of self.now).words }
        requires note { Notes (C.holds (cargo_of self.now)) pass.old.seat.id (cargo_seat (view pass.old)) 0 place (λ x. x) N.becomes }
        ensures pass { IsPassOf self.now pass.new × (pass.new.seat.id ≡ pass.old.seat.id) }
        ensures step { LoadsWord C.CargoRule N.becomes (view pass.old) place result (view pass.new) }
    {
        let word = self.cargo_place(place);
        let table = &self.table.shared;
        table.load::<LoadNoted<N, C>>(&mut pass.seat, word)
    }

    /// Stores a cargo word. The note says what the pass knows afterwards; it has to keep the cargo's rule.
    pub fn store_cargo<N: Note<C>>(&self, pass: &mut Pass<C>, place: u64, value: u64)
        requires pass { IsPassOf self.now pass.old }
        requires place { place < (shape_of self.now).words }
        requires note { Notes (C.holds (cargo_of self.now)) pass.old.seat.id (cargo_seat (view pass.old)) 0 place (λ _. value) N.becomes }
        ensures pass { IsPassOf self.now pass.new × (pass.new.seat.id ≡ pass.old.seat.id) }
        ensures step { StoresWord C.CargoRule N.becomes (view pass.old) place value (view pass.new) }
    {
        let word = self.cargo_place(place);
        let table = &self.table.shared;
        table.store::<StoreNoted<N, C>>(&mut pass.seat, word, value);
    }

    /// Adds to a cargo word by one fetch, and answers the word that it found. The quota falls by as much.
    pub fn add_cargo<N: Note<C>>(&self, pass: &mut Pass<C>, place: u64, n: u64) -> u64
        requires pass { IsPassOf self.now pass.old }
        requires place { place < (shape_of self.now).words }
        requires quota { n ≤ (view pass.old).quota }
        requires note { Notes (C.holds (cargo_of self.now)) pass.old.seat.id (cargo_seat (view pass.old)) n place (λ x. (x + n) % 2 ^ 64) N.becomes }
        ensures pass { IsPassOf self.now pass.new × (pass.new.seat.id ≡ pass.old.seat.id) }
        ensures step { AddsToWord C.CargoRule N.becomes n (view pass.old) place result (view pass.new) }
    {
        let word = self.cargo_place(place);
        let table = &self.table.shared;
        let found = table.fetch_add::<AddNoted<N, C>>(&mut pass.seat, word, n);
        pass.quota -= n;
        found
    }
}
