//! How a hall is closed.
ghost use Rattle.std.specs.Prelude.{◌≡◌, ◌≢◌, ◌+◌, ◌<◌, ◌≤◌, ℕ, List, length, slice_index};
ghost use Rattle.core.specs.Mem.Slots.{slots_items, slots_len, IsFull};
ghost use mathlib.Core.Option.{some};
ghost use lib.ListN.{get_elem?};
ghost use Rattle.hall.specs.Cargo.{CargoSeat};
ghost use Rattle.hall.specs.Numbers.{width};
ghost use Rattle.hall.specs.Rule.{cargo_seat};
ghost use Rattle.hall.specs.declared.view.Standing.TheVariants.{Away};
ghost use Rattle.hall.specs.Views.{standing};

use crate::cargo::Cargo;
use crate::hall::{Hall, Pass};
use crate::view::View;
use atomic_table::{Closed as ClosedTable, Seat};
use lock_model::Policy;
use std::alloc::Global;
use std::snapshot::Snapshot;

/// What a hall that was closed leaves: its words, its cargo, how it was made, and, for the proofs, what the closing
/// pass knew. It comes only from `Hall::close`.
pub struct Closed<C: Cargo> {
    pub(crate) table: ClosedTable<(), Global>,
    pub(crate) slots: u64,
    pub(crate) locks: u64,
    pub(crate) policy: Policy,
    pub(crate) cargo: C,
    pub(crate) seat: Snapshot<Seat<(), View<C::Part>>>,
    ghost full: { IsFull table.words × (slots_len table.slots ≡ 0) },
    ghost sized: { (slots + locks ≤ slots_len table.words) × (slots_len table.words < 4294967296) },
}

impl<C: Cargo> Drop for Closed<C> {
    fn drop(self) {
        let Closed {
            table,
            slots: _,
            locks: _,
            policy: _,
            cargo: _,
            seat: _,
        } = self;
        table.free();
    }
}

impl<C: Cargo> Closed<C> {
    ghost use Rattle.hall.specs.Closing.{closed_words, closed_cargo};

    /// A cargo word, as it was left.
    pub fn word(&self, place: u64) -> u64
        requires { place < length (closed_words self.now) }
        ensures { result ≡ slice_index (closed_words self.now) place }
    {
        self.table.word((self.slots + self.locks + place) as usize)
    }

    /// What the hall carried.
    pub fn cargo(&self) -> &C
        ensures { result.now ≡ closed_cargo self.now }
    {
        &self.cargo
    }
}

impl<C: Cargo> Hall<C> {
    ghost use Rattle.atomic_table.specs.Table.{State};
    ghost use Rattle.hall.specs.declared.view.View.{View};
    ghost use Rattle.hall.specs.Passes.{view, IsPassOf, cargo_of, plan_of, shape_of};
    ghost use Rattle.hall.specs.Closing.{closed_words, closed_cargo, closing_view, WasOf};
    ghost use Rattle.hall.specs.Rule.{Holds};

    /// Closes the hall with a pass that is away from every lock and at rest.
    ///
    /// The rule of the hall held at the end, with this pass's view among the views: so what its steps and its trail say
    /// of other passes can be read off. The cargo's rule holds of the words that are left, and where the pass covers
    /// all numbers, each other pass has nothing left. What is left keeps the pass's view.
    pub fn close(self, pass: Pass<C>) -> Closed<C>
        requires pass { IsPassOf self pass }
        requires away { (lock : ℕ) → standing (view pass) lock ≡ Away }
        requires rested { C.rested (view pass).part }
        ensures shape { WasOf result (shape_of self) }
        ensures words { length (closed_words result) ≡ (shape_of self).words }
        ensures carried { closed_cargo result ≡ cargo_of self }
        ensures known { closing_view result ≡ view pass }
        ensures rule { (s : State (Unit {0}) (View C.Part)) × Holds C.CargoRule (plan_of self) s × (get_elem? s.views pass.seat.id ≡ some (view pass)) }
        ensures cargo { (seats : List (CargoSeat C.Part)) × C.holds (cargo_of self) (closed_words result) seats × (get_elem? seats pass.seat.id ≡ some (cargo_seat (view pass))) × (width (view pass) ≡ (shape_of self).seats → (j : ℕ) (q : CargoSeat C.Part) → get_elem? seats j ≡ some q → j ≢ pass.seat.id → q.part ≡ C.spent) }
    {
        let Hall {
            table,
            slots,
            locks,
            policy,
            cargo,
        } = self;
        let Pass {
            seat,
            number: _,
            spare: _,
            quota: _,
        } = pass;
        let known = Snapshot::of(&seat);
        Closed {
            table: table.close_with(seat),
            slots,
            locks,
            policy,
            cargo,
            seat: known,
        }
    }
}
