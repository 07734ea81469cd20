//! How the history ends.
ghost use Rattle.std.specs.Prelude.{◌≡◌, ℕ, length, map};
ghost use Rattle.hall.specs.Closing.{closed_words, closed_cargo, closing_view, WasOf};
ghost use Rattle.hall.specs.Passes.{view, IsPassOf, cargo_of, shape_of};
ghost use Rattle.hall.specs.Numbers.{width};
ghost use Rattle.hall.specs.Views.{standing};
ghost use Rattle.hall.specs.declared.view.Standing.TheVariants.{Away};
ghost use Rattle.query_rules.specs.History.{IsLegal};
ghost use Rattle.query_rules.specs.Maps.{no_entries};
ghost use Rattle.map_cargo.specs.Entries.{as_reply};
ghost use Rattle.map_cargo.specs.History.{IsRested};
ghost use Rattle.map_cargo.specs.Licences.{MetWhoRefused};
ghost use Rattle.map_cargo.specs.Steps.{Ended};

use crate::size::MapCargo;
use hall::{Closed, Hall, Pass};

/// Closes the hall with a pass that is away from every lock and at rest. The log row of each write among its replies
/// holds the write's words. Where the pass covers all numbers, that is each write that was drawn, and its replies are
/// one legal history of plain maps that start empty. Then whoever was refused met somebody, who left a footprint at the
/// lock.
pub fn close(hall: Hall<MapCargo>, pass: Pass<MapCargo>) -> Closed<MapCargo>
    requires pass { IsPassOf hall pass }
    requires away { (lock : ℕ) → standing (view pass) lock ≡ Away }
    requires rested { IsRested (view pass).part }
    ensures shape { WasOf result (shape_of hall) }
    ensures words { length (closed_words result) ≡ (shape_of hall).words }
    ensures carried { closed_cargo result ≡ cargo_of hall }
    ensures known { closing_view result ≡ view pass }
    ensures ended { Ended (cargo_of hall) (closed_words result) (view pass).part (width (view pass) ≡ (shape_of hall).seats) }
    ensures met { width (view pass) ≡ (shape_of hall).seats → MetWhoRefused (shape_of hall) (view pass).steps (view pass).trail }
    ensures legal { width (view pass) ≡ (shape_of hall).seats → IsLegal (cargo_of hall).rows no_entries (map as_reply (view pass).part.told) }
{
    hall.close(pass)
}
