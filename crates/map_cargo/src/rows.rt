//! How the rows of a cell are found.
//!
//! The search for a key begins at the key's home and goes up from row to row; the last row is followed by the first.
ghost use Rattle.std.specs.Prelude.{◌≡◌, ◌<◌};
ghost use Rattle.map_cargo.specs.Rows.{home, row_above, way};

use crate::size::MapCargo;

impl MapCargo {
    /// Where the search for a key begins.
    #[tactic(auto, using(crate::proofs::Ways::home_below), unfolding(crate::specs::Rows::home))]
    pub(crate) fn home(&self, key: u64) -> u64
        ensures is { result ≡ home self.now.rows key }
        ensures low { result < self.now.rows }
    {
        (key.wrapping_mul(11400714819323198485) >> 32) % self.rows
    }

    /// The next row up.
    #[tactic(auto, using(crate::proofs::Ways::above_below))]
    pub(crate) fn row_above(&self, row: u64) -> u64
        requires { row < self.now.rows }
        ensures is { result ≡ row_above self.now.rows row }
        ensures low { result < self.now.rows }
    {
        if row + 1 == self.rows { 0 } else { row + 1 }
    }

    /// How many rows it is up from one to another.
    #[tactic(auto, unfolding(crate::specs::Rows::way))]
    pub(crate) fn way(&self, from: u64, to: u64) -> u64
        requires from { from < self.now.rows }
        requires to { to < self.now.rows }
        ensures { result ≡ way self.now.rows from to }
    {
        if from <= to {
            to - from
        } else {
            to + self.rows - from
        }
    }
}
