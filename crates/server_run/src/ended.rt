//! What the two closes of a run leave.
ghost use Rattle.std.specs.Prelude.{◌≡◌, None};

use combine_job::parcel::Parcel;
use hall::Closed;
use map_cargo::MapCargo;
use query_log::{Ledger, LedgerJob};
use waiter_chain::make::Retired;

/// What the close of the hall and the close of the ledger's lock gave, where a run came to its end. The program reads
/// nothing of it. It is there for the proof: only a close of a hall and of a lock makes what it holds, and it says what
/// the passes told.
#[derive(Drop)]
pub struct Ended {
    pub hall: Option<Closed<MapCargo>>,
    pub dist: Option<Retired<Parcel<Ledger, LedgerJob>>>,
}

impl Ended {
    /// Nothing was closed yet.
    pub fn new() -> Self
        ensures { (result.hall ≡ None) × (result.dist ≡ None) }
    {
        Ended {
            hall: None,
            dist: None,
        }
    }
}
