//! How large the cargo is.
ghost use Rattle.std.specs.Prelude.{◌<◌, ◌^◌, ◌+◌, ◌*◌};

/// A cargo of maps: so many cells, with so many rows each, and a log row for each write. Cell c stands behind lock c.
///
/// There are `cells * (1 + 3 * rows) + 1 + 8 * writes` words, fewer than 2^32.
#[derive(Drop)]
pub struct MapCargo {
    pub cells: u64,
    /// How many keys a cell has room for: at least one, and below 2^30.
    pub rows: u64,
    /// How many writes can be drawn.
    pub writes: u64,
    ghost small: { (cells * (1 + 3 * rows) + 1 + 8 * writes < 2 ^ 32) × (rows < 2 ^ 30) × (0 < rows) },
}
