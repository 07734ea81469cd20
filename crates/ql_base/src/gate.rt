//! Gates.

/// What holds queries back: a caller calls `before` ahead of each query and `after` behind it, with its own number and
/// the query's index.
///
/// A gate may make a caller wait and changes no answer, so its calls have no meaning for a contract. Tests use one to
/// choose an order of the callers. Both calls return.
pub trait Gate: Sync {
    /// Comes ahead of the query.
    fn before(&self, caller: u64, query: u64);

    /// Comes behind the query.
    fn after(&self, caller: u64, query: u64);
}

/// A gate that holds nothing back.
#[derive(Clone, Copy, Debug, Default)]
pub struct OpenGate;

impl Gate for OpenGate {
    fn before(&self, _caller: u64, _query: u64) {}

    fn after(&self, _caller: u64, _query: u64) {}
}
