//! What the program reads from, writes to, asks for the time and is held back by.
//!
//! A [`Source`] and a [`Sink`] move bytes and count their faults, a [`Clock`] answers numbers, and a [`Gate`] holds a
//! query back without changing its answer. The crate stands on std, and on `crossbeam_utils` for the padded words of
//! two gates. Everything above it is generic over these traits, so that the same code runs over the real streams and
//! over the objects in memory that the tests use.
//!
//! The contracts speak of bytes and of answers only where an object tells them, so a stream of the system may tell
//! nothing. They always speak of the counts of faults: these never fall, and a fault is answered only where its count
//! rose. Code that is generic over a source or a sink can't raise a count by itself, so it can't invent a fault.
#![tactic(auto)]

mod clock;
mod fault;
mod gate;
mod hold_gate;
mod list_clock;
mod memory;
mod sink;
mod source;
mod turn_gate;
mod turns;

pub use clock::{Clock, Clocks};
pub use fault::{Failed, NoMemory, ReadFault};
pub use gate::{Gate, OpenGate};
pub use hold_gate::HoldGate;
pub use list_clock::{ListClock, ListClocks, SliceClock};
pub use memory::{MemSink, MemSource};
pub use sink::{Sink, write_whole};
pub use source::{Source, read_to_end};
pub use turn_gate::TurnGate;

#[cfg(test)]
mod tests;
