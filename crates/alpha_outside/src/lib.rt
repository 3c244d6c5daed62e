//! What the solver takes from outside and gives to it: files, sinks of bytes, traces of events, and the plain types of which
//! events consist.
//!
//! A fault is answered only where the object's count of faults rose in the call, so that no caller can invent one.
#![tactic(auto)]

mod event;
mod ids;
mod in_memory;
mod kinds;
mod literal;
mod maker;
mod memory;
mod name;
mod node;
mod pattern;
mod pred;
mod real;
mod stops;
#[cfg(test)]
mod tests;
mod traits;

pub use event::{Event, How};
pub use ids::{AtomId, InstId, NogoodId, PredId, TermId};
pub use in_memory::{MemShelf, MemSink, MemTrace, NoTrace};
pub use kinds::{ArithOp, RuleKind};
pub use literal::{Lit, Value};
pub use maker::{Maker, Step};
pub use memory::OutOfMemory;
pub use name::Name;
pub use node::Node;
pub use pattern::{Pattern, PatternTerm};
pub use pred::Pred;
pub use real::{DirShelf, StdSink};
pub use sqlite_items::{Boxed, Items as List};
pub use stops::{ReadStop, SinkStop, TraceStop};
pub use traits::{Shelf, Sink, Trace};
