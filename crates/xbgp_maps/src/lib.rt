//! Maps of programs: finite maps from keys to values of fixed widths, which share one journal of writes.
//!
//! [`Maps::make`] makes all maps at once, by their shapes, and takes all memory there, so no later call asks for any.
//! Programs read by [`get`](Maps::get), [`shape`](Maps::shape), [`key_after`](Maps::key_after) and
//! [`entry_after`](Maps::entry_after). They write within a run, which [`begin`](Maps::begin) opens and which is closed
//! by keeping all its writes or by undoing all of them: the journal has each write with the value before it, at most
//! [`BUDGET`](limits::BUDGET) of them, and `undo` goes through it from the last to the first.
//!
//! Each map is a balanced search tree, and the nodes for the entries that it may still get are made with it. A look-up,
//! a write, a removal and a step of a walk go down a tree once or twice, and by the law `trees_are_low` it has at most
//! [`MAX_LEVELS`](limits::MAX_LEVELS) levels.
//!
//! What a program may call, and how its calls are numbered, is not here. `specs/Mappings` says what the maps, their
//! limits and the results are, in the words of finite maps; `specs/Trees`, `specs/Tables` and `specs/Journals` say how
//! they are kept.
#![tactic(auto)]

mod journal;
mod key;
pub mod laws;
pub mod limits;
mod maps;
mod node;
mod shape;
mod table;
mod tree;

pub use maps::Maps;
pub use shape::{MapShape, Put, Remove};
