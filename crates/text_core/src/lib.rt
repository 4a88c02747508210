//! Names, texts and lists, and the interfaces to the outside: shelves of files to read and sinks to write to.
#![tactic(auto)]

mod bytes;
mod end;
mod errors;
pub mod kinds;
mod lists;
mod memory;
mod name;
mod names;
mod outside;
mod place;
mod real;
mod text;
mod verdict;
mod whole;

pub use bytes::{is_digit, is_same};
pub use end::End;
pub use errors::{NoMemory, ReadEnd, ShelfFault, SinkFault};
pub use lists::{FilePair, FilePairs, List, Numbers};
pub use memory::{DropSink, MemoryShelf, MemorySink, SureShelf};
pub use name::Name;
pub use names::Names;
pub use outside::{Shelf, Sink};
pub use place::{FIRST_PLACE, Kind, Place, Refusal};
pub use real::{FileShelf, StreamSink};
pub use text::Text;
pub use verdict::{Clause, Verdict};
pub use whole::{read_whole, write_whole};
