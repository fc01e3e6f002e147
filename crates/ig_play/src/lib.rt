//! What a transcript plays below the command line, over memory: its files, clock and faults; readers and other functions by
//! themselves; and the chunks of small layers. Each takes words and gives texts. Nothing public here has a clause, so that the crates
//! above read none of the contracts below; what is expected stands in the transcripts.
#![tactic(auto)]

mod boxes;
mod codecs;
mod files;
mod globals;
mod infos;
mod layer;
mod mips;
mod moves;
mod names;
mod numbers;
mod parts;
mod reader;
mod stages;
mod store;
mod told;
mod world;

pub use layer::{chunks_with, short_info};
pub use numbers::{bytes_of_hex, bytes_of_words, number};
pub use reader::ask;
pub use told::{Told, steps_text, text_of};
pub use world::World;
