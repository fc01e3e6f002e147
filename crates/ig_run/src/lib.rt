//! The program and its workers over memory, as a transcript plays them. No public function here has a clause, so that the program
//! above reads none of the contracts below; what is expected stands in the transcripts.
#![tactic(auto)]

mod calling;
mod hand;

pub use calling::call;
pub use hand::Hand;
