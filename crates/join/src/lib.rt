// Joining two shards without footer into a lent buffer: the first one's files, then the second's, and the same for xorbs.
// What is answered and written is said in specs/Join.
#![tactic(auto)]

mod accepted;
mod joining;

pub use joining::join;
