// What the programs that try shards share: cases on an input, a shard read in pieces, step by step and into rows, verdicts compared and told, and a shard written
// again from what the reader hands out.
#![tactic(auto)]

pub mod again;
pub mod cases;
pub mod pieces;
pub mod rows;
pub mod told;
