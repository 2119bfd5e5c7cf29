// Bytes read until a buffer is full.
#![tactic(auto)]

pub mod input;
