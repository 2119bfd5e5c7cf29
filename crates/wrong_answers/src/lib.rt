// A theory alone: wrong answers of every public operation, each shown to be none that its promise allows. What that means is said in specs/Wrong, and the
// lists stand beside it, one file for each crate.
#![tactic(auto)]
