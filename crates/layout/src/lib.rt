// A theory alone: what bytes mean by the rules, the shard as a tree, and that the rules accept exactly the bytes of such trees.
// It is said in specs/ (Scan, Layout, Claim, Refusal, Reach, Quay) and proved in proofs/.
#![tactic(auto)]
