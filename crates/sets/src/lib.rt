// Lists and sets of atoms: what the crates above share, and nothing of boards. `specs/` has a set as the number whose binary digits are its
// members; `mask` has a set as code holds it, two words, with one small function for each thing that is done with a set. The laws of both
// stand under `proofs/Laws`, so that nothing above looks at a digit. `zero` tells of numbers of any width whether the rest of a slice is zero.
#![tactic(auto)]

pub mod mask;
pub mod zero;
