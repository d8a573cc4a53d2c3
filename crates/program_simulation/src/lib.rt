//! That the machine does what the expressions of a program mean, over the image of the program, as proofs that no program runs
//! (docs/language.md, "The machine of whole programs").
#![tactic(auto)]
