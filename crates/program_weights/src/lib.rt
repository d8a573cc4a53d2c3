//! That the machine of whole programs comes to an end: a number that each of its steps lowers (docs/language.md, "The machine of
//! whole programs").
#![tactic(auto)]
