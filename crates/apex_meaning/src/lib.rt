//! What the code of a whole program means: a source evaluator of classes, loops, exceptions and collections, as definitions that no
//! program runs (docs/language.md, "What whole programs do").
#![tactic(auto)]
