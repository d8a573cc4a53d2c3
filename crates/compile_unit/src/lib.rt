//! From typed programs to their images: classes with their tables, constructors and methods, triggers with what they fire on,
//! and blocks (docs/language.md, "The machine of whole programs").
#![tactic(auto)]

mod bodies;
mod classes;
mod firings;
mod image;
mod parents;
mod starts;
mod tables;

pub use image::compile;
