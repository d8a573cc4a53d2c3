//! That the image of a program means it (docs/language.md, "The machine of whole programs").
#![tactic(auto)]

mod laws;

pub use laws::laws_of_images;
