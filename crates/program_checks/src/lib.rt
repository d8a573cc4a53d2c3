//! The check of an image: no jump of it leads out of its code, and what leads back charges a step. The image of every
//! program passes (docs/language.md, "The machine of whole programs").
#![tactic(auto)]

mod check;
mod laws;

pub use check::check_image;
pub use laws::images_are_checked;
