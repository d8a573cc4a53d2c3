//! Methods of String over texts: positions and lengths count Unicode scalar values from 0.
#![tactic(auto)]

mod finds;
mod laws;
mod letters;
mod places;
mod replaces;

pub use finds::{
    after, before, contains, first_index, index_from, last_index, split_first, split_last,
    strip_end, strip_start, without_end, without_start,
};
pub use laws::{
    laws_of_blanks, laws_of_letters, laws_of_occurrences, laws_of_parts, laws_of_places,
};
pub use letters::{
    capitalize, is_blank, is_numeric, left_pad, padded_size, repeated, repeated_size, reverse,
    right_pad, trim, uncapitalize,
};
pub use places::{left, length, mid, part, part_from, right};
pub use replaces::{count_matches, replace, replaced_size};
