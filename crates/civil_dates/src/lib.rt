//! Days and moments of the years 1 to 9999 by their numbers from 1970-01-01, in UTC: their dates, their texts, and the
//! methods of Date and Datetime over them. The calendar is the Gregorian one, carried back before its time; civil dates are
//! those of `jiff_core`.
#![tactic(auto)]

mod dates;
mod days;
mod laws;
mod moments;
mod texts;

pub use dates::{
    civil, date_of, days_in, days_later, is_leap, month_start, months_later, years_later,
};
pub use days::Civil;
pub use laws::{laws_of_days, laws_of_moments, laws_of_texts};
pub use moments::{add_days, add_hours, add_minutes, add_seconds, new_moment, read_stamp, split};
pub use texts::{begins_date, begins_moment, read_date, read_moment};
