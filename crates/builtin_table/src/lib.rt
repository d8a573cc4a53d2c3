//! The built-in methods of Apex: what each answers or throws.
#![tactic(auto)]

mod call;
mod call_date;
mod call_number;
mod call_text;
mod exception;
mod laws;
mod method;
mod shown;
mod values;

pub use call::{call_builtin, has_null};
pub use exception::{BuiltinEnd, ExceptionClass};
pub use laws::{laws_of_numbers, laws_of_texts};
pub use method::{
    Builtin, DateMethod, DecimalMethod, ListMethod, MapMethod, MathMethod, MomentMethod,
    NullableMethod, PlatformMethod, ReadMethod, SetMethod, TextAtMethod, TextMethod, TextsMethod,
};
pub use shown::{text_length, text_of};
