// The firings of triggers in a save.

use crate::Pending;
use apex_list::{Boxed, Items};
use apex_num::Text;
use apex_rows::Row;
use platform_errors::RecordError;

/// A trigger: its name as it is written, and its number.
#[derive(Drop)]
pub struct Trigger {
    pub name: Text,
    pub number: usize,
}

/// A record as a trigger left it, with the message of its first error.
#[derive(Drop)]
pub struct Left {
    pub row: Row,
    pub message: Option<Text>,
}

/// What a firing comes to.
#[derive(Drop)]
pub enum Fired {
    /// It ended, and left its records so.
    Ran(Items<Left>),
    /// It threw an exception of a class with a message, and left its records so.
    Threw(Text, Text, Items<Left>),
}

/// A record in a phase of triggers.
#[derive(Drop)]
pub enum Entry {
    /// It entered the phase, and has its first error there.
    Inside(Boxed<Pending>, Option<RecordError>),
    /// It had an error before.
    Outside(RecordError),
}
