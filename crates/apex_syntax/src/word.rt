// Names where they stand.

use apex_text::{Name, Span};

/// A name and where it is written: byte places from 0.
#[derive(Drop)]
pub struct Word {
    pub span: Span,
    /// The name, folded.
    pub name: Name,
}
