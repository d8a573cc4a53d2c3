// Where something stands in a text.

ghost use Rattle.std.specs.Prelude.{◌≡◌, ◌≤◌, length};
ghost use Rattle.apex_text.specs.Place.{IsPlace};

/// A range of bytes in a text: the places from `from`, counted from 0, up to and not including `to`.
#[derive(Clone, Copy, Debug, PartialEq, Eq, Hash, Drop)]
pub struct Span {
    pub from: usize,
    pub to: usize,
}

/// The line and the byte column of a place, both from 1. Only a line feed ends a line.
pub fn line_of(text: &[u8], at: usize) -> (usize, usize)
    requires { at ≤ length text.now }
    ensures { IsPlace text.now at result.0 result.1 }
{
    let mut line = 1;
    let mut column = 1;
    for i in 0..at {
        if text[i] == b'\n' {
            line += 1;
            column = 1;
        } else {
            column += 1;
        }
    }
    (line, column)
}
