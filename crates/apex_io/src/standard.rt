// Standard input and output. What they really give and take no contract can say: this is the trusted edge.

ghost use Rattle.std.specs.Prelude.{◌≡◌, None};

use crate::outside::{Pulled, Pushed, Sink, Source};
use std::io::{Read, Stdin, Stdout, Write};

/// Standard input. It tells no content.
#[derive(Drop)]
pub struct StdSource {
    input: Stdin,
    pub faults: u64,
}

impl StdSource {
    /// Standard input, of which nothing was read and no read failed.
    pub fn new(input: Stdin) -> StdSource
        ensures { result.faults ≡ 0 }
    {
        StdSource { input, faults: 0 }
    }
}

impl Source for StdSource {
    ghost left = { λ _. None };

    ghost faults = { λ s. s.faults };

    ghost calls = { λ _. 0 };

    fn pull(&mut self, into: &mut [u8]) -> Pulled {
        match self.input.read(into) {
            Ok(0) => Pulled::End,
            Ok(n) => Pulled::Bytes(n),
            Err(_) => {
                self.faults = self.faults.saturating_add(1);
                Pulled::Failed
            }
        }
    }
}

/// Standard output. It tells no content.
#[derive(Drop)]
pub struct StdSink {
    output: Stdout,
    pub faults: u64,
}

impl StdSink {
    /// Standard output, to which nothing was written and no write failed.
    pub fn new(output: Stdout) -> StdSink
        ensures { result.faults ≡ 0 }
    {
        StdSink { output, faults: 0 }
    }
}

impl Sink for StdSink {
    ghost held = { λ _. None };

    ghost faults = { λ s. s.faults };

    fn push(&mut self, piece: &[u8]) -> Pushed {
        match self.output.write(piece) {
            Ok(n) if n > 0 || piece.is_empty() => Pushed::Took(n),
            _ => {
                self.faults = self.faults.saturating_add(1);
                Pushed::Failed
            }
        }
    }
}
