//! `apexd`: a compiler and runtime for Apex. It runs the command that its words say, on standard input and output.
#![tactic(auto)]

use apex_io::{StdSink, StdSource};
use commands::{Kept, top};
use std::env;
use std::io::ErrorKind;
use std::process::ExitCode;

// The status where memory for the words is refused.
const NO_MEMORY: u8 = 5;

// Words that aren't UTF-8 are no command.
fn main(rt: HostRuntime) -> ExitCode {
    let mut words = Vec::new(rt.alloc());
    match env::args(&rt) {
        Err(fault) => {
            if fault.kind() == ErrorKind::OutOfMemory {
                return ExitCode::from(NO_MEMORY);
            }
        }
        Ok(args) => {
            for word in args.skip(1) {
                if words.push(word).is_err() {
                    return ExitCode::from(NO_MEMORY);
                }
            }
        }
    }
    let mut source = StdSource::new(rt.stdin());
    let mut sink = StdSink::new(rt.stdout());
    let mut kept = Kept::new(rt.alloc());
    ExitCode::from(top(rt.alloc(), &words, &mut source, &mut sink, &mut kept))
}
