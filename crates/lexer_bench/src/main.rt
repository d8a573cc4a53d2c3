//! The lexer on standard input: prints how many tokens the text has.
//!
//! With the word `time` it prints the nanoseconds that the lexing took before them.
#![tactic(auto)]

use apex_io::{StdSource, read_all};
use apex_lexer::lex;
use std::env;
use std::process::ExitCode;
use std::time::Instant;

// The greatest text that is read.
const MOST_BYTES: usize = 1_000_000_000;

fn main(rt: HostRuntime) -> anyhow::Result<ExitCode> {
    let timed = env::args(&rt)?.len() > 1;
    let mut source = StdSource::new(rt.stdin());
    let Ok(text) = read_all(rt.alloc(), &mut source, MOST_BYTES) else {
        return Ok(ExitCode::FAILURE);
    };
    let start = Instant::now(&rt)?;
    let Ok(tokens) = lex(rt.alloc(), text.as_slice()) else {
        return Ok(ExitCode::FAILURE);
    };
    let elapsed = start.elapsed(&rt)?.as_nanos();
    if timed {
        println!(rt; "{elapsed} {}", tokens.len())?;
    } else {
        println!(rt; "tokens {}", tokens.len())?;
    }
    Ok(ExitCode::SUCCESS)
}
