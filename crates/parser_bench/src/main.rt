//! The parser of classes on standard input: prints how many forms the class has open at once, at the most.
//!
//! With the word `time` it prints the nanoseconds that the lexing and the parsing took before that.
#![tactic(auto)]

use apex_io::{StdSource, read_all};
use apex_lexer::lex;
use apex_parse_unit::class_unit;
use apex_syntax::depth;
use std::env;
use std::process::ExitCode;
use std::time::Instant;

// The greatest text that is read.
const MOST_BYTES: usize = 1_000_000_000;

fn main(rt: HostRuntime) -> anyhow::Result<ExitCode> {
    let timed = env::args(&rt)?.len() > 1;
    let mut source = StdSource::new(rt.stdin());
    let Ok(text) = read_all(rt.alloc(), &mut source, MOST_BYTES) else {
        return Ok(ExitCode::FAILURE);
    };
    let start = Instant::now(&rt)?;
    let Ok(tokens) = lex(rt.alloc(), text.as_slice()) else {
        return Ok(ExitCode::FAILURE);
    };
    let Ok(unit) = class_unit(rt.alloc(), tokens.as_slice()) else {
        return Ok(ExitCode::FAILURE);
    };
    let elapsed = start.elapsed(&rt)?.as_nanos();
    let most = depth(unit.get());
    if timed {
        println!(rt; "{elapsed} {most}")?;
    } else {
        println!(rt; "depth {most}")?;
    }
    Ok(ExitCode::SUCCESS)
}
