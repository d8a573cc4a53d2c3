//! Turns of the turn lock and of a plain mutex, on the same work: each turn adds one entry to a list.
//!
//! With the words `KIND WORKERS TURNS`, KIND being `turns` or `mutex`, it prints the nanoseconds that so many
//! workers needed for so many turns each. Without words it takes a few turns of both and prints how many entries
//! there are, which no schedule changes.
#![tactic(auto)]

mod log;
mod work;

use std::env;
use std::process::ExitCode;
use std::time::Instant;
use work::{with_lock, with_mutex};

fn main(rt: HostRuntime) -> anyhow::Result<ExitCode> {
    let mut words = Vec::new(rt.alloc());
    for word in env::args(&rt)?.skip(1) {
        words.push(word)?;
    }
    match words.as_slice() {
        [] => {
            println!(rt; "turns {}", with_lock(&rt, rt.alloc(), 2, 1_000)?)?;
            println!(rt; "mutex {}", with_mutex(&rt, rt.alloc(), 2, 1_000)?)?;
            Ok(ExitCode::SUCCESS)
        }
        [kind, workers, turns] => {
            let workers: usize = workers.parse()?;
            let turns: u64 = turns.parse()?;
            let start = Instant::now(&rt)?;
            let count = if kind.as_str() == "turns" {
                with_lock(&rt, rt.alloc(), workers, turns)?
            } else {
                with_mutex(&rt, rt.alloc(), workers, turns)?
            };
            let elapsed = start.elapsed(&rt)?.as_nanos();
            println!(rt; "{elapsed} {count}")?;
            Ok(ExitCode::SUCCESS)
        }
        _ => {
            println!(rt; "usage: turn_bench [turns|mutex WORKERS TURNS]")?;
            Ok(ExitCode::FAILURE)
        }
    }
}
