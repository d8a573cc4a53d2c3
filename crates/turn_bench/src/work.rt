// The same work under the turn lock and under a mutex.

ghost use Rattle.std.specs.Prelude.{◌≡◌, ℕ, ◌+◌, ◌<◌, [], ◌∷◌, length, slice_get, Some, All, IfSome, IfOk};
ghost use Rattle.turn_lock.specs.Passes.{IsPassOf, numbers};
ghost use Rattle.turn_lock.specs.declared.handles.Pass.{Pass as ThePass};

use crate::log::{Log, Mark};
use std::alloc::{AllocError, Global};
use std::sync::{Mutex, Wait};
use std::thread::Threads;
use turn_lock::{Pass, TurnLock};
use worker_pool::{Job, run_all};

// A worker with a pass.
#[derive(Drop)]
struct Player<'a> {
    lock: &'a TurnLock<Log>,
    pass: Option<Pass<Log>>,
    n: u64,
    turns: u64,
}

impl Job for Player<'_> {
    ghost is_ready = { λ w. IfSome w.pass (λ p. IsPassOf w.lock.now p × (numbers p ≡ w.n ∷ [])) };

    ghost comes_to = { λ _ _. Unit {0} };

    fn run<R: Wait>(&mut self, rt: &R) {
        let lock = self.lock;
        if let Some(pass) = self.pass.take() {
            self.pass = Some(take_turns(rt, lock, pass, self.n, self.turns));
        }
    }
}

fn one_turn<R: Wait>(
    rt: &R,
    lock: &TurnLock<Log>,
    pass: Pass<Log>,
    worker: u64,
    turn: u64,
) -> Pass<Log>
    requires own { IsPassOf lock.now pass }
    requires number { numbers pass ≡ worker ∷ [] }
    ensures own { IsPassOf lock.entry.now result }
    ensures number { numbers result ≡ worker ∷ [] }
{
    let mut held = lock.take(rt, pass);
    held.value.add(Mark { worker, turn });
    lock.give(held)
}

fn take_turns<R: Wait>(
    rt: &R,
    lock: &TurnLock<Log>,
    pass: Pass<Log>,
    worker: u64,
    turns: u64,
) -> Pass<Log>
    requires own { IsPassOf lock.now pass }
    requires number { numbers pass ≡ worker ∷ [] }
    ensures own { IsPassOf lock.entry.now result }
    ensures number { numbers result ≡ worker ∷ [] }
{
    let mut pass = pass;
    for turn in 0..turns {
        pass = one_turn(rt, lock, pass, worker, turn);
    }
    pass
}

// The last of the passes, with its number.
fn last_of(lock: &TurnLock<Log>, passes: &mut Vec<Pass<Log>>) -> Option<(Pass<Log>, u64)>
    requires each { (k : ℕ) (p : ThePass _ _) → slice_get passes.old.items k ≡ Some p → IsPassOf lock.now p × (numbers p ≡ k ∷ []) }
    ensures each { (k : ℕ) (p : ThePass _ _) → slice_get passes.new.items k ≡ Some p → IsPassOf lock.entry.now p × (numbers p ≡ k ∷ []) }
    ensures last { IfSome result (λ q. IsPassOf lock.entry.now q.0 × (numbers q.0 ≡ q.1 ∷ [])) }
    ensures number { IfSome result (λ q. length passes.old.items ≡ length passes.new.items + 1) }
{
    match passes.pop() {
        Some(pass) => Some((pass, passes.len() as u64)),
        None => None,
    }
}

fn players_of<'a>(
    lock: &'a TurnLock<Log>,
    alloc: Global,
    passes: &mut Vec<Pass<Log>>,
    turns: u64,
) -> Result<Vec<Player<'a>>, AllocError>
    requires { (k : ℕ) (p : ThePass _ _) → slice_get passes.old.items k ≡ Some p → IsPassOf lock.now p × (numbers p ≡ k ∷ []) }
    ensures { IfOk result (λ v. All (λ w. IfSome w.pass (λ p. IsPassOf w.lock.now p × (numbers p ≡ w.n ∷ []))) v.items) }
{
    let mut players = Vec::new(alloc);
    while let Some((pass, n)) = last_of(lock, passes) {
        players.push(Player {
            lock,
            pass: Some(pass),
            n,
            turns,
        })?;
    }
    Ok(players)
}

fn count_entries<R: Wait>(rt: &R, lock: &TurnLock<Log>, pass: Pass<Log>, worker: u64) -> usize
    requires own { IsPassOf lock.now pass }
    requires number { numbers pass ≡ worker ∷ [] }
{
    let held = lock.take(rt, pass);
    let count = held.value.entries.len();
    lock.give(held);
    count
}

/// How many entries there are after so many turns of each worker under the turn lock.
pub fn with_lock<R: Threads + Wait + Sync>(
    rt: &R,
    alloc: Global,
    workers: usize,
    turns: u64,
) -> Result<usize, AllocError> {
    let (lock, mut passes) = TurnLock::open(rt, alloc, Log::new(alloc), workers.saturating_add(1))?;
    let Some((last, n)) = last_of(&lock, &mut passes) else {
        return Ok(0);
    };
    let mut players = players_of(&lock, alloc, &mut passes, turns)?;
    run_all(rt, &mut players, workers.max(1));
    Ok(count_entries(rt, &lock, last, n))
}

// A worker without a pass.
#[derive(Drop)]
struct Adder<'a> {
    log: &'a Mutex<Log>,
    n: u64,
    turns: u64,
}

impl Job for Adder<'_> {
    ghost is_ready = { λ _. Unit {0} };

    ghost comes_to = { λ _ _. Unit {0} };

    fn run<R: Wait>(&mut self, rt: &R) {
        for turn in 0..self.turns {
            let mut log = self.log.lock(rt);
            log.add(Mark {
                worker: self.n,
                turn,
            });
        }
    }
}

/// The same under a mutex.
pub fn with_mutex<R: Threads + Wait + Sync>(
    rt: &R,
    alloc: Global,
    workers: usize,
    turns: u64,
) -> Result<usize, AllocError> {
    let log = Mutex::new(Log::new(alloc));
    let mut adders = Vec::new(alloc);
    for n in 0..workers as u64 {
        adders.push(Adder {
            log: &log,
            n,
            turns,
        })?;
    }
    run_all(rt, &mut adders, workers.max(1));
    let count = log.lock(rt).entries.len();
    Ok(count)
}
