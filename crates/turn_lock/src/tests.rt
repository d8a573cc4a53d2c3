// Passes in real threads.

ghost use Rattle.std.specs.Prelude.{◌≡◌, ◌⊎◌, ℕ, ◌+◌, ◌^◌, ◌<◌, ◌≤◌, [], ◌∷◌, ◌++◌, length, slice_get, Some, All, IfSome, IfOk};
ghost use Rattle.turn_lock.specs.declared.handles.Pass.{Pass as ThePass};
ghost use Rattle.turn_lock.specs.Passes.{IsPassOf, numbers, passes_of};

use super::*;
use std::alloc::{AllocError, Global};
use std::process::Abort;
use std::sync::Wait;
use std::test::Fail;
use std::thread::{Threads, for_each_mut, join};

#[derive(Clone, Copy, Debug, PartialEq, Eq, Drop)]
struct Mark {
    pass: u64,
    step: u64,
}

const MOST: usize = 1 << 40;

#[derive(Drop)]
struct Log {
    entries: Vec<Mark>,
    ghost short: { length entries.items ≤ 2 ^ 40 },
}

impl Log {
    fn new(alloc: Global) -> Log
        ensures { result.entries.items ≡ [] }
    {
        Log {
            entries: Vec::new(alloc),
        }
    }

    // Adds an entry, where there is memory.
    fn add(&mut self, mark: Mark)
        ensures { (self.new.entries.items ≡ self.old.entries.items) ⊎ (self.new.entries.items ≡ self.old.entries.items ++ mark ∷ []) }
    {
        if self.entries.len() < MOST {
            let _ = self.entries.push(mark);
        }
    }
}

impl Kept for Log {
    type Entry = Mark;

    ghost entries = { λ l. l.entries.items };

    ghost has_same_basis = { λ a b. Unit {0} };

    ghost number_of = { λ e. e.pass };

    fn count(&self) -> u64 {
        self.entries.len() as u64
    }

    ghost same = { λ _. tt };
}

// A turn of the pass n, which adds an entry.
fn one_turn<R: Wait>(rt: &R, lock: &TurnLock<Log>, pass: Pass<Log>, n: u64, step: u64) -> Pass<Log>
    requires own { IsPassOf lock.now pass }
    requires number { numbers pass ≡ n ∷ [] }
    ensures own { IsPassOf lock.entry.now result }
    ensures number { numbers result ≡ n ∷ [] }
{
    let mut held = lock.take(rt, pass);
    held.value.add(Mark { pass: n, step });
    lock.give(held)
}

fn turns<R: Wait>(rt: &R, lock: &TurnLock<Log>, pass: Pass<Log>, n: u64, count: u64) -> Pass<Log>
    requires own { IsPassOf lock.now pass }
    requires number { numbers pass ≡ n ∷ [] }
    ensures own { IsPassOf lock.entry.now result }
    ensures number { numbers result ≡ n ∷ [] }
{
    let mut pass = pass;
    for step in 0..count {
        pass = one_turn(rt, lock, pass, n, step);
    }
    pass
}

// Whether the entries of each pass are there in the order of its turns.
fn in_order(entries: &[Mark], next: &mut [u64]) -> bool {
    for mark in entries {
        let at = mark.pass as usize;
        if at >= next.len() || next[at] != mark.step {
            return false;
        }
        next[at] = mark.step.saturating_add(1);
    }
    true
}

// The last of the passes, with its number.
fn last_of(lock: &TurnLock<Log>, passes: &mut Vec<Pass<Log>>) -> Option<(Pass<Log>, u64)>
    requires each { (k : ℕ) (p : ThePass _ _) → slice_get passes.old.items k ≡ Some p → IsPassOf lock.now p × (numbers p ≡ k ∷ []) }
    ensures each { (k : ℕ) (p : ThePass _ _) → slice_get passes.new.items k ≡ Some p → IsPassOf lock.entry.now p × (numbers p ≡ k ∷ []) }
    ensures last { IfSome result (λ q. IsPassOf lock.entry.now q.0 × (numbers q.0 ≡ q.1 ∷ [])) }
    ensures number { IfSome result (λ q. (length passes.old.items ≡ q.1 + 1) × (length passes.new.items ≡ q.1)) }
{
    match passes.pop() {
        Some(pass) => Some((pass, passes.len() as u64)),
        None => None,
    }
}

// A lock and a pass may go to another thread, and two threads may see a lock, where the value may.
fn sent<X: Send>(x: X) -> X
    ensures { result ≡ x }
{
    x
}

fn shared<X: Sync>(x: &X) -> &X
    ensures { result.now ≡ x.now }
{
    x
}

fn sent_pass<T: Kept + Send>(pass: Pass<T>) -> Pass<T>
    ensures { result ≡ pass }
{
    sent(pass)
}

fn sent_lock<T: Kept + Send>(lock: TurnLock<T>) -> TurnLock<T>
    ensures { result ≡ lock }
{
    sent(lock)
}

fn shared_lock<T: Kept + Send>(lock: &TurnLock<T>) -> &TurnLock<T>
    ensures { result.now ≡ lock.now }
{
    shared(lock)
}

// Two passes take their turns in two threads, and the lock is closed.
fn both_turns<R: Threads + Wait + Sync>(
    rt: &R,
    lock: TurnLock<Log>,
    first: Pass<Log>,
    second: Pass<Log>,
    count: u64,
) -> Log
    requires first { IsPassOf lock first × (numbers first ≡ 0 ∷ []) }
    requires second { IsPassOf lock second × (numbers second ≡ 1 ∷ []) }
    requires two { passes_of lock ≡ 2 }
{
    let shared = shared_lock(&lock);
    let (a, b) = join(
        rt,
        move ||
            requires { IsPassOf shared.now first × (numbers first ≡ 0 ∷ []) }
            ensures { IsPassOf shared.entry.now result × (numbers result ≡ 0 ∷ []) }
        { turns(rt, shared, first, 0, count) },
        move ||
            requires { IsPassOf shared.now second × (numbers second ≡ 1 ∷ []) }
            ensures { IsPassOf shared.entry.now result × (numbers result ≡ 1 ∷ []) }
        { turns(rt, shared, second, 1, count) },
    );
    let all = lock.meet(a, b);
    lock.close(all)
}

#[test]
fn two_passes(rt: HostRuntime) -> Result<(), Fail> {
    let (lock, mut passes) = TurnLock::open(&rt, rt.alloc(), Log::new(rt.alloc()), 2)?;
    let (second, _) = last_of(&lock, &mut passes).expect(&rt, "a pass");
    let (first, _) = last_of(&lock, &mut passes).expect(&rt, "a pass");
    let log = both_turns(&rt, sent_lock(lock), sent_pass(first), second, 20_000);
    let mut next = [0; 2];
    assert!(rt; in_order(&log.entries, &mut next));
    assert_eq!(rt; next, [20_000; 2]);
    Ok(())
}

// A pass with the turns that it is to take.
#[derive(Drop)]
struct Player {
    pass: Option<Pass<Log>>,
    n: u64,
    count: u64,
}

fn play<R: Wait>(rt: &R, lock: &TurnLock<Log>, player: &mut Player)
    requires { IfSome player.old.pass (λ p. IsPassOf lock.now p × (numbers p ≡ player.old.n ∷ [])) }
{
    if let Some(pass) = player.pass.take() {
        player.pass = Some(turns(rt, lock, pass, player.n, player.count));
    }
}

fn players_of(
    lock: &TurnLock<Log>,
    alloc: Global,
    passes: Vec<Pass<Log>>,
    count: u64,
) -> Result<Vec<Player>, AllocError>
    requires { (k : ℕ) (p : ThePass _ _) → slice_get passes.items k ≡ Some p → IsPassOf lock.now p × (numbers p ≡ k ∷ []) }
    ensures { IfOk result (λ v. All (λ q. IfSome q.pass (λ p. IsPassOf lock.now p × (numbers p ≡ q.n ∷ []))) v.items) }
{
    let mut passes = passes;
    let mut players = Vec::new(alloc);
    while let Some((pass, n)) = last_of(lock, &mut passes) {
        players.push(Player {
            pass: Some(pass),
            n,
            count,
        })?;
    }
    Ok(players)
}

fn play_all<R: Threads + Wait + Sync>(rt: &R, lock: &TurnLock<Log>, players: &mut [Player])
    requires { All (λ q. IfSome q.pass (λ p. IsPassOf lock.now p × (numbers p ≡ q.n ∷ []))) players.old }
{
    let threads = players.len().max(1);
    for_each_mut(
        rt,
        players,
        threads,
        &|_, player: &mut Player|
            requires { IfSome player.old.pass (λ p. IsPassOf lock.now p × (numbers p ≡ player.old.n ∷ [])) }
        { play(rt, lock, player) },
    );
}

// Whether the log has the entries of each pass in order; the turn adds none.
fn looks_right<R: Wait>(
    rt: &R,
    lock: &TurnLock<Log>,
    pass: Pass<Log>,
    n: u64,
    next: &mut [u64],
) -> bool
    requires own { IsPassOf lock.now pass }
    requires number { numbers pass ≡ n ∷ [] }
{
    let held = lock.take(rt, pass);
    let right = in_order(&held.value.entries, next);
    lock.give(held);
    right
}

// So many passes in as many threads, and one more that looks at the log.
fn many<R: Threads + Wait + Abort + Sync>(
    rt: &R,
    alloc: Global,
    passes: usize,
    count: u64,
) -> Result<(), Fail> {
    let all = passes.saturating_add(1);
    let (lock, mut all) = TurnLock::open(rt, alloc, Log::new(alloc), all)?;
    let (last, n) = last_of(&lock, &mut all).expect(rt, "a pass");
    let mut players = players_of(&lock, alloc, all, count)?;
    play_all(rt, &lock, &mut players);
    let mut next = vec![in alloc; 0; passes]?;
    assert!(rt; looks_right(rt, &lock, last, n, &mut next));
    assert!(rt; next.iter().all(|steps| *steps == count));
    Ok(())
}

#[test]
fn many_passes(rt: HostRuntime) -> Result<(), Fail> {
    many(&rt, rt.alloc(), 1, 1_000)?;
    many(&rt, rt.alloc(), 2, 10_000)?;
    many(&rt, rt.alloc(), 3, 5_000)?;
    many(&rt, rt.alloc(), 16, 1_500)?;
    Ok(())
}
