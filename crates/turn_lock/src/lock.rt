// The calls of the lock.

ghost use Rattle.std.specs.Prelude.{◌≡◌, ◌≢◌, ℕ, ◌+◌, ◌%◌, ◌^◌, ◌<◌, List, [], ◌∷◌, ◌++◌, length, Some, None, Contains, MatchBool, IfOk, slice_get};
ghost use mathlib.Core.List.{IsPrefix};
ghost use Rattle.turn_lock.specs.declared.handles.Pass.{Pass as ThePass};
ghost use Rattle.turn_lock.specs.Turns.{view, first_view, split_off, joined, longer, with_turn, with_number, after_turn, TookTurn, OwnWithin, OwnAfter, IsLiving};
ghost use Rattle.turn_lock.specs.Passes.{passes_of, opened_with, IsPassOf, IsTurnOf, numbers, seen, held_numbers, held_seen, began_with};

use crate::handles::{Held, Pass, TurnLock};
use crate::kept::Kept;
use crate::rule::{Claim, Compare, Look, Number, Part, Release, Start};
use crate::view::View;
use atomic_table::{Seat, Table};
use crossbeam_utils::Backoff;
use std::alloc::{AllocError, Global};
use std::snapshot::Snapshot;
use std::sync::Wait;

impl<T: Kept> TurnLock<T> {
    /// A lock round a value without entries, and its passes. Pass k, counted from 0, has the one number k and has
    /// seen nothing. The value's basis is from now on that of the lock. Want of memory is the only error. It may
    /// wait.
    pub fn open<R: Wait>(
        rt: &R,
        alloc: Global,
        value: T,
        passes: usize,
    ) -> Result<(TurnLock<T>, Vec<Pass<T>>), AllocError>
    where
        T: Drop,
        requires some { 0 < passes }
        requires empty { T.entries value ≡ [] }
        ensures lock { IfOk result (λ p. (passes_of p.0 ≡ passes) × (opened_with p.0 ≡ value)) }
        ensures count { IfOk result (λ p. length p.1.items ≡ passes) }
        ensures each { IfOk result (λ p. (k : ℕ) (pass : ThePass T T.Entry) → slice_get p.1.items k ≡ Some pass → IsPassOf p.0 pass × (numbers pass ≡ k ∷ []) × (seen pass ≡ [])) }
    {
        let start = Start {
            passes: passes as u64,
            opened: Snapshot::of(&value),
        };
        let mut slots = Vec::new(alloc);
        slots.push(Some(value))?;
        let Ok((table, seat)) = Table::new(alloc, &[0, 0], slots, &start) else {
            return Err(AllocError);
        };
        let lock = TurnLock { table };
        let mut first = Pass { seat };
        let all = lock.deal(rt, alloc, &mut first, passes)?;
        Ok((lock, all))
    }

    /// Waits until no other pass has the turn, and takes it. It spins for a bounded number of tries and yields the
    /// processor after that. A free lock is taken with one load and one comparison and exchange.
    pub fn take<R: Wait>(&self, rt: &R, pass: Pass<T>) -> Held<T>
        requires own { IsPassOf self.now pass }
        requires numbered { numbers pass ≢ [] }
        ensures own { IsTurnOf self.entry.now result }
        ensures pass { (held_numbers result ≡ numbers pass) × (held_seen result ≡ seen pass) }
        ensures began { began_with result ≡ T.entries result.value }
        ensures basis { T.has_same_basis (opened_with self.entry.now) result.value }
        ensures begins { IsPrefix (seen pass) (T.entries result.value) }
        ensures within { OwnWithin T.number_of (numbers pass) (T.entries result.value) (length (seen pass)) }
    {
        let Pass { mut seat } = pass;
        let backoff = Backoff::new();
        for _ in rt.forever() {
            let found = self.table.shared.load::<Look>(&mut seat, 0);
            if found % 2 == 0 && self.claim(&mut seat, found) {
                let value = self.take_out(&mut seat);
                return Held { value, seat };
            }
            backoff.snooze();
        }
        unreachable!()
    }

    /// Gives the turn back. Since it began, the value got entries of the pass's own numbers alone, behind the
    /// others, and its basis is the lock's. The pass has seen all entries of the value.
    pub fn give(&self, held: Held<T>) -> Pass<T>
        requires own { IsTurnOf self.now held }
        requires grown { IsPrefix (began_with held) (T.entries held.value) }
        requires by { OwnAfter T.number_of (held_numbers held) (T.entries held.value) (length (began_with held)) }
        requires basis { T.has_same_basis (opened_with self.now) held.value }
        ensures own { IsPassOf self.entry.now result }
        ensures numbers { numbers result ≡ held_numbers held }
        ensures seen { seen result ≡ T.entries held.value }
    {
        let Held { value, mut seat } = held;
        let count = value.count();
        self.put_back(&mut seat, value);
        self.table.shared.swap::<Release>(&mut seat, 0, 2 * count);
        Pass { seat }
    }

    /// A pass that has the numbers of both and has seen what both had.
    pub fn meet(&self, mine: Pass<T>, other: Pass<T>) -> Pass<T>
        requires mine { IsPassOf self.now mine }
        requires other { IsPassOf self.now other }
        ensures own { IsPassOf self.entry.now result }
        ensures numbers { numbers result ≡ numbers mine ++ numbers other }
        ensures seen { seen result ≡ longer (seen mine) (seen other) }
        ensures both { IsPrefix (seen mine) (seen result) × IsPrefix (seen other) (seen result) }
    {
        let Pass { mut seat } = mine;
        let Pass { seat: other } = other;
        self.table.shared.join_seat::<Part>(&mut seat, other);
        self.table.shared.load::<Compare>(&mut seat, 0);
        Pass { seat }
    }

    /// The value, at the end: the pass has every number, so it has seen every entry and nobody else has the turn.
    pub fn close(self, pass: Pass<T>) -> T
        requires own { IsPassOf self pass }
        requires all { (n : ℕ) → n < passes_of self → Contains (numbers pass) n }
        ensures entries { T.entries result ≡ seen pass }
        ensures basis { T.has_same_basis (opened_with self) result }
    {
        let TurnLock { table } = self;
        let Pass { seat } = pass;
        let mut closed = table.close_with(seat);
        let slot = closed.take(0);
        closed.free();
        let Some(value) = slot else { unreachable!() };
        value
    }

    // Tries to take the turn, where the gate was found like this.
    fn claim(&self, seat: &mut Seat<Option<T>, View<T, T::Entry>>, found: u64) -> bool
        requires own { seat.old.table_id ≡ self.now.table.shared.table_id }
        requires even { found % 2 ≡ 0 }
        requires idle { (seat.old.me.1 ≡ []) × (seat.old.me.0.turn ≡ None) }
        requires numbered { seat.old.me.0.numbers ≢ [] }
        requires living { IsLiving (passes_of self.now) (opened_with self.now) seat.old.me.0 }
        ensures own { (seat.new.table_id ≡ seat.old.table_id) × (seat.new.id ≡ seat.old.id) }
        ensures took { MatchBool result (TookTurn T.entries T.has_same_basis T.number_of seat.old.me seat.new.me) (seat.new.me ≡ seat.old.me) }
    {
        self.table
            .shared
            .compare_exchange::<Claim>(seat, 0, found, found + 1)
            == found
    }

    // Moves the value out of the slot that the pass holds.
    fn take_out(&self, seat: &mut Seat<Option<T>, View<T, T::Entry>>) -> T
        requires own { seat.old.table_id ≡ self.now.table.shared.table_id }
        requires held { (value : T) × (seat.old.me.1 ≡ (0, Some value) ∷ []) }
        ensures own { seat.new.table_id ≡ seat.old.table_id }
        ensures value { seat.old.me.1 ≡ (0, Some result) ∷ [] }
        ensures empty { seat.new.me ≡ (seat.old.me.0, (0, None) ∷ []) }
    {
        let Some(value) = self.table.shared.exchange(seat, 0, None) else {
            unreachable!()
        };
        value
    }

    // Moves the value back into the slot that the pass holds.
    fn put_back(&self, seat: &mut Seat<Option<T>, View<T, T::Entry>>, value: T)
        requires own { seat.old.table_id ≡ self.now.table.shared.table_id }
        requires held { seat.old.me.1 ≡ (0, None) ∷ [] }
        ensures own { seat.new.table_id ≡ seat.old.table_id }
        ensures full { seat.new.me ≡ (seat.old.me.0, (0, Some value) ∷ []) }
    {
        let left = self.table.shared.exchange(seat, 0, Some(value));
        let None = left else { unreachable!() };
    }

    // Passes with the numbers from 0 on.
    fn deal<R: Wait>(
        &self,
        rt: &R,
        alloc: Global,
        first: &mut Pass<T>,
        passes: usize,
    ) -> Result<Vec<Pass<T>>, AllocError>
        requires own { first.old.seat.table_id ≡ self.now.table.shared.table_id }
        requires fresh { first.old.seat.me ≡ (first_view passes (opened_with self.now), []) }
        requires passes { passes_of self.now ≡ passes }
        ensures count { IfOk result (λ v. length v.items ≡ passes) }
        ensures each { IfOk result (λ v. (k : ℕ) (pass : ThePass T T.Entry) → slice_get v.items k ≡ Some pass → IsPassOf self.entry.now pass × (numbers pass ≡ k ∷ []) × (seen pass ≡ [])) }
    {
        let mut all = Vec::new(alloc);
        for k in 0..passes as u64 {
            let pass = self.split(first);
            all.push(self.number(rt, pass, k))?;
        }
        Ok(all)
    }

    // A new pass without a number.
    fn split(&self, pass: &mut Pass<T>) -> Pass<T>
        requires own { pass.old.seat.table_id ≡ self.now.table.shared.table_id }
        ensures own { (result.seat.table_id ≡ pass.old.seat.table_id) × (result.seat.me ≡ (split_off pass.old.seat.me.0, [])) }
        ensures kept { (pass.new.seat.table_id ≡ pass.old.seat.table_id) × (pass.new.seat.me ≡ pass.old.seat.me) }
    {
        let seat = self.table.shared.split_seat::<Part>(&mut pass.seat);
        Pass { seat }
    }

    // Gives a pass its number, and waits until it has it.
    fn number<R: Wait>(&self, rt: &R, pass: Pass<T>, n: u64) -> Pass<T>
        requires own { pass.seat.table_id ≡ self.now.table.shared.table_id }
        requires idle { (pass.seat.me.0.turn ≡ None) × (pass.seat.me.0.numbers ≡ []) }
        requires living { IsLiving (passes_of self.now) (opened_with self.now) pass.seat.me.0 }
        requires below { n < passes_of self.now }
        requires small { n + 1 < 2 ^ 64 }
        ensures own { result.seat.table_id ≡ pass.seat.table_id }
        ensures number { result.seat.me ≡ (with_number pass.seat.me.0 n, pass.seat.me.1) }
    {
        let Pass { mut seat } = pass;
        let backoff = Backoff::new();
        for _ in rt.forever() {
            if self.try_number(&mut seat, n) {
                return Pass { seat };
            }
            backoff.snooze();
        }
        unreachable!()
    }

    // Tries to give a pass its number.
    fn try_number(&self, seat: &mut Seat<Option<T>, View<T, T::Entry>>, n: u64) -> bool
        requires own { seat.old.table_id ≡ self.now.table.shared.table_id }
        requires idle { (seat.old.me.0.turn ≡ None) × (seat.old.me.0.numbers ≡ []) }
        requires living { IsLiving (passes_of self.now) (opened_with self.now) seat.old.me.0 }
        requires below { n < passes_of self.now }
        requires small { n + 1 < 2 ^ 64 }
        ensures own { seat.new.table_id ≡ seat.old.table_id }
        ensures took { MatchBool result (seat.new.me ≡ (with_number seat.old.me.0 n, seat.old.me.1)) (seat.new.me ≡ seat.old.me) }
    {
        self.table
            .shared
            .compare_exchange::<Number>(seat, 1, n, n + 1)
            == n
    }
}
