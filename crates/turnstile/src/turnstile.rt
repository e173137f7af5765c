ghost use Rattle.std.specs.Prelude.{◌≡◌, ℕ, ◌+◌, ◌-◌, ◌^◌, ◌<◌, true, false, [], ◌∷◌, ◌++◌, IfOk, IfErr};
ghost use mathlib.Core.List.{IsPrefix};
ghost use Rattle.turnstile.specs.Entries.{longer};
ghost use Rattle.turnstile.specs.Views.{new_pass, Continues};

use crate::kept::Kept;
use crate::pass::Pass;
use crate::steps::{Compare, Give, GiveBack, Law, SplitOff, Take, TakeIn};
use crate::view::SeatView;
use atomic_table::{Refused, Table};
use std::alloc::{AllocFailed, Global};
use std::snapshot::Snapshot;
use std::sync::Wait;
use std::thread;
use std::time::Duration;

/// How often a pass that waits tries again at once, before it naps between tries.
const EAGER_TRIES: u32 = 8;

/// How long a nap is at most, in microseconds: many times a hold, and far below what a person notices.
const NAP: u64 = 50;

/// Hands one value round among passes. Whoever has the turn has the value, and gives it back with
/// at most one entry more. A pass that is dropped while it has the turn keeps it from the others.
#[derive(Drop)]
pub struct Turnstile<K: Kept> {
    pub(crate) table: Table<Option<K>, SeatView<K::Entry>, Snapshot<K>, Law<K>, Global>,
    pub ghost sized: { (table.shared.table_id.words ≡ 1) × (table.shared.table_id.slots ≡ 1) },
}

impl<K: Kept> Turnstile<K> {
    ghost use Rattle.turnstile.specs.Passes.{view, IsPassOf};

    /// A turnstile for a value without entries, and its first pass, which has label 0. Where there
    /// is no memory, the value comes back.
    pub fn start(alloc: Global, state: K) -> Result<(Turnstile<K>, Pass<K>), K>
        requires { K.entries state ≡ [] }
        ensures own { IfOk result (λ t. IsPassOf t.0 t.1) }
        ensures first { IfOk result (λ t. view t.1 ≡ new_pass 0 (K.frame state) []) }
        ensures refused { IfErr result (λ back. back ≡ state) }
    {
        let about = Snapshot::of(&state);
        let mut slots = Vec::new(alloc);
        if let Err(failed) = slots.push(Some(state)) {
            let AllocFailed { value } = failed;
            let Some(state) = value else { unreachable!() };
            return Err(state);
        }
        match Table::new(alloc, &[0], slots, &about) {
            Ok((table, seat)) => Ok((
                Turnstile { table },
                Pass {
                    label: 0,
                    splits: 0,
                    seat,
                },
            )),
            Err(refused) => {
                let Refused { mut slots } = refused;
                let Some(Some(state)) = slots.pop() else {
                    unreachable!()
                };
                Err(state)
            }
        }
    }

    /// A new pass, with the next label. It has seen what `pass` has seen.
    pub fn split(&self, pass: &mut Pass<K>) -> Pass<K>
        requires own { IsPassOf self.now pass.old }
        requires first { (view pass.old).label ≡ 0 }
        requires free { (view pass.old).turn ≡ false }
        requires few { (view pass.old).splits < 2 ^ 32 - 1 }
        ensures own { IsPassOf self.now pass.new × IsPassOf self.now result }
        ensures counted { view pass.new ≡ record (view pass.old) { splits = (view pass.old).splits + 1 } }
        ensures new { view result ≡ new_pass ((view pass.old).splits + 1) (view pass.old).frame (view pass.old).seen }
    {
        let seat = self.table.shared.split_seat::<SplitOff>(&mut pass.seat);
        pass.splits += 1;
        Pass {
            label: pass.splits,
            splits: 0,
            seat,
        }
    }

    /// Waits until the turn is free, and takes it and the value.
    pub fn take<R: Wait>(&self, rt: &R, pass: &mut Pass<K>) -> K
        requires own { IsPassOf self.now pass.old }
        requires free { (view pass.old).turn ≡ false }
        ensures own { IsPassOf self.now pass.new }
        ensures turn { view pass.new ≡ record (view pass.old) { turn = true; taken = K.entries result } }
        ensures value { Continues K.entries K.label K.frame (view pass.old) result }
    {
        let mut tries: u32 = 0;
        for _ in rt.forever() {
            let word = self.table.shared.peek(0);
            if word % 2 == 0 {
                let found = self
                    .table
                    .shared
                    .compare_exchange::<Take<K>>(&mut pass.seat, 0, word, word + 1);
                if found == word {
                    let Some(state) = self.table.shared.exchange(&mut pass.seat, 0, None) else {
                        unreachable!()
                    };
                    return state;
                }
            }
            if tries < EAGER_TRIES {
                tries += 1;
                thread::yield_now();
            } else {
                self.nap(rt, word);
            }
        }
        unreachable!()
    }

    /// Leaves the processor for a while, unless the word has changed since it was this.
    fn nap<R: Wait>(&self, rt: &R, word: u64) {
        let low = (word % (1 << 32)) as u32;
        self.table
            .shared
            .park_timeout(rt, 0, low, Duration::from_micros(NAP));
    }

    /// Ends the turn with one entry more, which has the label of the pass.
    pub fn give(&self, pass: &mut Pass<K>, state: K)
        requires own { IsPassOf self.now pass.old }
        requires turn { (view pass.old).turn ≡ true }
        requires frame { K.frame state ≡ (view pass.old).frame }
        requires entry { (e : K.Entry) × (K.entries state ≡ (view pass.old).taken ++ e ∷ []) × (K.label e ≡ (view pass.old).label) }
        ensures own { IsPassOf self.now pass.new }
        ensures given { (e : K.Entry) → K.entries state ≡ (view pass.old).taken ++ e ∷ [] → view pass.new ≡ record (view pass.old) { seen = K.entries state; own = (view pass.old).own ++ e ∷ []; turn = false; taken = [] } }
    {
        self.table.shared.exchange(&mut pass.seat, 0, Some(state));
        self.table.shared.fetch_add::<Give<K>>(&mut pass.seat, 0, 1);
    }

    /// Ends the turn with the entries that were taken.
    pub fn give_back(&self, pass: &mut Pass<K>, state: K)
        requires own { IsPassOf self.now pass.old }
        requires turn { (view pass.old).turn ≡ true }
        requires frame { K.frame state ≡ (view pass.old).frame }
        requires entries { K.entries state ≡ (view pass.old).taken }
        ensures own { IsPassOf self.now pass.new }
        ensures given { view pass.new ≡ record (view pass.old) { seen = (view pass.old).taken; turn = false; taken = [] } }
    {
        self.table.shared.exchange(&mut pass.seat, 0, Some(state));
        self.table
            .shared
            .fetch_sub::<GiveBack<K>>(&mut pass.seat, 0, 1);
    }

    /// Ends the pass `other`. What it has seen and added goes to `pass`.
    pub fn join(&self, pass: &mut Pass<K>, other: Pass<K>)
        requires own { IsPassOf self.now pass.old × IsPassOf self.now other }
        requires first { (view pass.old).label ≡ 0 }
        requires free { ((view pass.old).turn ≡ false) × ((view other).turn ≡ false) }
        ensures own { IsPassOf self.now pass.new }
        ensures joined { view pass.new ≡ record (view pass.old) { seen = longer (view pass.old).seen (view other).seen; joined = ((view other).label, (view other).own) ∷ (view pass.old).joined } }
        ensures seen { IsPrefix (view pass.old).seen (view pass.new).seen × IsPrefix (view other).seen (view pass.new).seen }
    {
        let Pass {
            label: _,
            splits: _,
            seat,
        } = other;
        self.table.shared.join_seat::<TakeIn>(&mut pass.seat, seat);
        self.table.shared.load::<Compare<K>>(&mut pass.seat, 0);
    }

    /// Waits until the turn is free, and ends the turnstile. The value comes out.
    pub fn finish<R: Wait>(self, rt: &R, mut pass: Pass<K>) -> K
        requires own { IsPassOf self pass }
        requires free { (view pass).turn ≡ false }
        ensures value { Continues K.entries K.label K.frame (view pass) result }
    {
        self.take(rt, &mut pass)
    }
}
