//! The rule of the table, and what each step on it tells its pass.
ghost use Rattle.turnstile.specs.History.{OneHistory};
ghost use Rattle.turnstile.specs.Steps.{first_view, splitting, split_off, joining, spent_view, Takes, Gives, GivesBack, Compares};

use crate::kept::Kept;
use crate::view::SeatView;
use atomic_table::{Join, Play, Split, TableRule};
use std::marker::PhantomData;
use std::snapshot::Snapshot;

/// There is one history, and each seat knows a beginning of it.
pub(crate) struct Law<K> {
    kept: PhantomData<K>,
}

impl<K: Kept> TableRule<Option<K>, SeatView<K::Entry>, Snapshot<K>> for Law<K> {
    ghost holds = { λ _. OneHistory K.entries K.label K.frame };

    ghost first = { λ state. first_view (K.frame state.value) };
}

/// The turn begins.
pub(crate) struct Take<K> {
    kept: PhantomData<K>,
}

impl<K: Kept> Play<Option<K>, SeatView<K::Entry>> for Take<K> {
    ghost then = { Takes K.entries K.label K.frame };
}

/// The turn ends with one entry more.
pub(crate) struct Give<K> {
    kept: PhantomData<K>,
}

impl<K: Kept> Play<Option<K>, SeatView<K::Entry>> for Give<K> {
    ghost then = { Gives K.entries };
}

/// The turn ends with the entries that were taken.
pub(crate) struct GiveBack<K> {
    kept: PhantomData<K>,
}

impl<K: Kept> Play<Option<K>, SeatView<K::Entry>> for GiveBack<K> {
    ghost then = { GivesBack };
}

/// Of two lists that were seen, the shorter begins the longer.
pub(crate) struct Compare<K> {
    kept: PhantomData<K>,
}

impl<K: Kept> Play<Option<K>, SeatView<K::Entry>> for Compare<K> {
    ghost then = { Compares };
}

/// A pass gets a label of its own.
pub(crate) struct SplitOff;

impl<E> Split<SeatView<E>> for SplitOff {
    ghost left = { splitting };

    ghost right = { split_off };
}

/// A pass takes in what another knows.
pub(crate) struct TakeIn;

impl<E> Join<SeatView<E>> for TakeIn {
    ghost both = { joining };

    ghost spent = { spent_view };
}
