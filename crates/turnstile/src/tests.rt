ghost use Rattle.std.specs.Prelude.{◌≡◌, ◌<◌, ◌^◌, false, [], length};
ghost use Rattle.turnstile.specs.Passes.{view, IsPassOf};

use crate::{Kept, Pass, Turnstile};
use std::alloc::Global;
use std::sync::Wait;
use std::test::Fail;
use std::thread;

#[derive(Clone, Copy)]
struct Entry {
    label: u32,
    number: u32,
}

#[derive(Drop)]
struct Entries {
    all: Vec<Entry>,
    ghost few: { length all.items < 2 ^ 62 },
}

impl Kept for Entries {
    type Entry = Entry;

    ghost entries = { λ state. state.all.items };

    ghost label = { λ entry. entry.label };

    ghost frame = { λ _. [] };

    ghost few = { λ state. state.few };
}

fn no_entries(alloc: Global) -> Entries
    ensures { result.all.items ≡ [] }
{
    Entries {
        all: Vec::new(alloc),
    }
}

#[test]
fn each_split_gives_the_next_label(rt: HostRuntime) {
    let Ok((turns, mut first)) = Turnstile::start(rt.alloc(), no_entries(rt.alloc())) else {
        panic!(rt; "no memory")
    };
    let one = turns.split(&mut first);
    let two = turns.split(&mut first);
    assert!(rt; [first.label(), one.label(), two.label()] == [0, 1, 2]);
}

// A list that is full, or finds no memory, goes back as it was.
fn add<R: Wait>(rt: &R, turns: &Turnstile<Entries>, pass: &mut Pass<Entries>, number: u32)
    requires { IsPassOf turns.now pass.old × ((view pass.old).turn ≡ false) }
    ensures { IsPassOf turns.now pass.new × ((view pass.new).turn ≡ false) }
{
    let label = pass.label();
    let Entries { mut all } = turns.take(rt, pass);
    if all.len() < 1 << 32 && all.push(Entry { label, number }).is_ok() {
        turns.give(pass, Entries { all });
    } else {
        turns.give_back(pass, Entries { all });
    }
}

fn add_all<R: Wait>(
    rt: &R,
    turns: &Turnstile<Entries>,
    mut pass: Pass<Entries>,
    count: u32,
) -> Pass<Entries>
    requires { IsPassOf turns.now pass × ((view pass).turn ≡ false) }
    ensures { IsPassOf turns.now result × ((view result).turn ≡ false) }
{
    for number in 0..count {
        add(rt, turns, &mut pass, number);
    }
    pass
}

#[test]
fn two_threads_add_a_thousand_entries_each(rt: HostRuntime) -> Result<(), Fail> {
    let Ok((turns, mut first)) = Turnstile::start(rt.alloc(), no_entries(rt.alloc())) else {
        panic!(rt; "no memory")
    };
    let one = turns.split(&mut first);
    let two = turns.split(&mut first);
    let shared = &turns;
    let handle = &rt;
    let (one, two) = thread::join(
        &rt,
        move ||
            requires { IsPassOf shared.now one × ((view one).turn ≡ false) }
            ensures { IsPassOf shared.entry.now result × ((view result).turn ≡ false) }
        { add_all(handle, shared, one, 1000) },
        move ||
            requires { IsPassOf shared.now two × ((view two).turn ≡ false) }
            ensures { IsPassOf shared.entry.now result × ((view result).turn ≡ false) }
        { add_all(handle, shared, two, 1000) },
    );
    turns.join(&mut first, one);
    turns.join(&mut first, two);
    let entries = turns.finish(&rt, first);

    // The numbers with each label are 0 to 999, in this order.
    let mut next = [0u32; 3];
    for entry in &entries.all {
        if entry.label < 3 && entry.number == next[entry.label as usize] {
            next[entry.label as usize] = entry.number.wrapping_add(1);
        }
    }
    assert!(rt; entries.all.len() == 2000 && next == [0, 1000, 1000]);
    Ok(())
}
