//! One version more in some of the lists of versions.
ghost use Rattle.std.specs.Prelude.{ℕ, ◌≡◌, ◌<◌, ◌≤◌, length, slice_index, OnOk};
ghost use Rattle.watches.specs.Lists.{ArePlaces, HaveRoom, AreSame, AreTold};

use words::Memory;

/// Room for one number in each of these lists; no list changes.
pub fn reserve_each(lists: &mut [Vec<u64>], places: &[usize]) -> Result<(), Memory>
    requires { ArePlaces (length lists.old) places.now }
    ensures room { OnOk result (HaveRoom lists.new places.now) }
    ensures same { AreSame lists.old lists.new }
{
    for place in places {
        lists[*place].reserve(1)?;
    }
    Ok(())
}

/// One number more in each of these lists, which have room for it. Takes no memory.
pub fn push_each(lists: &mut [Vec<u64>], places: &[usize], version: u64)
    requires places { ArePlaces (length lists.old) places.now }
    requires room { HaveRoom lists.old places.now }
    ensures { AreTold lists.old lists.new places.now version }
{
    for place in places {
        match lists[*place].push(version) {
            Ok(()) => {}
            Err(_) => unreachable!(),
        }
    }
}
