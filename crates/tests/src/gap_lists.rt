//! A list with a gap: the moves of the gap, and the drops of removed items.

ghost use Rattle.std.specs.Prelude.{◌≤◌};

use abc_lines::GapList;
use std::alloc::{AllocError, Global};
use std::cell::Cell;
use std::process::Abort;
use std::rt::HostRuntime;

/// The items in order.
fn items(alloc: Global, list: &GapList<u8>) -> Result<Vec<u8>, AllocError> {
    let mut items = Vec::new(alloc);
    for i in 0..list.len() {
        if let Some(item) = list.get(i) {
            items.push(*item)?;
        }
    }
    Ok(items)
}

/// Checks the items of a list.
fn check_items(rt: &impl Abort, alloc: Global, list: &GapList<u8>, wanted: &[u8]) {
    let items = items(alloc, list).expect(rt, "there is memory");
    assert!(rt; items.as_slice() == wanted);
}

/// Returns the list 8, 9, 7, which has this room in all.
fn three_items(rt: &impl Abort, alloc: Global, room: usize) -> GapList<u8>
    requires { 3 ≤ room }
{
    let mut list = GapList::with_room(alloc, room).expect(rt, "there is memory");
    list.insert(0, 7);
    list.insert(0, 8);
    list.insert(1, 9);
    list
}

#[test]
fn the_gap_is_at_the_last_change(rt: HostRuntime) {
    let alloc = rt.alloc();
    let mut list = three_items(&rt, alloc, 3);
    check_items(&rt, alloc, &list, &[8, 9, 7]);
    assert!(rt; list.room() == 0);
    assert!(rt; list.gap() == 2);
    assert!(rt; list.len() == 3);
    assert!(rt; list.remove(0) == 8);
    assert!(rt; list.gap() == 0);
    assert!(rt; list.moved() == 3);
    assert!(rt; list.room() == 1);
}

/// Counts up when it is dropped.
struct DropCounter<'a> {
    drops: &'a Cell<u32>,
}

impl Drop for DropCounter<'_> {
    fn drop(self) {
        let DropCounter { drops } = self;
        drops.set(drops.get().wrapping_add(1));
    }
}

#[test]
fn each_item_of_a_list_is_dropped_once(rt: HostRuntime) {
    let alloc = rt.alloc();
    let drops = Cell::new(0);
    let mut list = GapList::with_room(alloc, 8).expect(&rt, "there is memory");
    list.insert(0, DropCounter { drops: &drops });
    list.insert(1, DropCounter { drops: &drops });
    list.insert(0, DropCounter { drops: &drops });
    assert!(rt; drops.get() == 0);
    let taken = list.remove(1);
    assert!(rt; drops.get() == 0);
    drop(taken);
    assert!(rt; drops.get() == 1);
    drop(list);
    assert!(rt; drops.get() == 3);
}

/// Returns `count` items that count up when they are dropped.
fn drop_counters(
    alloc: Global,
    drops: &Cell<u32>,
    count: usize,
) -> Result<Vec<DropCounter<'_>>, AllocError> {
    let mut counters = Vec::new(alloc);
    for _ in 0..count {
        counters.push(DropCounter { drops })?;
    }
    Ok(counters)
}

#[test]
fn each_item_of_a_splice_is_dropped_once(rt: HostRuntime) {
    let alloc = rt.alloc();
    let drops = Cell::new(0);
    let mut list = GapList::with_room(alloc, 2).expect(&rt, "there is memory");
    list.insert(0, DropCounter { drops: &drops });
    list.insert(0, DropCounter { drops: &drops });
    let three = drop_counters(alloc, &drops, 3).expect(&rt, "there is memory");
    assert!(rt; list.len() == 2);
    let patch = list
        .splice_prepare(alloc, 1, 1, three)
        .expect(&rt, "there is memory");
    assert!(rt; drops.get() == 0);
    // all move over into a list with twice as many places as items
    list.commit(patch);
    assert!(rt; drops.get() == 1);
    assert!(rt; list.room() == 4);
    assert!(rt; list.len() == 4);
    let one = drop_counters(alloc, &drops, 1).expect(&rt, "there is memory");
    let patch = list
        .splice_prepare(alloc, 0, 2, one)
        .expect(&rt, "there is memory");
    list.commit(patch);
    assert!(rt; drops.get() == 3);
    assert!(rt; list.gap() == 1);
    assert!(rt; list.len() == 3);
    let four = drop_counters(alloc, &drops, 4).expect(&rt, "there is memory");
    // seven do not fit, so that the patch has a list of its own
    let patch = list
        .splice_prepare(alloc, 3, 0, four)
        .expect(&rt, "there is memory");
    patch.drop_patch();
    assert!(rt; drops.get() == 7);
    drop(list);
    assert!(rt; drops.get() == 10);
}

#[test]
fn a_patch_shows_the_list_after_it(rt: HostRuntime) {
    let alloc = rt.alloc();
    let mut list = three_items(&rt, alloc, 3);
    assert!(rt; list.len() == 3);
    let new = vec![in alloc; 1, 2, 3].expect(&rt, "there is memory");
    let patch = list
        .splice_prepare(alloc, 1, 1, new)
        .expect(&rt, "there is memory");
    assert!(rt; patch.len(&list) == 5);
    assert!(rt; patch.get(&list, 0).copied() == Some(8));
    assert!(rt; patch.get(&list, 2).copied() == Some(2));
    assert!(rt; patch.get(&list, 4).copied() == Some(7));
    assert!(rt; patch.get(&list, 5).copied() == None);
    list.commit(patch);
    check_items(&rt, alloc, &list, &[8, 1, 2, 3, 7]);
    assert!(rt; list.gap() == 4);
    assert!(rt; list.room() == 5);
    // one place for the second item, and one for the splice
    assert!(rt; list.moved() == 2);
}
