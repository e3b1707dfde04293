//! The calls on small stores, and the block over an allocator that counts what it has given out.
ghost use Rattle.frame_store.specs.Block.{IsBlockSize};

use crate::block::{Lease, house, vacate};
use crate::store::FrameStore;
use linked_list_allocator::LocalHeap;
use std::rt::HostRuntime;
use std::test::Fail;
use uicc_types::Full;

// Whether the frames of the store are these.
fn holds(store: &FrameStore, frames: &[&[u8]]) -> bool {
    if store.len() != frames.len() {
        return false;
    }
    for i in 0..frames.len() {
        if store.get(i) != frames[i] {
            return false;
        }
    }
    true
}

#[test]
fn a_store_of_two_frames_and_five_bytes(rt: HostRuntime) -> Result<(), Fail> {
    let mut store = FrameStore::new(rt.alloc(), 2, 5)?;
    assert!(&rt; store.push(&[0xAA]) == Ok(()));
    assert!(&rt; store.push(&[0xBB, 0xBB, 0xBB]) == Ok(()));
    assert!(&rt; store.push(&[0xCC]) == Err(Full));
    assert!(&rt; holds(&store, &[&[0xAA], &[0xBB, 0xBB, 0xBB]]));
    store.remove(0);
    assert!(&rt; holds(&store, &[&[0xBB, 0xBB, 0xBB]]));
    assert!(&rt; store.push(&[0xDD, 0xDD, 0xDD]) == Err(Full));
    assert!(&rt; store.push(&[0xEE, 0xEE]) == Ok(()));
    assert!(&rt; holds(&store, &[&[0xBB, 0xBB, 0xBB], &[0xEE, 0xEE]]));
    store.clear();
    assert!(&rt; store.len() == 0);
    assert!(&rt; store.push(&[1, 2, 3, 4, 5]) == Ok(()));
    assert!(&rt; store.push(&[]) == Ok(()));
    assert!(&rt; holds(&store, &[&[1, 2, 3, 4, 5], &[]]));
    Ok(())
}

// How much of the heap a block of so many bytes takes while it is out, 0 where the heap has no room for it.
fn taken_by(heap: &LocalHeap, size: usize) -> usize
    requires { IsBlockSize size }
{
    match Lease::claim(heap, size) {
        Some(((room, lease), start)) => {
            let taken = heap.used();
            lease.free(vacate(house(start, size, room)), heap);
            taken
        }
        None => 0,
    }
}

#[test]
fn a_block_goes_back(rt: HostRuntime) -> Result<(), Fail> {
    let Ok(heap) = LocalHeap::new(rt.alloc(), 256) else {
        return Err(Fail::from("no memory"));
    };
    assert!(&rt; taken_by(&heap, 100) >= 100);
    assert!(&rt; heap.used() == 0);
    assert!(&rt; taken_by(&heap, 300) == 0);
    assert!(&rt; heap.used() == 0);
    Ok(())
}
