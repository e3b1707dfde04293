//! A block of bytes from the allocator. It is asked for once, serves as the memory of a list that neither grows nor
//! frees it, and goes back to the allocator that gave it.
ghost use Rattle.std.specs.Prelude.{◌≡◌, ℕ, ◌<◌, [], IfSome};
ghost use Rattle.std.specs.Vec.{vec_len, vec_capacity, vec_ptr};
ghost use denote.RawPtr.{Ptr};
ghost use Rattle.frame_store.specs.Block.{IsBlockSize, bytes_of, room_of};

use std::alloc::Allocator;
use std::marker::{Model, PhantomData};
use std_alloc::vec::{Lodged, lodge};

/// Room for `size` bytes at `start`, which nothing else can reach. It takes no memory itself.
pub(crate) struct Room {
    pub(crate) ghost start: { Ptr },
    pub(crate) ghost size: { ℕ },
}

impl Model for Room {
    ghost also_owns = { λ r. room_of r.size r.start };
}

/// The right to give the block of `size` bytes at `start` back to the allocator that it is from.
pub(crate) struct Lease<A: Allocator> {
    pub(crate) start: *mut u8,
    pub(crate) size: usize,
    marker: PhantomData<A>,
    pub(crate) ghost alloc: { A },
    pub(crate) ghost fits: { IsBlockSize size },
}

impl<A: Allocator> Model for Lease<A> {
    ghost also_owns = { λ l. A.dealloc_token l.alloc (bytes_of l.size) l.start };
}

impl<A: Allocator> Lease<A> {
    /// A block of `size` bytes, and where it begins. None where there is no memory.
    pub(crate) fn claim(alloc: &A, size: usize) -> Option<((Room, Lease<A>), *mut u8)>
        requires { IsBlockSize size }
        ensures { IfSome result (λ r. (r.0.0.start ≡ r.1) × (r.0.1.start ≡ r.1) × (r.0.0.size ≡ size)
            × (r.0.1.size ≡ size) × (r.0.1.alloc ≡ alloc.now)) }
    {
        match alloc.allocate(size, 1) {
            Ok(start) => {
                let marker = PhantomData;
                let lease = Lease {
                    start,
                    size,
                    marker,
                };
                Some(((Room {}, lease), start))
            }
            Err(_) => None,
        }
    }

    /// Gives the block back.
    pub(crate) fn free(self, room: Room, alloc: &A)
        requires { (room.start ≡ self.start) × (room.size ≡ self.size) × (self.alloc ≡ alloc.now) }
    {
        let Room {} = room;
        let Lease {
            start,
            size,
            marker: _,
        } = self;
        unsafe { alloc.deallocate(start, size, 1) }
    }
}

/// The block as the memory of an empty list of at most `size` bytes.
pub(crate) fn house(start: *mut u8, size: usize, room: Room) -> Vec<u8, Lodged>
    requires { (room.start ≡ start) × (room.size ≡ size) × IsBlockSize size }
    ensures { (result.items ≡ []) × (vec_len result ≡ 0) × (vec_capacity result ≡ size) × (vec_ptr result ≡ start) }
{
    let Room {} = room;
    unsafe { lodge(start, 0, size) }
}

/// Takes the memory of the list back. The bytes in it are let go.
pub(crate) fn vacate(list: Vec<u8, Lodged>) -> Room
    requires { 0 < vec_capacity list }
    ensures { (result.start ≡ vec_ptr list) × (result.size ≡ vec_capacity list) }
{
    let _len = list.dislodge();
    Room {}
}
