//! The store of frames.
ghost use Rattle.std.specs.Prelude.{◌≡◌, ℕ, ◌+◌, ◌-◌, ◌*◌, ◌≤◌, ◌<◌, ◌^◌, ◌↔◌, List, [], ◌∷◌, ◌++◌, length, take, drop, slice_index_or, slice_range, remove, IsOk, OnOk, OnErr, IfOk, IsSome, IfSome};
ghost use Rattle.std.specs.Vec.{vec_len, vec_capacity, vec_ptr};
ghost use Rattle.frame_store.specs.Block.{IsBlockSize};
ghost use Rattle.frame_store.specs.Model.{bytes_in, with_parts, length_in, in_line, laid};

use crate::block::{Lease, house, vacate};
use std::alloc::Global;
use std::marker::Model;
use std_alloc::vec::Lodged;
use uicc_types::{Full, OutOfMemory};

/// The number of bytes in which the length of a frame is written.
const LENGTH_SIZE: usize = 8;

/// Byte strings, called frames, in the order in which they came. They lie one after the other in one block, each after its
/// length, and the block is closed up where a frame is removed. `new` takes the block, and no call takes other memory.
///
/// The block goes back where the store ends. No contract says so: what an allocator promises of `deallocate` holds as well
/// where nothing is done. What keeps it is the type of `lease`, the right to give the block back: it is not `Drop`, so it
/// can't be let go, and a `drop` of the store that doesn't call `free` doesn't compile.
pub struct FrameStore {
    block: Vec<u8, Lodged>,
    used: usize,
    count: usize,
    most: usize,
    room: usize,
    alloc: Global,
    lease: Lease<Global>,
}

impl Model for FrameStore {
    ghost use Rattle.std.specs.Prelude.{◌≡◌};
    ghost use Rattle.std.specs.Vec.{vec_capacity, vec_ptr};
    ghost use Rattle.frame_store.specs.Model.{Frames, AreKept, frames_of};

    ghost Value = { Frames };

    ghost view = { λ s. record { parts = frames_of s.count s.block.items; most = s.most; room = s.room } };

    ghost invariant = { λ s. AreKept (record { parts = frames_of s.count s.block.items; most = s.most; room = s.room }) s.used s.block.items
        × (s.lease.start ≡ vec_ptr s.block) × (s.lease.size ≡ vec_capacity s.block) × (s.lease.alloc ≡ s.alloc) };
}

/// How many bytes the block of a store has: those of so many lengths and so many bytes, and at least one. None where no
/// block has so many.
fn block_size(frames: usize, bytes: usize) -> Option<usize>
    ensures variant { IsSome result ↔ (frames * 8 + bytes < 2 ^ 63) }
    ensures some { IfSome result (λ size. IsBlockSize size × (frames * 8 + bytes ≤ size)) }
{
    let size = frames.checked_mul(LENGTH_SIZE)?.checked_add(bytes)?.max(1);
    if size > isize::MAX as usize {
        return None;
    }
    Some(size)
}

/// The list with `size` bytes in it, where it lay before.
fn zeros(list: Vec<u8, Lodged>, size: usize) -> Vec<u8, Lodged>
    requires empty { vec_len list ≡ 0 }
    requires room { size ≤ vec_capacity list }
    ensures len { length result.items ≡ size }
    ensures in_place { (vec_ptr result ≡ vec_ptr list) × (vec_capacity result ≡ vec_capacity list) }
{
    let mut list = list;
    while list.len() < size {
        list.push_reserved(0);
    }
    list
}

/// Writes bytes over those from a place on.
fn write(block: &mut Vec<u8, Lodged>, at: usize, bytes: &[u8])
    requires in_bounds { at + length bytes.now ≤ length block.old.items }
    ensures written { block.new.items ≡ take at block.old.items ++ (bytes.now ++ drop (at + length bytes.now) block.old.items) }
    ensures len { length block.new.items ≡ length block.old.items }
    ensures in_place { (vec_ptr block.new ≡ vec_ptr block.old) × (vec_capacity block.new ≡ vec_capacity block.old) }
{
    block.slice_mut(at..at + bytes.len()).copy_from_slice(bytes);
}

/// Moves the used bytes after a gap down over it.
fn close_gap(block: &mut Vec<u8, Lodged>, start: usize, end: usize, used: usize)
    requires in_order { (start ≤ end) × (end ≤ used) }
    requires in_bounds { used ≤ length block.old.items }
    ensures closed { take (used - (end - start)) block.new.items ≡ take start block.old.items ++ slice_range block.old.items end used }
    ensures len { length block.new.items ≡ length block.old.items }
    ensures in_place { (vec_ptr block.new ≡ vec_ptr block.old) × (vec_capacity block.new ≡ vec_capacity block.old) }
{
    block.slice_mut(start..used).copy_within(end - start.., 0);
}

/// The length that is written from a place on.
#[tactic(auto, unfolding(crate::specs::Model::length_in))]
fn length_at(block: &[u8], start: usize) -> usize
    requires in_bounds { start + 8 ≤ length block.now }
    ensures { result ≡ length_in (drop start block.now) }
{
    let mut bytes = [0; LENGTH_SIZE];
    bytes.copy_from_slice(&block[start..start + LENGTH_SIZE]);
    usize::from_le_bytes(bytes)
}

impl FrameStore {
    /// An empty store of at most `frames` frames and at most `bytes` bytes in all of them. `OutOfMemory` where the memory
    /// for that is not to be had, and for no other reason.
    #[tactic(auto, using(crate::proofs::InLineLemmas::none_of))]
    pub fn new(alloc: Global, frames: usize, bytes: usize) -> Result<FrameStore, OutOfMemory>
        ensures ok { IfOk result (λ store. store ≡ record { parts = []; most = frames; room = bytes }) }
    {
        // Where an allocator refuses, its contract says nothing: so no clause can say that it did.
        let size = block_size(frames, bytes).ok_or(OutOfMemory)?;
        match Lease::claim(&alloc, size) {
            Some(((room, lease), start)) => {
                let list = house(start, size, room);
                Ok(FrameStore {
                    block: zeros(list, size),
                    used: 0,
                    count: 0,
                    most: frames,
                    room: bytes,
                    alloc,
                    lease,
                })
            }
            None => Err(OutOfMemory),
        }
    }

    /// How many frames there are.
    #[tactic(auto, using(crate::proofs::InLineLemmas::count_of))]
    pub fn len(&self) -> usize
        ensures { result ≡ length self.now.parts }
    {
        self.count
    }

    /// Where the frame at a place lies in the block, from its length on, and where it ends.
    fn span_of(&self, at: usize) -> (usize, usize)
        requires { at < length self.now.parts }
        ensures start { result.0 ≡ length (in_line (take at self.now.parts)) }
        ensures end { result.1 ≡ result.0 + length (laid (slice_index_or self.now.parts at [])) }
    {
        let block = self.block.as_slice();
        let mut start = 0;
        for _passed in 0..at {
            start += LENGTH_SIZE + length_at(block, start);
        }
        (start, start + LENGTH_SIZE + length_at(block, start))
    }

    /// The frame at a place below `len`.
    pub fn get(&self, at: usize) -> &[u8]
        requires { at < length self.now.parts }
        ensures { result.now ≡ slice_index_or self.now.parts at [] }
    {
        let (start, end) = self.span_of(at);
        &self.block.as_slice()[start + LENGTH_SIZE..end]
    }

    /// Adds a frame at the end. `Full`, and no change, exactly where there would be more frames, or more bytes in all of
    /// them, than `new` was given.
    pub fn push(&mut self, part: &[u8]) -> Result<(), Full>
        ensures room { IsOk result ↔ ((length self.old.parts < self.old.most) ×
            (bytes_in self.old.parts + length part.now ≤ self.old.room)) }
        ensures ok { OnOk result (self.new ≡ with_parts (self.old.parts ++ part.now ∷ []) self.old) }
        ensures err { OnErr result (self.new ≡ self.old) }
    {
        let bytes = self.used - self.count * LENGTH_SIZE;
        if self.count >= self.most || part.len() > self.room - bytes {
            return Err(Full);
        }
        let start = self.used + LENGTH_SIZE;
        write(&mut self.block, self.used, &part.len().to_le_bytes());
        write(&mut self.block, start, part);
        self.used = start + part.len();
        self.count += 1;
        Ok(())
    }

    /// Takes the frame at a place below `len` out. Those after it move down by one place, and their bytes close the gap.
    pub fn remove(&mut self, at: usize)
        requires { at < length self.old.parts }
        ensures { self.new ≡ with_parts (remove self.old.parts at) self.old }
    {
        let (start, end) = self.span_of(at);
        close_gap(&mut self.block, start, end, self.used);
        self.used -= end - start;
        self.count -= 1;
    }

    /// Takes all frames out.
    #[tactic(auto, using(crate::proofs::InLineLemmas::none_of))]
    pub fn clear(&mut self)
        ensures { self.new ≡ with_parts [] self.old }
    {
        self.used = 0;
        self.count = 0;
    }
}

impl Drop for FrameStore {
    fn drop(self) {
        let FrameStore {
            block,
            used: _,
            count: _,
            most: _,
            room: _,
            alloc,
            lease,
        } = self;
        lease.free(vacate(block), &alloc);
    }
}
