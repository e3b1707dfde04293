//! What the terminal keeps of one channel.
ghost use Rattle.std.specs.Prelude.{◌≡◌, ◌+◌, ◌-◌, ◌≤◌, ◌++◌, true, false, length, take, drop, IfOk};
ghost use Rattle.circular_buffer.specs.Buffer.{buffer};
ghost use Rattle.bip_channels.specs.Kept.{fresh, closed, is_closed, kept_with_bytes, without_first, with_first_back};
ghost use Rattle.bip_channels.specs.Rules.{fits, moved};

use circular_buffer::HeapCircularBuffer;
use std::alloc::Global;
use std::marker::Model;
use uicc_types::OutOfMemory;

/// The largest buffer that a channel can be opened with.
pub const MOST_SIZE: usize = 1500;

/// The most bytes that may be on their way to the far end of a channel.
pub const MOST_OUTGOING: usize = 4096;

/// The most bytes that one response has room for, after its other objects.
pub const MOST_RECEIVED: usize = 237;

/// The bytes that a channel ever keeps: a buffer that came back, those on their way, and a buffer for later.
pub const RING: usize = 7096;

/// Whether a channel is open, and its link.
#[derive(Clone, Copy, PartialEq, Eq)]
pub enum Link {
    Closed,
    Up,
    Dropped,
}

/// A channel. Its bytes lie in one ring from when the card gives them until it takes them: first those that came back and
/// wait, then those on their way, then those that are kept for later. So a byte that is sent or comes back stays in its
/// place.
#[derive(Drop)]
pub(crate) struct Channel {
    link: Link,
    size: usize,
    waiting: usize,
    outgoing: usize,
    stored: usize,
    ring: HeapCircularBuffer<u8>,
}

impl Model for Channel {
    ghost use Rattle.bip_channels.specs.Kept.{Held, IsParted};

    ghost Value = { Held };

    ghost view = { λ c. record {
      link = c.link;
      size = c.size;
      waiting = c.waiting;
      outgoing = c.outgoing;
      stored = c.stored;
      bytes = c.ring.items;
    } };

    ghost invariant = { λ c. IsParted c.size c.waiting c.outgoing c.stored c.ring };
}

/// Puts the bytes after those of a ring that has room for them.
fn put(ring: &mut HeapCircularBuffer<u8>, bytes: &[u8])
    requires { length ring.old.items + length bytes.now ≤ ring.old.capacity }
    ensures { ring.new ≡ buffer (ring.old.items ++ bytes.now) ring.old.capacity }
{
    ring.fill_from_slice(bytes);
}

/// Takes the first bytes out of a ring that has so many.
fn take(ring: &mut HeapCircularBuffer<u8>, into: &mut [u8])
    requires { length into.old ≤ length ring.old.items }
    ensures bytes { into.new ≡ take (length into.old) ring.old.items }
    ensures after { ring.new ≡ buffer (drop (length into.old) ring.old.items) ring.old.capacity }
{
    ring.read_into(into);
}

impl Channel {
    /// A channel that isn't open. It is the only call that takes memory.
    pub fn new(alloc: Global) -> Result<Channel, OutOfMemory>
        ensures { IfOk result (λ channel. channel ≡ closed) }
    {
        match HeapCircularBuffer::with_capacity(alloc, RING) {
            Ok(ring) => Ok(Channel {
                link: Link::Closed,
                size: 0,
                waiting: 0,
                outgoing: 0,
                stored: 0,
                ring,
            }),
            Err(_) => Err(OutOfMemory),
        }
    }

    /// Whether it is open, and its link.
    pub fn link(&self) -> Link
        ensures { result ≡ self.now.link }
    {
        self.link
    }

    pub fn is_closed(&self) -> bool
        ensures { result ≡ is_closed self.now }
    {
        match self.link {
            Link::Closed => true,
            Link::Up | Link::Dropped => false,
        }
    }

    /// How many bytes came back and wait.
    pub fn waiting(&self) -> usize
        ensures value { result ≡ self.now.waiting }
        ensures fits { result ≤ MOST_SIZE }
        ensures there { result ≤ length self.now.bytes }
    {
        self.waiting
    }

    /// The room for bytes that are kept for later.
    pub fn free(&self) -> usize
        ensures { result ≡ self.now.size - self.now.stored }
    {
        self.size - self.stored
    }

    /// Lets all bytes go.
    pub fn reset(&mut self, link: Link, size: usize)
        requires { size ≤ MOST_SIZE }
        ensures { self.new ≡ fresh link size }
    {
        self.link = link;
        self.size = size;
        self.waiting = 0;
        self.outgoing = 0;
        self.stored = 0;
        self.ring.clear();
    }

    /// Whether so many bytes can be kept, or sent now.
    pub fn fits(&self, count: usize, now: bool) -> bool
        requires { count ≤ 255 }
        ensures { result ≡ fits self.now.size self.now.outgoing self.now.stored count now }
    {
        let kept = self.stored + count;
        if now {
            kept <= self.size && self.outgoing + kept <= MOST_OUTGOING
        } else {
            kept <= self.size
        }
    }

    /// Keeps bytes for later.
    pub fn store(&mut self, bytes: &[u8])
        requires { fits self.old.size self.old.outgoing self.old.stored (length bytes.now) false ≡ true }
        ensures { self.new ≡ kept_with_bytes bytes.now false self.old }
    {
        put(&mut self.ring, bytes);
        self.stored += bytes.len();
    }

    /// Sends the bytes that are kept, and then these.
    pub fn send(&mut self, bytes: &[u8])
        requires { fits self.old.size self.old.outgoing self.old.stored (length bytes.now) true ≡ true }
        ensures { self.new ≡ kept_with_bytes bytes.now true self.old }
    {
        put(&mut self.ring, bytes);
        self.outgoing += self.stored + bytes.len();
        self.stored = 0;
    }

    /// Takes the first of the bytes that came back, as many as there are places for.
    pub fn take(&mut self, into: &mut [u8])
        requires { length into.old ≤ self.old.waiting }
        ensures bytes { into.new ≡ take (length into.old) self.old.bytes }
        ensures after { self.new ≡ without_first (length into.old) self.old }
    {
        let count = into.len();
        take(&mut self.ring, into);
        self.waiting -= count;
    }

    /// How many of so many bytes the far end can give back.
    pub fn moved(&self, count: usize) -> usize
        ensures value { result ≡ moved count self.now.size self.now.outgoing self.now.waiting }
        ensures outgoing { result ≤ self.now.outgoing }
        ensures room { self.now.waiting + result ≤ self.now.size }
    {
        count.min(self.outgoing.min(self.size - self.waiting))
    }

    /// The far end gives so many bytes back.
    pub fn come_back(&mut self, count: usize)
        requires outgoing { count ≤ self.old.outgoing }
        requires room { self.old.waiting + count ≤ self.old.size }
        ensures { self.new ≡ with_first_back count self.old }
    {
        self.outgoing -= count;
        self.waiting += count;
    }

    /// The link is dropped.
    pub fn drop_link(&mut self)
        ensures { self.new ≡ record self.old { link = Link.Dropped } }
    {
        self.link = Link::Dropped;
    }
}
