//! What a caller may bring of its own: each of these passes on the calls of another one.

use applet_trait::{Act, Applet, Stimulus};
use byte_streams::{Failed, Sink, Source};
use eeprom_model::{Eeprom, EepromFault};
use std::marker::Model;
use store_form::{Store, StoreFault, Writes};
use uicc_types::{Kept, Plan};

/// Another one, of whatever it is.
#[derive(Drop)]
pub struct Own<T> {
    pub inner: T,
}

/// What a contract sees of it is the other one.
impl<T> Model for Own<T> {
    ghost Value = { T };

    ghost view = { λ own. own.inner };
}

impl<E: Eeprom> Eeprom for Own<E> {
    ghost byte_count = { λ own. E.byte_count own };

    ghost contents = { λ own. E.contents own };

    ghost meter = { λ own. E.meter own };

    ghost is_fresh = { λ own. E.is_fresh own };

    ghost told_length = { λ own. E.told_length own };

    fn size(&self) -> usize {
        self.inner.size()
    }

    fn read(&mut self, at: usize, out: &mut [u8]) -> Result<(), EepromFault> {
        self.inner.read(at, out)
    }

    fn program(&mut self, at: usize, bytes: &[u8]) -> Result<(), EepromFault> {
        self.inner.program(at, bytes)
    }

    fn power_up(&mut self) {
        self.inner.power_up();
    }

    fn arm(&mut self, plan: Plan) {
        self.inner.arm(plan);
    }
}

impl<S: Store> Store for Own<S> {
    ghost byte_count = { λ own. S.byte_count own };

    ghost store_mark = { λ own. S.store_mark own };

    ghost stable = { λ own. S.stable own };

    ghost meter = { λ own. S.meter own };

    ghost commits = { λ own. S.commits own };

    ghost reads = { λ own. S.reads own };

    ghost recoveries = { λ own. S.recoveries own };

    ghost recovered = { λ own. S.recovered own };

    ghost told_length = { λ own. S.told_length own };

    ghost own_bytes = { λ own k. S.own_bytes own k };

    fn mark(&self) -> u8 {
        self.inner.mark()
    }

    fn read(&mut self, at: usize, out: &mut [u8]) -> Result<(), StoreFault> {
        self.inner.read(at, out)
    }

    fn commit(&mut self, writes: &Writes) -> Result<(), StoreFault> {
        self.inner.commit(writes)
    }

    fn prepare(&mut self, at: usize, bytes: &[u8]) -> Result<(), StoreFault> {
        self.inner.prepare(at, bytes)
    }

    fn recover(&mut self) -> Result<(), StoreFault> {
        self.inner.recover()
    }

    fn power_up(&mut self) {
        self.inner.power_up();
    }

    fn arm(&mut self, plan: Plan) {
        self.inner.arm(plan);
    }
}

impl<R: Source> Source for Own<R> {
    ghost faults = { λ own. R.faults own };

    ghost left = { λ own. R.left own };

    fn take(&mut self, out: &mut [u8]) -> Result<usize, Failed> {
        self.inner.take(out)
    }
}

impl<W: Sink> Sink for Own<W> {
    ghost faults = { λ own. W.faults own };

    ghost taken = { λ own. W.taken own };

    fn put(&mut self, part: &[u8]) -> Result<(), Failed> {
        self.inner.put(part)
    }
}

impl<A: Applet> Applet for Own<A> {
    ghost mind = { λ own. A.mind own };

    fn kind(&self) -> u8 {
        self.inner.kind()
    }

    fn wake(&mut self, kept: &Kept) {
        self.inner.wake(kept);
    }

    fn step(&mut self, stimulus: &Stimulus) -> Act {
        self.inner.step(stimulus)
    }
}
