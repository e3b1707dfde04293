//! Commits that meet a fault in each of their program calls.
ghost use Rattle.std.specs.Prelude.{◌≡◌};

use crate::plans::{Piece, piece_in, pieces};
use crate::rows::Row;
use crate::stored::{Refusal, Stored};
use crate::stores::{put_all, read_all, show_outcome};
use crate::writing::SIZE;
use eeprom_model::BenchEeprom;
use page_store::{DEVICE_SIZE, PageStore};
use std::alloc::Global;
use store_form::Store;
use uicc_types::{CutAt, FailAt, Plan};
use update_journal::Journal;

/// What a commit does to the bytes that are read.
#[derive(Drop)]
struct Commit {
    /// What was committed before it, if anything.
    earlier: Vec<Piece>,
    pieces: Vec<Piece>,
    before: Vec<u8>,
    after: Vec<u8>,
}

/// How a commit ended that met a fault.
#[derive(Clone, Copy, PartialEq)]
enum Ending {
    Done,
    Undone,
    /// What is read is neither what stood there before nor what stands there after it.
    NeitherContent,
}

/// How a program call ends early: which bytes of its range are written, and what the others become.
const REMAINS: [(u16, u8); 3] = [(0, 0x00), (1, 0x5A), (63, 0xFF)];

/// A commit takes at most so many program calls.
const MOST_CALLS: u32 = 1_200;

/// `sweep STORE EARLIER PIECES..`: how many program calls the second of two commits takes, of which the first has one piece or is `-`.
/// Each of them loses power and fails, and leaves its range in three ways: afterwards all bytes are those before it, or those after
/// it, and after it once it was carried out.
pub fn show_sweep(row: &mut Row<'_>) {
    let is_in_pages = row.either("pages", "journal");
    let commit = commit_of(row);
    for call in 1..MOST_CALLS {
        match commit.ending_at(row.alloc(), is_in_pages, call) {
            Ok(Ending::Undone) => {}
            Ok(Ending::Done) => {
                row.show_number("", call - 1);
                row.show(" calls");
                return;
            }
            Ok(Ending::NeitherContent) => return row.show("neither content"),
            Err(refusal) => return show_outcome(Err(refusal), row),
        }
    }
    row.show("no end");
}

fn commit_of(row: &mut Row<'_>) -> Commit {
    let mut earlier = Vec::new(row.alloc());
    let first = row.word();
    if first != "-" {
        let piece = piece_in(first, row);
        row.need(earlier.push(piece));
    }
    let pieces = pieces(row);
    let mut before = row.erased(SIZE);
    put_all(&mut before, earlier.as_slice());
    let mut after = row.erased(SIZE);
    put_all(&mut after, earlier.as_slice());
    put_all(&mut after, pieces.as_slice());
    Commit {
        earlier,
        pieces,
        before,
        after,
    }
}

impl Commit {
    /// How it ends where this program call loses power or fails, whatever it leaves: done where it is done in one of these cases.
    fn ending_at(&self, alloc: Global, is_in_pages: bool, call: u32) -> Result<Ending, Refusal> {
        for (kept, rest) in REMAINS {
            let cut = Some(CutAt { call, kept, rest });
            let fail = Some(FailAt { call, rest });
            for plan in [Plan { cut, ..Plan::NONE }, Plan { fail, ..Plan::NONE }] {
                let ending = self.ending(alloc, is_in_pages, plan)?;
                if ending != Ending::Undone {
                    return Ok(ending);
                }
            }
        }
        Ok(Ending::Undone)
    }

    /// How it ends under this plan, on a new device.
    fn ending(&self, alloc: Global, is_in_pages: bool, plan: Plan) -> Result<Ending, Refusal> {
        if is_in_pages {
            let device = BenchEeprom::new(alloc, DEVICE_SIZE)?;
            self.ending_on(alloc, Stored::new(PageStore::new(device)), plan)
        } else {
            let device = BenchEeprom::new(alloc, SIZE)?;
            self.ending_on(alloc, Stored::new(Journal::new(device)), plan)
        }
    }

    fn ending_on<S: Store + Drop>(
        &self,
        alloc: Global,
        mut store: Stored<S>,
        plan: Plan,
    ) -> Result<Ending, Refusal> {
        store.recover()?;
        if !self.earlier.is_empty() {
            store.commit(self.earlier.as_slice())?;
            store.recover()?;
        }
        store.arm(plan);
        let is_done = store.commit(self.pieces.as_slice()).is_ok();
        store.arm(Plan::NONE);
        store.power_up();
        store.recover()?;
        let mut held = vec![in alloc; 0xFFu8; SIZE]?;
        read_all(&mut store, &mut held)?;
        if is_done && held == self.after {
            Ok(Ending::Done)
        } else if !is_done && (held == self.before || held == self.after) {
            Ok(Ending::Undone)
        } else {
            Ok(Ending::NeitherContent)
        }
    }
}
