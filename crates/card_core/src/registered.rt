//! What a table has of the applets, as it was before a command, to be put back where a fault stops that.
ghost use Rattle.std.specs.Prelude.{◌≡◌, All, length, replicate};
ghost use Rattle.card_state.specs.declared.sizes.TheConstants.{ROW_COUNT};
ghost use Rattle.card_state.specs.Blank.{unused_row};
ghost use Rattle.card_core.specs.Registered.{IsUsedOrBlank};

use card_state::sizes::ROW_COUNT;
use card_state::{Loaded, Row};
use std::array;
use uicc_types::{ByteList, Full};

/// The rows of a table and its next sequence number.
#[derive(Drop)]
pub(crate) struct Registered {
    rows: [Row; ROW_COUNT],
    next: u16,
    ghost blank: { All IsUsedOrBlank rows },
}

// Makes the first list the second.
fn fill<const N: usize>(place: &mut ByteList<N>, list: &ByteList<N>)
    ensures { place.new ≡ list.now }
{
    place.clear();
    match place.append(list.as_slice()) {
        Ok(()) => (),
        Err(Full) => unreachable!(),
    }
}

// Makes the second row the first. Nothing is copied of the lists of an empty one. Most rows are empty, and it stays out of the loops over them.
#[inline(never)]
fn keep(row: &Row, place: &mut Row)
    requires { IsUsedOrBlank row.now }
    ensures { place.new ≡ row.now }
{
    place.used = row.used;
    place.kind = row.kind;
    place.priority = row.priority;
    place.sequence = row.sequence;
    place.events = row.events;
    if row.used {
        fill(&mut place.text, &row.text);
        fill(&mut place.kept, &row.kept);
    } else {
        place.text.clear();
        place.kept.clear();
    }
}

// Makes the second rows the first.
fn keep_all(rows: &[Row], places: &mut [Row])
    requires long { length rows.now ≡ ROW_COUNT }
    requires as_many { length places.old ≡ ROW_COUNT }
    requires blank { All IsUsedOrBlank rows.now }
    ensures { places.new ≡ rows.now }
{
    for shelf in 0..ROW_COUNT {
        keep(&rows[shelf], &mut places[shelf]);
    }
}

// The same where nothing is copied of a row that is empty in both, as most are.
fn note(row: &Row, place: &mut Row)
    requires row { IsUsedOrBlank row.now }
    requires place { IsUsedOrBlank place.old }
    ensures { place.new ≡ row.now }
{
    // Both are read, since one test takes less than two.
    if row.used | place.used {
        keep(row, place);
    }
}

fn note_all(rows: &[Row], places: &mut [Row])
    requires long { length rows.now ≡ ROW_COUNT }
    requires as_many { length places.old ≡ ROW_COUNT }
    requires blank { All IsUsedOrBlank rows.now }
    requires blank_places { All IsUsedOrBlank places.old }
    ensures { places.new ≡ rows.now }
{
    for shelf in 0..ROW_COUNT {
        note(&rows[shelf], &mut places[shelf]);
    }
}

impl Registered {
    /// Those of an empty table.
    pub(crate) fn new() -> Registered
        ensures rows { result.rows ≡ replicate ROW_COUNT unused_row }
        ensures next { result.next ≡ 0 }
    {
        Registered {
            rows: array::from_fn(|_| Row::unused()),
            next: 0,
        }
    }

    /// Notes those of this table. Nothing is taken from the allocator.
    pub(crate) fn note(&mut self, loaded: &Loaded)
        requires blank { All IsUsedOrBlank loaded.now.rows }
        ensures rows { self.new.rows ≡ loaded.now.rows }
        ensures next { self.new.next ≡ loaded.now.next }
    {
        note_all(loaded.all_rows(), &mut self.rows);
        self.next = loaded.next;
    }

    /// Puts them back into the table, which is otherwise as it is.
    pub(crate) fn put_back(&self, loaded: &mut Loaded)
        ensures { loaded.new ≡ record loaded.old { rows = self.now.rows; next = self.now.next } }
    {
        keep_all(&self.rows, &mut loaded.rows);
        loaded.next = self.next;
    }
}
