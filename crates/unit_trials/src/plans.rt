//! Planned faults, and bytes that are to stand at places, as a row has them.

use crate::rows::Row;
use uicc_types::{CutAt, FailAt, Plan};

/// Planned faults: `cut CALL KEPT REST`, `fail CALL REST` and `read CALL`, each at most once, or nothing.
pub fn plan(row: &mut Row<'_>) -> Plan {
    let mut plan = Plan::NONE;
    for _ in 0..3 {
        match row.next() {
            Some("cut") => {
                plan.cut = Some(CutAt {
                    call: row.large_number(),
                    kept: row.number(),
                    rest: row.byte(),
                })
            }
            Some("fail") => {
                plan.fail = Some(FailAt {
                    call: row.large_number(),
                    rest: row.byte(),
                })
            }
            Some("read") => plan.read_fail = Some(row.large_number()),
            Some(_) => row.reject(),
            None => break,
        }
    }
    plan
}

/// Bytes that are to stand at a place.
#[derive(Drop)]
pub struct Piece {
    pub place: u16,
    pub bytes: Vec<u8>,
}

/// A row's further words as pieces.
pub fn pieces(row: &mut Row<'_>) -> Vec<Piece> {
    let mut pieces = Vec::new(row.alloc());
    for word in row.words() {
        let piece = piece_in(word, row);
        row.need(pieces.push(piece));
    }
    pieces
}

/// The piece of a word such as `892=01*4`.
pub fn piece_in(word: &str, row: &mut Row<'_>) -> Piece {
    let (place, bytes) = word.split_once('=').unwrap_or((word, "?"));
    Piece {
        place: row.number_in(place),
        bytes: row.bytes_in(bytes),
    }
}
