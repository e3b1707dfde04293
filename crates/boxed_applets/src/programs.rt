//! The rows of a table: an event, an action and its argument.
ghost use Rattle.std.specs.Prelude.{◌≡◌, ◌≤◌, [], length, IfSome, IfNone, nat_le, ◌==◌, ◌&&◌};
ghost use Rattle.std.specs.Option.{option_map};
ghost use Rattle.applet_trait.specs.Tables.{row_from, rows};
ghost use Rattle.boxed_applets.specs.Programs.{placed, IsFirst};

/// What to do at an event.
#[derive(Clone, Copy)]
pub struct ProgramRow {
    pub event: u8,
    pub action: u8,
    pub argument: u8,
}

/// The first row, and the bytes after it.
fn first_row(bytes: &[u8]) -> Option<(ProgramRow, &[u8])>
    ensures some { IfSome result (λ x. IsFirst bytes.now x.0 x.1.now) }
    ensures none { IfNone result (rows bytes.now ≡ []) }
{
    match bytes {
        [event, action, argument, others @ ..] => {
            let row = ProgramRow {
                event: *event,
                action: *action,
                argument: *argument,
            };
            Some((row, others))
        }
        _ => None,
    }
}

/// Whether the row at a place is one of the event, at the place `from` or after it.
fn is_meant(place: u8, from: usize, event: u8, row: ProgramRow) -> bool
    ensures { result ≡ (nat_le from place && (row.event == event)) }
{
    from <= usize::from(place) && row.event == event
}

/// The first row of the event at this place or after it, with its place.
pub fn row_from(kept: &[u8], from: usize, event: u8) -> Option<(u8, ProgramRow)>
    requires { length kept.now ≤ 64 }
    ensures { option_map placed result ≡ row_from from event (rows kept.now) }
{
    let mut rest = kept;
    let mut place = 0u8;
    while let Some((row, others)) = first_row(rest) {
        if is_meant(place, from, event, row) {
            return Some((place, row));
        }
        place += 1;
        rest = others;
    }
    None
}
