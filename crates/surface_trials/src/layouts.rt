//! The words of a card's layout, by the one name that passes them on.

use card_layout::{
    Loaded, MountFault, Node, PinSlot, Row, Section, SectionFault, Shape, kept_write, node_write,
    pin_write, row_write, sequence_write,
};
use store_form::Writes;
use uicc_types::{FileId, Full, Kept, Pin8, Shelf};

/// Calls each of a section's calls.
fn describe(section: &mut Section) -> Result<(), SectionFault> {
    let (df, ef) = (FileId(0x7F10), FileId(0x6F3C));
    section.add_df(&[df])?;
    section.add_ef(&[df, ef], Shape::Transparent { size: 2 }, None, None)?;
    let lines = Shape::Linear {
        length: 4,
        count: 2,
    };
    section.add_ef(&[FileId(0x2F06)], lines, Some(1), None)?;
    let round = Shape::Cyclic {
        length: 3,
        count: 3,
    };
    section.add_ef(&[FileId(0x6F39)], round, None, Some((FileId(0x2F06), 1)))?;
    section.fill(&[df, ef], 1, &[0xAA])?;
    section.set_record(&[FileId(0x2F06)], 1, &[0x41])?;
    section.pin(0x01, Pin8([0x31; 8]), true, Pin8([0x32; 8]))?;
    section.row(Shelf(31), 1, &[1, 0x40, 0], Some(4))
}

fn breaks_a_rule(fault: SectionFault) -> bool {
    match fault {
        SectionFault::Bad => true,
        SectionFault::NoRoom => false,
    }
}

/// The place of the first check that fails, if one does.
fn place_of(fault: MountFault) -> Option<usize> {
    match fault {
        MountFault::NotACard(place) => Some(place),
        MountFault::Failed | MountFault::PowerLost => None,
    }
}

/// The entries of a table.
fn entries_of(loaded: Loaded) -> ([Node; 128], [PinSlot; 3], [Row; 32], u16, bool) {
    let Loaded {
        nodes,
        pins,
        rows,
        next,
        wide,
    } = loaded;
    (nodes, pins, rows, next, wide)
}

/// Adds a write of an entry of each kind.
fn write_entries(writes: &mut Writes) -> Result<(), Full> {
    node_write(1, &Node::UNUSED, 0, 16, writes)?;
    row_write(Shelf(0), &Row::unused(), 0, 51, writes)?;
    pin_write(0, &PinSlot::ABSENT, 0, 20, writes)?;
    sequence_write(7, writes)?;
    let mut row = Row::unused();
    row.kept = Kept::from_slice(&[0; 33]);
    kept_write(Shelf(16), &row, writes)
}
