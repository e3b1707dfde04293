//! A card as its section describes it.
ghost use Rattle.std.specs.Prelude.{◌≡◌, ◌≤◌, ◌==◌, ◌&&◌, ◌+◌, ◌++◌, [], ◌∷◌, true, length, IfOk, IfSome, MatchOption};
ghost use Rattle.std.specs.List.{list_all};
ghost use Rattle.card_state.specs.Kinds.{df_kind};
ghost use Rattle.card_state.specs.Checks.{is_free_id};
ghost use Rattle.card_state.specs.Soundness.{mf};
ghost use Rattle.card_state.specs.Sections.{are_of_line, bare_card, file_at, is_new_short, DfLine, EfLine, FillLine, RecordLine, PinLine, RowLine};
ghost use Rattle.card_state.specs.NewFiles.{rule_from};
ghost use Rattle.card_state.specs.AppletKinds.{IsAppletKind};
ghost use Rattle.layout_section.specs.Adding.{IsFound, AddsLine};
ghost use Rattle.layout_section.specs.Installing.{wants_wide_card};
ghost use Rattle.layout_section.specs.Laying.{SpellsCard, FitsBefore};
ghost use Rattle.layout_section.specs.Describing.{HasNoPlaceAt, IsPlaceAt, HasNoPlace, IsPlace, has_room, has_room_for_row};

use crate::files::{ALL_BYTES, Files, SpelledFiles};
use crate::pins::{PINS_LENGTH, Pins};
use crate::rows::{Rows, SpelledRows};
use card_state::kinds::is_free_id;
use card_state::places::{DATA, NARROW_VERSION, UPPER_ROWS, WIDE_VERSION};
use card_state::sizes::{KEPT_WIDTH, LOWER_ROW_COUNT, NODE_COUNT};
use card_state::{
    Installed, SectionFault, Shape, may_be_rule, may_be_shape, read_installation, size_for,
};
use std::alloc::Global;
use std::marker::Model;
use uicc_types::{FileId, OutOfMemory, Pin8, Shelf};

// With so many bytes of files there is room for the rows of a wide card.
const WIDE_BYTES: usize = UPPER_ROWS as usize - DATA;

// A line spells at most so many bytes, and at least one.
const MOST_OF_LINE: usize = 255;

fn are_of_line(bytes: &[u8]) -> bool
    ensures { result ≡ are_of_line bytes.now }
{
    !bytes.is_empty() && bytes.len() <= MOST_OF_LINE
}

/// The files, PINs and rows that the lines of a section describe so far. It takes all its memory in `new`. A contract
/// sees the persistent state of the card.
#[derive(Drop)]
pub struct Section {
    files: Files,
    pins: Pins,
    rows: Rows,
}

impl Model for Section {
    ghost use Rattle.card_state.specs.Persistent.{Persistent};

    ghost Value = { Persistent };

    ghost use Rattle.layout_section.specs.Describing.{described, RowsFit};

    ghost view = { described };

    ghost invariant = { RowsFit };
}

/// A card as its layout spells it: its first bytes, its PINs, its rows, its files, and whether it is wide.
#[derive(Drop)]
pub struct SpelledCard<'a> {
    pub first: [u8; 8],
    pub pins: [u8; PINS_LENGTH],
    pub rows: SpelledRows,
    pub files: SpelledFiles<'a>,
    pub wide: bool,
}

// A place for a new file: the number of the DF that it lies in, and its identifier.
#[derive(Clone, Copy, Drop)]
struct Place {
    df: u8,
    id: FileId,
}

fn may_be_path(path: &[FileId]) -> bool
    ensures { result ≡ list_all (λ id. is_free_id id.0) path.now }
{
    path.iter().all(|id| is_free_id(*id))
}

// What is before the last identifier of a path, and the last.
fn split_path(path: &[FileId]) -> Option<(&[FileId], FileId)>
    ensures { MatchOption result (path.now ≡ []) (λ parts. path.now ≡ parts.0.now ++ parts.1 ∷ []) }
{
    match path.split_last() {
        Some((last, front)) => Some((front, *last)),
        None => None,
    }
}

// The place of a new file with this identifier in the DF at this path, if it may lie there.
fn place_in(files: &Files, front: &[FileId], id: FileId) -> Option<Place>
    requires { is_free_id id.0 ≡ true }
    ensures { MatchOption result (HasNoPlaceAt files.now front.now id) (IsPlaceAt files.now front.now id) }
{
    match files.find(front) {
        Some(df) => {
            if !files.is_df(df) {
                return None;
            }
            match files.child(df, id) {
                Some(_) => None,
                None => Some(Place { df, id }),
            }
        }
        None => None,
    }
}

// The place of a new file with this path, if the path is one of a new file.
fn place_for(files: &Files, path: &[FileId]) -> Option<Place>
    ensures { MatchOption result (HasNoPlace files.now path.now) (IsPlace files.now path.now) }
{
    match split_path(path) {
        Some((front, id)) => {
            if path.len() > 8 || !may_be_path(front) || !is_free_id(id) {
                return None;
            }
            place_in(files, front, id)
        }
        None => None,
    }
}

// Whether a new EF of this DF may have this short identifier.
fn may_have_short(files: &Files, df: u8, short: Option<u8>) -> bool
    ensures { result ≡ is_new_short files.now df short }
{
    match short {
        None => true,
        Some(short) => 1 <= short && short <= 30 && !files.has_short(df, short),
    }
}

// Whether only a wide card can hold such a row on this shelf.
fn is_for_wide(shelf: Shelf, installed: &Installed) -> bool
    ensures { result ≡ wants_wide_card shelf.0 installed.now }
{
    usize::from(shelf.0) >= LOWER_ROW_COUNT || installed.kept.as_slice().len() > KEPT_WIDTH
}

impl Section {
    /// The card with the MF alone.
    pub fn new(alloc: Global) -> Result<Section, OutOfMemory>
        ensures { IfOk result (λ section. section ≡ bare_card) }
    {
        let files = Files::new(alloc)?;
        Ok(Section {
            files,
            pins: Pins::new(),
            rows: Rows::new(),
        })
    }

    // Whether there is room for one file more, of so many bytes.
    #[tactic(auto, unfolding(crate::specs::Filing::all_bytes))]
    fn has_room(&self, size: u16) -> bool
        ensures { result ≡ has_room self.now size }
    {
        let total = self.files.total() + usize::from(size);
        self.files.len() < NODE_COUNT
            && total <= ALL_BYTES
            && (total <= WIDE_BYTES || !self.rows.need_wide())
    }

    /// Adds a DF.
    pub fn add_df(&mut self, path: &[FileId]) -> Result<(), SectionFault>
        ensures { AddsLine (DfLine path.now) self.old result self.new }
    {
        let Some(place) = place_for(&self.files, path) else {
            return Err(SectionFault::Bad);
        };
        if !self.has_room(0) {
            return Err(SectionFault::NoRoom);
        }
        self.files.add_df(place.df, place.id);
        Ok(())
    }

    /// Adds an EF of this shape, with a short identifier of 1 to 30 and the EF_ARR and record of a rule, where it has
    /// them. Its bytes are FF.
    #[tactic(auto, unfolding(crate::specs::Filing::all_bytes))]
    pub fn add_ef(
        &mut self,
        path: &[FileId],
        shape: Shape,
        short: Option<u8>,
        rule: Option<(FileId, u8)>,
    ) -> Result<(), SectionFault>
        ensures { AddsLine (EfLine path.now shape short (rule_from rule)) self.old result self.new }
    {
        let Some(place) = place_for(&self.files, path) else {
            return Err(SectionFault::Bad);
        };
        if !may_be_shape(shape)
            || !may_have_short(&self.files, place.df, short)
            || !may_be_rule(rule)
        {
            return Err(SectionFault::Bad);
        }
        if !self.has_room(size_for(shape)) {
            return Err(SectionFault::NoRoom);
        }
        self.files
            .add_ef(place.df, place.id, shape, short.unwrap_or(0), rule);
        Ok(())
    }

    /// Puts bytes into a transparent file, as many as a line can spell.
    pub fn fill(&mut self, path: &[FileId], offset: u16, bytes: &[u8]) -> Result<(), SectionFault>
        ensures { AddsLine (FillLine path.now offset bytes.now) self.old result self.new }
    {
        if !are_of_line(bytes) {
            return Err(SectionFault::Bad);
        }
        match self.files.find(path) {
            Some(number) => self.files.fill(number, offset, bytes),
            None => Err(SectionFault::Bad),
        }
    }

    /// Puts a record, filled up with FF, into a record file: as many bytes as a line can spell.
    pub fn set_record(
        &mut self,
        path: &[FileId],
        number: u8,
        bytes: &[u8],
    ) -> Result<(), SectionFault>
        ensures { AddsLine (RecordLine path.now number bytes.now) self.old result self.new }
    {
        if !are_of_line(bytes) {
            return Err(SectionFault::Bad);
        }
        match self.files.find(path) {
            Some(file) => self.files.set_record(file, number, bytes),
            None => Err(SectionFault::Bad),
        }
    }

    /// Adds the PIN of this key, with 3 tries and 10 for its UNBLOCK PIN.
    pub fn pin(
        &mut self,
        key: u8,
        value: Pin8,
        enabled: bool,
        unblock: Pin8,
    ) -> Result<(), SectionFault>
        ensures { AddsLine (PinLine key value.0 enabled unblock.0) self.old result self.new }
    {
        self.pins.add(key, value, enabled, unblock)
    }

    // Whether there is room for a row on this shelf beside the files.
    fn has_room_for_row(&self, shelf: Shelf, installed: &Installed) -> bool
        ensures { result ≡ has_room_for_row self.now shelf.0 installed.now }
    {
        self.files.total() <= WIDE_BYTES || !is_for_wide(shelf, installed)
    }

    /// Adds a row; `kind` is that of the applet's object on this shelf, from 1 to 7, or None where there is none.
    pub fn row(
        &mut self,
        shelf: Shelf,
        priority: u8,
        content: &[u8],
        kind: Option<u8>,
    ) -> Result<(), SectionFault>
        requires { IfSome kind IsAppletKind }
        ensures { AddsLine (RowLine shelf.0 priority content.now kind) self.old result self.new }
    {
        let Some(kind) = kind else {
            return Err(SectionFault::Bad);
        };
        let Some(installed) = read_installation(content) else {
            return Err(SectionFault::Bad);
        };
        if !self.rows.may_take(shelf, priority, &installed) {
            return Err(SectionFault::Bad);
        }
        if !self.has_room_for_row(shelf, &installed) {
            return Err(SectionFault::NoRoom);
        }
        self.rows.add(shelf, kind, priority, installed);
        Ok(())
    }

    /// The card as its layout spells it, for a store with this mark.
    pub(crate) fn spelled(&self, mark: u8) -> SpelledCard<'_>
        ensures spells { SpellsCard mark self.now result }
        ensures fits { FitsBefore result }
    {
        let wide = self.files.total() <= WIDE_BYTES;
        let version = if wide { WIDE_VERSION } else { NARROW_VERSION };
        let [high, low] = self.rows.next().to_be_bytes();
        SpelledCard {
            first: [b'U', b'I', b'C', b'C', version, mark, high, low],
            pins: self.pins.spelled(),
            rows: self.rows.spelled(),
            files: self.files.spelled(),
            wide,
        }
    }
}
