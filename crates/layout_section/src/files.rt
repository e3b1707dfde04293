//! The files of a section.
ghost use Rattle.std.specs.Prelude.{◌≡◌, ◌==◌, ◌<◌, ◌≤◌, ◌+◌, ◌&&◌, ℕ, List, [], ◌∷◌, ◌++◌, length, take, true, IfOk};
ghost use Rattle.std.specs.List.{list_any};
ghost use Rattle.card_state.specs.Kinds.{df_kind, is_ef_kind, mf_id};
ghost use Rattle.card_state.specs.Soundness.{mf};
ghost use Rattle.card_state.specs.Sections.{child_of, file_at, byte_total_of, size_of, is_shape};
ghost use Rattle.card_state.specs.NewFiles.{df_node, rule_from, rule_holds};
ghost use Rattle.layout_section.specs.Adding.{file_numbered, IsAt, IsFound, IsPlaceIn, is_short_for, df_numbered, ef_numbered, filled, with_record, Rewrites};
ghost use Rattle.layout_section.specs.Filing.{all_bytes, SpellsFiles};

use crate::bytes::{blank, blank_bytes, put, put_filled};
use crate::entries::{
    NODES_LENGTH, first_child, place_of_bytes, place_of_record, some_has_short, spell_nodes,
};
use card_state::kinds::DF;
use card_state::places::{DATA, MEMORY_SIZE};
use card_state::sizes::NODE_COUNT;
use card_state::{Node, SectionFault, Shape, new_df, new_ef, size_for};
use std::alloc::Global;
use std::marker::Model;
use uicc_types::{FileId, OutOfMemory};

/// How many bytes all files may have.
pub const ALL_BYTES: usize = MEMORY_SIZE - DATA;

/// The files by their numbers, from the MF on, and their bytes. It takes all its memory in `new`. A contract sees the
/// files.
#[derive(Drop)]
pub struct Files {
    nodes: [Node; NODE_COUNT],
    // How many of the nodes are used.
    count: usize,
    // The bytes of all files, one file after the other.
    bytes: Vec<u8>,
    // How many of the bytes are used.
    total: usize,
}

impl Model for Files {
    ghost use Rattle.std.specs.Prelude.{List};
    ghost use Rattle.card_state.specs.Persistent.{File};

    ghost Value = { List File };

    ghost use Rattle.layout_section.specs.Filing.{files_of, AreFiles};

    ghost view = { files_of };

    ghost invariant = { AreFiles };
}

/// The entries of all files, and the bytes of all files.
#[derive(Drop)]
pub struct SpelledFiles<'a> {
    pub entries: [u8; NODES_LENGTH],
    pub bytes: &'a [u8],
}

// The table with the MF alone.
fn mf_table() -> [Node; NODE_COUNT]
    ensures long { length result ≡ NODE_COUNT }
    ensures first { take 1 result ≡ df_node 0 (record { 0 = mf_id }) ∷ [] }
{
    let mut nodes = [Node::UNUSED; NODE_COUNT];
    nodes[0] = new_df(0, FileId::MF);
    nodes
}

impl Files {
    /// The MF alone.
    pub fn new(alloc: Global) -> Result<Files, OutOfMemory>
        ensures { IfOk result (λ files. files ≡ mf ∷ []) }
    {
        let bytes = blank_bytes(alloc, ALL_BYTES)?;
        Ok(Files {
            nodes: mf_table(),
            count: 1,
            bytes,
            total: 0,
        })
    }

    /// How many files there are.
    pub fn len(&self) -> usize
        ensures value { result ≡ length self.now }
        ensures few { result ≤ NODE_COUNT }
    {
        self.count
    }

    /// How many bytes they have together.
    pub fn total(&self) -> usize
        ensures value { result ≡ byte_total_of self.now }
        ensures fits { result ≤ all_bytes }
    {
        self.total
    }

    // The number of the MF.
    fn mf(&self) -> u8
        ensures { IsAt self.now mf result }
    {
        // A section begins with the MF.
        prove!(self.count > 0);
        0
    }

    /// Whether the file of this number is a DF.
    pub fn is_df(&self, number: u8) -> bool
        requires { number < length self.now }
        ensures { result ≡ ((file_numbered self.now number).kind == df_kind) }
    {
        self.nodes[usize::from(number)].kind == DF
    }

    /// The number of the file of this DF that has this identifier. The MF is nobody's child.
    pub fn child(&self, df: u8, id: FileId) -> Option<u8>
        ensures { IsFound self.now (child_of self.now df id) result }
    {
        match first_child(&self.nodes[..self.count], df, id) {
            Some(number) => Some(number as u8),
            None => None,
        }
    }

    /// Whether an EF of this DF has this short identifier.
    pub fn has_short(&self, df: u8, short: u8) -> bool
        ensures { result
            ≡ list_any (λ file. is_ef_kind file.kind && file.parent == df && file.short == short) self.now }
    {
        some_has_short(&self.nodes[..self.count], df, short)
    }

    // The number of the file at this path from another.
    fn at(&self, from: u8, path: &[FileId]) -> Option<u8>
        requires { IsAt self.now (file_numbered self.now from) from }
        ensures { IsFound self.now (file_at self.now (file_numbered self.now from) path.now) result }
    {
        match path {
            [] => Some(from),
            [id, rest @ ..] => {
                if !self.is_df(from) {
                    return None;
                }
                match self.child(from, *id) {
                    Some(child) => self.at(child, rest),
                    None => None,
                }
            }
        }
    }

    /// The number of the file at this path from the MF.
    pub fn find(&self, path: &[FileId]) -> Option<u8>
        ensures { IsFound self.now (file_at self.now mf path.now) result }
    {
        self.at(self.mf(), path)
    }

    /// Adds a DF.
    pub fn add_df(&mut self, parent: u8, id: FileId)
        requires few { length self.old < NODE_COUNT }
        requires place { IsPlaceIn self.old parent id }
        ensures { self.new ≡ self.old ++ df_numbered (length self.old) parent id ∷ [] }
    {
        self.nodes[self.count] = new_df(parent, id);
        self.count += 1;
    }

    /// Adds an EF after the others, with the bytes FF.
    pub fn add_ef(
        &mut self,
        parent: u8,
        id: FileId,
        shape: Shape,
        short: u8,
        rule: Option<(FileId, u8)>,
    )
        requires few { length self.old < NODE_COUNT }
        requires room { byte_total_of self.old + size_of shape ≤ all_bytes }
        requires shape { is_shape shape ≡ true }
        requires rule { rule_holds rule ≡ true }
        requires place { IsPlaceIn self.old parent id }
        requires short { is_short_for self.old parent short ≡ true }
        ensures { self.new ≡ self.old ++ ef_numbered self.old parent id shape short (rule_from rule) ∷ [] }
    {
        let size = usize::from(size_for(shape));
        let place = (DATA + self.total) as u16;
        blank(&mut self.bytes, self.total, size);
        self.nodes[self.count] = new_ef(place, parent, id, shape, short, rule);
        self.count += 1;
        self.total += size;
    }

    /// Puts bytes into a transparent file.
    pub fn fill(&mut self, number: u8, offset: u16, bytes: &[u8]) -> Result<(), SectionFault>
        requires { number < length self.old }
        ensures { Rewrites self.old number (filled offset bytes.now (file_numbered self.old number).contents)
            result self.new }
    {
        let node = self.nodes[usize::from(number)];
        match place_of_bytes(&node, offset, bytes.len()) {
            Some(at) => {
                put(&mut self.bytes, at, bytes);
                Ok(())
            }
            None => Err(SectionFault::Bad),
        }
    }

    /// Puts a record, filled up with FF, into a record file.
    pub fn set_record(&mut self, number: u8, index: u8, bytes: &[u8]) -> Result<(), SectionFault>
        requires { number < length self.old }
        ensures { Rewrites self.old number (with_record index bytes.now (file_numbered self.old number).contents)
            result self.new }
    {
        let node = self.nodes[usize::from(number)];
        match place_of_record(&node, index, bytes.len()) {
            Some(at) => {
                put_filled(&mut self.bytes, at, bytes, usize::from(node.length));
                Ok(())
            }
            None => Err(SectionFault::Bad),
        }
    }

    /// The entries of all files as they are spelled, and their bytes.
    pub fn spelled(&self) -> SpelledFiles<'_>
        ensures { SpellsFiles self.now result.entries result.bytes.now }
    {
        SpelledFiles {
            entries: spell_nodes(&self.nodes[..self.count]),
            bytes: &self.bytes.as_slice()[..self.total],
        }
    }
}
