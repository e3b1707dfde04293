//! The bytes of files.
ghost use Rattle.std.specs.Prelude.{◌≡◌, ◌+◌, ◌-◌, ◌≤◌, ◌++◌, length, replicate, IfOk};
ghost use Rattle.list_laws.specs.Patches.{patched};

use std::alloc::Global;
use uicc_types::OutOfMemory;

/// So many bytes FF.
pub fn blank_bytes(alloc: Global, count: usize) -> Result<Vec<u8>, OutOfMemory>
    ensures { IfOk result (λ bytes. length bytes.items ≡ count) }
{
    match vec![in alloc; 0xFFu8; count] {
        Ok(bytes) => Ok(bytes),
        Err(_) => Err(OutOfMemory),
    }
}

/// Puts a part at a place of the bytes.
#[tactic(auto, unfolding(list_laws::specs::Patches::patched))]
pub fn put(bytes: &mut [u8], at: usize, part: &[u8])
    requires { at + length part.now ≤ length bytes.old }
    ensures { bytes.new ≡ patched at part.now bytes.old }
{
    bytes[at..at + part.len()].copy_from_slice(part);
}

/// Makes so many bytes at a place FF.
#[tactic(auto, unfolding(list_laws::specs::Patches::patched))]
pub fn blank(bytes: &mut [u8], at: usize, count: usize)
    requires { at + count ≤ length bytes.old }
    ensures { bytes.new ≡ patched at (replicate count 255) bytes.old }
{
    bytes[at..at + count].fill(0xFF);
}

/// Puts a part at a place of the bytes, filled up with FF to this width.
pub fn put_filled(bytes: &mut [u8], at: usize, part: &[u8], width: usize)
    requires part { length part.now ≤ width }
    requires inside { at + width ≤ length bytes.old }
    ensures { bytes.new ≡ patched at (part.now ++ replicate (width - length part.now) 255) bytes.old }
{
    put(bytes, at, part);
    blank(bytes, at + part.len(), width - part.len());
}
