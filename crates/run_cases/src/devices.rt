//! The device that a case's runs share.

use crate::cases::{Patch, Setup};
use crate::plans::plan_of;
use eeprom_model::{BenchEeprom, Eeprom};
use std::alloc::{AllocError, Global};
use uicc_types::{CutAt, Plan};

/// A device of so many bytes that holds nothing.
pub fn blank(alloc: Global, size: usize) -> Result<BenchEeprom, AllocError> {
    BenchEeprom::new(alloc, size).map_err(|_| AllocError)
}

/// The device as a run finds it: of the size that its store wants, and set up so.
pub fn prepared(
    alloc: Global,
    device: BenchEeprom,
    size: usize,
    setup: &Setup,
    plan: &str,
) -> Result<BenchEeprom, AllocError> {
    let mut made = remade(alloc, device, size, setup.blank)?;
    put_all(&mut made, setup.patches.as_slice());
    if setup.armed {
        made.arm(plan_of(plan));
    }
    if !setup.powered {
        power_off(&mut made);
    }
    Ok(made)
}

/// The device of this size: itself, or else another one that has its bytes as far as they reach, if it isn't to be blank.
fn remade(
    alloc: Global,
    device: BenchEeprom,
    size: usize,
    is_blank: bool,
) -> Result<BenchEeprom, AllocError> {
    if is_blank {
        return blank(alloc, size);
    }
    if device.size() == size {
        return Ok(device);
    }
    let mut from = device;
    let mut made = blank(alloc, size)?;
    for at in 0..size {
        if let Some(byte) = byte_at(&mut from, at) {
            put_byte(&mut made, at, byte);
        }
    }
    Ok(made)
}

/// Gives the device power, and takes its plan away.
pub fn revive<E: Eeprom>(device: &mut E) {
    device.arm(Plan::NONE);
    device.power_up();
}

fn put_all(device: &mut BenchEeprom, patches: &[Patch]) {
    for patch in patches {
        let mut at = patch.at;
        for byte in &patch.bytes {
            put_byte(device, at, *byte);
            at = at.saturating_add(1);
        }
    }
}

/// Puts a byte at a place, where the device has one there.
fn put_byte(device: &mut BenchEeprom, at: usize, byte: u8) {
    if at < device.size() {
        let _ = device.program(at, &[byte]);
    }
}

/// Whether the device has all these bytes.
pub fn has_all<E: Eeprom>(device: &mut E, patches: &[Patch]) -> bool {
    let mut holds = true;
    for patch in patches {
        let mut at = patch.at;
        for byte in &patch.bytes {
            holds = holds && byte_at(device, at) == Some(*byte);
            at = at.saturating_add(1);
        }
    }
    holds
}

/// The byte at a place, where the device has one there.
fn byte_at<E: Eeprom>(device: &mut E, at: usize) -> Option<u8> {
    if at >= device.size() {
        return None;
    }
    let mut one = [0];
    device.read(at, &mut one).ok()?;
    let [byte] = one;
    Some(byte)
}

/// Takes the device's power away, and leaves its bytes: a cut keeps the one byte that is written anew.
fn power_off(device: &mut BenchEeprom) {
    let first = byte_at(device, 0).unwrap_or(0xFF);
    device.arm(Plan {
        cut: Some(CutAt {
            call: 1,
            kept: 1,
            rest: 0xFF,
        }),
        ..Plan::NONE
    });
    put_byte(device, 0, first);
    device.arm(Plan::NONE);
}
