//! Devices, and stores over them.
ghost use Rattle.std.specs.Prelude.{◌≡◌, true};
ghost use Rattle.page_store.specs.declared.places.TheConstants.{DEVICE_SIZE};

use crate::own::Own;
use eeprom_model::{BenchEeprom, Eeprom, EepromFault, FileEeprom};
use page_store::{DEVICE_SIZE, PageStore};
use std::test::Fail;
use store_form::{Store, StoreFault, Writes};
use uicc_types::{Full, OutOfMemory, Plan};
use update_journal::Journal;

/// Calls each of a device's calls, and answers its size.
fn served<E: Eeprom>(device: &mut E) -> Result<usize, EepromFault> {
    let size: usize = device.size();
    device.power_up();
    device.arm(Plan::NONE);
    let mut read = [0; 2];
    if size >= 64 {
        device.program(62, &[1, 2])?;
        device.read(62, &mut read)?;
    }
    Ok(size)
}

#[test]
fn devices(rt: HostRuntime) -> Result<(), Fail> {
    let made: Result<BenchEeprom, OutOfMemory> = BenchEeprom::new(rt.alloc(), 64);
    let mut device = Own { inner: made? };
    assert_eq!(rt; served(&mut device), Ok(64));
    let mut file = FileEeprom::new(None, 64);
    assert_eq!(rt; served(&mut file), Err(EepromFault::Failed));
    Ok(())
}

/// Calls each of a store's calls, and answers its store byte.
fn commits<S: Store>(store: &mut S) -> Result<u8, StoreFault>
    requires { S.byte_count store.old ≡ 65536 }
{
    let mut writes = Writes::new();
    let added: Result<(), Full> = writes.add(832, &[3]);
    store.power_up();
    store.arm(Plan::NONE);
    store.recover()?;
    if added.is_ok() && writes.len() == 1 {
        let (_place, _bytes): (u16, &[u8]) = writes.piece(0);
        store.commit(&writes)?;
    }
    store.prepare(833, &[1, 2])?;
    let mut read = [0; 3];
    store.read(832, &mut read)?;
    Ok(if read == [3, 1, 2] {
        store.mark()
    } else {
        0xFF
    })
}

#[test]
fn stores(rt: HostRuntime) -> Result<(), Fail> {
    let journal = Journal::new(BenchEeprom::new(rt.alloc(), 65_536)?);
    assert_eq!(rt; commits(&mut Own { inner: journal }), Ok(0));
    let mut pages = PageStore::new(Own {
        inner: BenchEeprom::new(rt.alloc(), DEVICE_SIZE)?,
    });
    assert_eq!(rt; commits(&mut pages), Ok(1));
    let device: Own<BenchEeprom> = pages.into_device();
    assert_eq!(rt; device.size(), DEVICE_SIZE);
    let device: BenchEeprom = Journal::new(BenchEeprom::new(rt.alloc(), 832)?).into_device();
    assert_eq!(rt; device.size(), 832);
    Ok(())
}
