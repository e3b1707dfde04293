//! A run, over a device, a source, a sink and applets of one's own.

use crate::own::Own;
use applet_trait::Applet;
use boxed_applets::{Menu, boxed_applet, in_box};
use card_state::places::MEMORY_SIZE;
use card_state::sizes::ROW_COUNT;
use eeprom_model::{BenchEeprom, Eeprom};
use script_form::{ListSink, Sink, SliceSource, Source};
use std::alloc::Global;
use std::test::Fail;
use uicc_run::{Devices, device_size, devices, fits, run};

/// What a run answers, or 255 where the device or the boxes are none for one.
fn ran<R: Source, W: Sink, E: Eeprom + Drop>(
    alloc: Global,
    words: &[String],
    script: &mut R,
    trace: &mut W,
    eeprom: E,
    cast: Vec<Option<Box<dyn Applet>>>,
) -> (u8, E, Vec<Option<Box<dyn Applet>>>) {
    if !fits(words, eeprom.size()) || cast.len() > ROW_COUNT {
        return (0xFF, eeprom, cast);
    }
    run(alloc, words, script, trace, eeprom, cast)
}

#[test]
fn a_run_has_boxes_of_each_kind(rt: HostRuntime) -> Result<(), Fail> {
    let alloc = rt.alloc();
    let mut cast: Vec<Option<Box<dyn Applet>>> = Vec::new(alloc);
    for shelf in 0..8usize {
        cast.push(Some(boxed_applet!(alloc, shelf)))?;
    }
    cast.push(Some(in_box!(
        alloc,
        Own {
            inner: Menu::new(),
        }
    )))?;
    let mut words = Vec::new(alloc);
    words.push(String::from_str(alloc, "play")?)?;
    let made: Option<Devices> = devices(&words);
    assert!(rt;
        matches!(
            made,
            Some(Devices {
                image: None,
                pages: false
            })
        )
    );
    let text = b"row 8 1 00044D656E75\nstart\napdu 00A4000C023F00\n";
    let mut script = Own {
        inner: SliceSource::new(text, &[]),
    };
    let mut trace = Own {
        inner: ListSink::new(alloc, 4096, &[])?,
    };
    let eeprom = Own {
        inner: BenchEeprom::new(alloc, device_size(false))?,
    };
    let (status, eeprom, cast) = ran(alloc, &words, &mut script, &mut trace, eeprom, cast);
    assert_eq!(rt; status, 0);
    assert!(rt; trace.inner.taken() == b"> 00A4000C023F00\n< 9000\n".as_slice());
    assert_eq!(rt; eeprom.size(), MEMORY_SIZE);
    match cast.get(8) {
        Some(Some(applet)) => assert_eq!(rt; applet.kind(), 2),
        _ => assert!(rt; false),
    }
    Ok(())
}
