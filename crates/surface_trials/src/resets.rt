//! A reset that fails.
ghost use Rattle.std.specs.Prelude.{◌≡◌, ◌≤◌, length};

use applet_trait::Applet;
use card_core::{CardOver, OpenFault, ResetFault};
use eeprom_model::BenchEeprom;
use layout_section::{Section, format};
use std::alloc::Global;
use std::test::Fail;
use store_form::Store;
use uicc_types::{Answer, Plan, StatusWord};
use update_journal::Journal;

const SIZE: usize = 65_536;

/// The first read call fails.
const UNREADABLE: Plan = Plan {
    cut: None,
    fail: None,
    read_fail: Some(1),
};

/// The status of a SELECT of the MF after a reset in which the memory failed.
fn answered_behind<S: Store + Drop, B: Applet>(
    alloc: Global,
    store: S,
    section: &Section,
    cast: Vec<Option<B>>,
) -> Result<Option<StatusWord>, OpenFault>
    requires size { S.byte_count store ≡ SIZE }
    requires shelves { length cast.items ≤ 32 }
{
    let mut store = store;
    format(&mut store, section)?;
    match CardOver::open(alloc, store, cast) {
        Ok(mut card) => {
            card.arm(UNREADABLE);
            let mut answer = Answer::new();
            let is_failed = card.reset() == Err(ResetFault::Failed);
            let select = b"\x00\xA4\x00\x0C\x02\x3F\x00";
            let is_answered = card.transmit(select, &mut answer).is_ok();
            Ok(if is_failed && is_answered {
                Some(answer.status)
            } else {
                None
            })
        }
        Err((fault, _, _)) => Err(fault),
    }
}

#[test]
fn a_card_goes_on_behind_a_reset_that_failed(rt: HostRuntime) -> Result<(), Fail> {
    let section = Section::new(rt.alloc())?;
    let store = Journal::new(BenchEeprom::new(rt.alloc(), SIZE)?);
    let cast: Vec<Option<Box<dyn Applet>>> = Vec::new(rt.alloc());
    let status = answered_behind(rt.alloc(), store, &section, cast)?;
    assert_eq!(rt; status, Some(StatusWord(0x9000)));
    Ok(())
}
