//! The card, with an applet of each kind in its box.
ghost use Rattle.std.specs.Prelude.{◌≡◌};

use crate::own::Own;
use applet_trait::Applet;
use boxed_applets::{Menu, boxed_applet, in_box};
use card_core::{Card, CardFault, OpenFault, ResetFault};
use card_layout::{Section, format};
use card_state::sizes::ROW_COUNT;
use eeprom_model::BenchEeprom;
use std::alloc::Global;
use std::test::Fail;
use store_form::Store;
use uicc_types::{Answer, Plan, StatusWord};
use update_journal::Journal;

/// The boxes of a card that is opened, reset, asked for something and closed, or why it isn't.
fn opened<S: Store + Drop>(
    alloc: Global,
    store: S,
    cast: Vec<Option<Box<dyn Applet>>>,
    out: &mut Answer,
) -> Result<(S, Vec<Option<Box<dyn Applet>>>), u8>
    requires size { S.byte_count store ≡ 65536 }
{
    if cast.len() > ROW_COUNT {
        return Err(5);
    }
    let opened: Result<Card<S>, (OpenFault, S, Vec<Option<Box<dyn Applet>>>)> = Card::open(
        alloc, store, cast,
    );
    match opened {
        Ok(card) => {
            let mut card = card;
            card.arm(Plan::NONE);
            let reset: Result<(), ResetFault> = card.reset();
            let transmitted: Result<(), CardFault> = card.transmit(
                b"\x00\xA4\x00\x0C\x02\x3F\x00",
                out,
            );
            match (reset, transmitted) {
                (Ok(()), Ok(())) => Ok(card.close()),
                (Err(ResetFault::Failed | ResetFault::PowerLost), _) => Err(1),
                (_, Err(CardFault::PowerLost | CardFault::NoPower)) => Err(2),
            }
        }
        Err((OpenFault::NoBox(shelf), _store, _cast)) => Err(shelf),
        Err((OpenFault::NotACard(_) | OpenFault::Memory, _store, _cast)) => Err(3),
        Err((OpenFault::Failed | OpenFault::PowerLost, _store, _cast)) => Err(4),
    }
}

#[test]
fn a_card_has_boxes_of_each_kind(rt: HostRuntime) -> Result<(), Fail> {
    let alloc = rt.alloc();
    let mut cast: Vec<Option<Box<dyn Applet>>> = Vec::new(alloc);
    for shelf in 0..8usize {
        cast.push(Some(boxed_applet!(alloc, shelf)))?;
    }
    cast.push(Some(in_box!(
        alloc,
        Own {
            inner: Menu::new(),
        }
    )))?;
    let section = Section::new(alloc)?;
    let mut store = Own {
        inner: Journal::new(BenchEeprom::new(alloc, 65_536)?),
    };
    let mut out = Answer::new();
    format(&mut store, &section)?;
    match opened(alloc, store, cast, &mut out) {
        Ok((_store, cast)) => match cast.get(8) {
            Some(Some(applet)) => assert_eq!(rt; applet.kind(), 2),
            _ => assert!(rt; false),
        },
        Err(place) => assert_eq!(rt; place, 0xFF),
    }
    assert_eq!(rt; out.status, StatusWord::DONE);
    Ok(())
}
