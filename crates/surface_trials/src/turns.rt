//! An applet in a place, known by its trait alone, and so one of one's own too.
ghost use Rattle.std.specs.Prelude.{◌≡◌, IfSome};
ghost use Rattle.applet_trait.specs.Laws.{IsWritableAct};
ghost use Rattle.applet_trait.specs.Minds.{fresh};
ghost use Rattle.applet_trait.specs.Turns.{act};

use crate::own::Own;
use applet_trait::{Act, Applet, Stimulus};
use boxed_applets::Greeter;
use std::rt::HostRuntime;
use std::test::Fail;
use toolkit_commands::Proactive;
use uicc_types::events::PROFILE_DOWNLOAD;
use uicc_types::{Kept, Octets};

/// The kind of the applet in a place, and what it does at a stimulus once it woke.
fn turn_of<B: Applet>(place: &mut Option<B>, kept: &Kept, stimulus: &Stimulus) -> Option<(u8, Act)>
    ensures writable { IfSome result (λ x. IsWritableAct x.1) }
    ensures kind { IfSome place.old (λ applet. IfSome result (λ x. x.0 ≡ (B.mind applet).kind)) }
    ensures acted { IfSome place.old (λ applet. IfSome result
        (λ x. x.1 ≡ (act (fresh (B.mind applet).kind kept.now) stimulus.now).does)) }
    ensures moved { IfSome place.old (λ applet. IfSome place.new
        (λ after. B.mind after ≡ (act (fresh (B.mind applet).kind kept.now) stimulus.now).next)) }
{
    match place {
        Some(applet) => {
            applet.wake(kept);
            let act = applet.step(stimulus);
            Some((applet.kind(), act))
        }
        None => None,
    }
}

#[test]
fn an_applet_in_a_place_acts_as_its_kind(rt: HostRuntime) -> Result<(), Fail> {
    let event = Stimulus::Event {
        code: PROFILE_DOWNLOAD,
        body: Octets::new(),
    };
    let mut place = Some(Own {
        inner: Greeter::new(),
    });
    match turn_of(&mut place, &Kept::new(), &event) {
        Some((kind, Act::Send(Proactive::DisplayText { text }))) => {
            assert_eq!(rt; kind, 1);
            assert_eq!(rt; text.as_slice(), b"Hi".as_slice());
        }
        _ => assert!(rt; false),
    }
    let mut empty: Option<Own<Greeter>> = None;
    assert!(rt; turn_of(&mut empty, &Kept::new(), &event).is_none());
    Ok(())
}
