//! How a terminal's commands come to the card.
ghost use Rattle.std.specs.Prelude.{IsTrue};
ghost use Rattle.t0_link.specs.Carrying.{RoseBy, carried, tpdus_for};
ghost use Rattle.run_steps.specs.Carriers.{Carries};
ghost use Rattle.run_steps.specs.Ends.{Comes};
ghost use Rattle.run_steps.specs.Taking.{seen};

use crate::ends::CardEnd;
use crate::link_laws::link_changes_no_step;
use applet_trait::Applet;
use store_form::Store;
use t0_link::{Endpoint, Link, LinkFault, is_carried};
use uicc_types::{Answer, are_bytes};

/// How a terminal's commands come to the card.
#[derive(Debug, Drop)]
pub enum Carrier {
    /// As they are.
    Direct,
    /// Over a T=0 link, as TPDUs.
    Link(Link),
}

impl Carrier {
    // Has the card take a command. One that the link does not carry goes to the card as it is; any other one goes over it, by its TPDU and
    // by GET RESPONSE for the data that are left there. Most commands go without a link, and over one there is more to do than a call.
    #[inline(always)]
    pub(crate) fn send<S: Store, B: Applet>(
        &mut self,
        end: &mut CardEnd<S, B>,
        apdu: &[u8],
        answer: &mut Answer,
    ) -> Result<(), LinkFault>
        ensures comes { Comes end.old apdu.now (seen result answer.new) end.new }
        ensures carries { Carries (tpdus_for apdu.now answer.new.body) self.old self.new }
    {
        match self {
            Carrier::Direct => send(end, apdu, answer),
            Carrier::Link(link) => {
                if is_carried(apdu) {
                    send_over(link, end, apdu, answer)
                } else {
                    send(end, apdu, answer)
                }
            }
        }
    }
}

// Has the card take a command as it is.
fn send<S: Store, B: Applet>(
    end: &mut CardEnd<S, B>,
    apdu: &[u8],
    answer: &mut Answer,
) -> Result<(), LinkFault>
    ensures { Comes end.old apdu.now (seen result answer.new) end.new }
{
    end.transmit(apdu, answer)
}

// Has the card take a command over the link.
#[inline(never)]
fn send_over<S: Store, B: Applet>(
    link: &mut Link,
    end: &mut CardEnd<S, B>,
    apdu: &[u8],
    answer: &mut Answer,
) -> Result<(), LinkFault>
    requires { IsTrue (carried apdu.now) }
    ensures comes { Comes end.old apdu.now (seen result answer.new) end.new }
    ensures carries { RoseBy (tpdus_for apdu.now answer.new.body) link.old.tpdus link.new.tpdus }
{
    // This call is a law, and does nothing.
    link_changes_no_step();
    are_bytes(apdu);
    end.is_ready();
    link.command(end, apdu, answer)
}
