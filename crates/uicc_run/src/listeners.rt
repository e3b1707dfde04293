//! To whom the lines after `start` go.
ghost use Rattle.std.specs.Prelude.{◌≡◌};
ghost use Rattle.uicc_run.specs.BetweenLines.{IsCarrierBy};
ghost use Rattle.uicc_run.specs.Opening.{listener_of};

use command_line::{Mode, Transport};
use run_steps::Carrier;
use t0_link::Link;

/// To whom the lines after `start` go.
#[derive(Clone, Copy, PartialEq, Eq)]
pub enum Listener {
    /// To the card itself.
    Card,
    /// To a handset, whose commands reach the card so.
    Handset(Transport),
}

/// To whom the lines go in a run of this mode.
pub fn listener_for(mode: Mode) -> Listener
    ensures { result ≡ listener_of mode }
{
    match mode {
        Mode::Phone { transport } => Listener::Handset(transport),
        Mode::Load { .. } => Listener::Handset(Transport::Direct),
        Mode::Play | Mode::Open | Mode::Bip => Listener::Card,
    }
}

/// How a handset's commands come to the card: as they are, or over a link that keeps nothing yet.
pub fn carrier_by(transport: Transport) -> Carrier
    ensures { IsCarrierBy transport result }
{
    match transport {
        Transport::Direct => Carrier::Direct,
        Transport::T0 => Carrier::Link(Link::new()),
    }
}
