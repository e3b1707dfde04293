//! What holds of every run of a handset. The function does nothing: its contract is the law.
ghost use Rattle.phone_runs.specs.Laws.{EndsAreBegun, EndsAreOfTheCard, RunsAreBegun, RunsAreLegal, RunsAreOfTheCard, PhoneRunsAreOne};

use card_laws::runs_are_one;

/// Where the handset rests, the trace of a run is one that the rules of the handset ask for, and at each place the beginning
/// of such a one. Without its notes it is the trace of a run of the card. Also where a run ended because the sink failed, or the
/// memory in a reset, the sink has taken the beginning of such a trace; and that one too is without its notes the trace of a run of
/// the card, but for a last line of a command which the card was not sent.
pub fn phone_runs_are_lawful()
    ensures legal { RunsAreLegal }
    ensures begun { RunsAreBegun }
    ensures card { RunsAreOfTheCard }
    ensures ended { EndsAreBegun }
    ensures card_ended { EndsAreOfTheCard }
{}

/// Where nothing fails and no power is lost, lines and a card determine all that happens: two runs of a handset over the same lines, on the
/// same card, show one trace, and end with the same card.
pub fn phone_runs_are_one()
    ensures { PhoneRunsAreOne }
{
    runs_are_one();
}
