//! The timers of the handset.
ghost use Rattle.std.specs.Prelude.{◌≡◌, ◌≤◌, ◌<◌, ◌^◌, ◌+◌, length};
ghost use Rattle.handset_model.specs.Timers.{due_of, seconds_of, soonest, sooner, time_of, timer_in};
ghost use Rattle.terminal_side.specs.Kept.{with_timer};

use handset_model::{Due, Running};
use toolkit_commands::TimeValue;

/// A time in seconds.
pub fn seconds_of(value: &TimeValue) -> u64
    ensures exact { result ≡ seconds_of value.now }
    ensures small { result < 2 ^ 20 }
{
    3600 * u64::from(value.hours) + 60 * u64::from(value.minutes) + u64::from(value.seconds)
}

/// So many seconds as a time, at most 99:59:59.
pub fn time_of(seconds: u64) -> TimeValue
    ensures { result ≡ time_of seconds }
{
    if seconds >= 360_000 {
        return TimeValue {
            hours: 99,
            minutes: 59,
            seconds: 59,
        };
    }
    TimeValue {
        hours: (seconds / 3600) as u8,
        minutes: (seconds / 60 % 60) as u8,
        seconds: (seconds % 60) as u8,
    }
}

/// What runs as the timer of this number; nothing where it is none.
pub fn timer_in(timers: &[Option<Running>; 8], timer: u8) -> Option<Running>
    ensures { result ≡ timer_in timers.now timer }
{
    match timer {
        1..=8 => timers[usize::from(timer) - 1],
        _ => None,
    }
}

/// Changes what runs as the timer of this number; nothing where it is none.
pub fn set_timer(timers: &mut [Option<Running>; 8], timer: u8, slot: Option<Running>)
    ensures { timers.new ≡ with_timer timer slot timers.old }
{
    if matches!(timer, 1..=8) {
        timers[usize::from(timer) - 1] = slot;
    }
}

fn due_of(timer: u8, slot: &Option<Running>) -> Option<Due>
    ensures { result ≡ due_of timer slot.now }
{
    match slot {
        Some(running) => Some(Due {
            timer,
            due: running.due,
            value: running.value,
        }),
        None => None,
    }
}

/// The earlier one; of two at one moment the first.
fn sooner(first: Option<Due>, second: Option<Due>) -> Option<Due>
    ensures { result ≡ sooner first second }
{
    match (first, second) {
        (None, second) => second,
        (Some(first), None) => Some(first),
        (Some(first), Some(second)) => {
            if first.due <= second.due {
                Some(first)
            } else {
                Some(second)
            }
        }
    }
}

/// The timer that is due first, of those from this number on.
pub fn soonest(timer: u8, timers: &[Option<Running>]) -> Option<Due>
    requires { timer + length timers.now ≤ 255 }
    ensures { result ≡ soonest timer timers.now }
{
    let mut number = timer;
    let mut rest = timers;
    // Mostly no timer runs.
    loop {
        match rest {
            [] => return None,
            [None, others @ ..] => {
                number += 1;
                rest = others;
            }
            [slot, others @ ..] => {
                return sooner(due_of(number, slot), soonest(number + 1, others));
            }
        }
    }
}
