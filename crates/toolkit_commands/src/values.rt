//! The values of single objects.
ghost use Rattle.std.specs.Prelude.{◌≡◌, ◌≤◌, length, IfOk};
ghost use Rattle.toolkit_commands.specs.Values.{one_byte, two_bytes, three_bytes, seconds_of, text_of, short_text_of, item_read, timer_of, swapped_decimal, time_of, is_pair};
ghost use Rattle.toolkit_commands.specs.Steps.{Gives};
ghost use Rattle.toolkit_commands.specs.Table.{IsWritable};

use crate::commands::TimeValue;
use crate::devices::CARD;
use crate::faults::ProactiveFault;
use crate::items::Item;
use crate::qualifiers::{EIGHT_BITS, IN_SECONDS};
use uicc_types::ShortText;

pub fn one_byte(value: &[u8]) -> Result<u8, ProactiveFault>
    ensures { result ≡ one_byte value.now }
{
    match value {
        [byte] => Ok(*byte),
        _ => Err(ProactiveFault::BadData),
    }
}

pub fn two_bytes(value: &[u8]) -> Result<(u8, u8), ProactiveFault>
    ensures { result ≡ two_bytes value.now }
{
    match value {
        [first, second] => Ok((*first, *second)),
        _ => Err(ProactiveFault::BadData),
    }
}

pub fn three_bytes(value: &[u8]) -> Result<(u8, u8, u8), ProactiveFault>
    ensures { result ≡ three_bytes value.now }
{
    match value {
        [first, second, third] => Ok((*first, *second, *third)),
        _ => Err(ProactiveFault::BadData),
    }
}

/// A duration in seconds.
pub fn seconds_of(value: &[u8]) -> Result<u8, ProactiveFault>
    ensures { result ≡ seconds_of value.now }
{
    match value {
        [IN_SECONDS, seconds] => Ok(*seconds),
        _ => Err(ProactiveFault::BadData),
    }
}

/// The bytes of a text string.
pub fn text_of(value: &[u8]) -> Result<&[u8], ProactiveFault>
    ensures exact { Gives (λ x. x.now) result (text_of value.now) }
    ensures fits { IfOk result (λ text. length text.now ≤ length value.now) }
{
    match value {
        [EIGHT_BITS, text @ ..] => Ok(text),
        _ => Err(ProactiveFault::BadData),
    }
}

/// A title or the text of an item.
pub fn short_text_of(text: &[u8]) -> Result<ShortText, ProactiveFault>
    ensures { result ≡ short_text_of text.now }
{
    let mut short = ShortText::new();
    short.append(text)?;
    Ok(short)
}

pub fn item_of(value: &[u8]) -> Result<Item, ProactiveFault>
    ensures { result ≡ item_read value.now }
{
    match value {
        [id, text @ ..] => Ok(Item {
            id: *id,
            text: short_text_of(text)?,
        }),
        [] => Err(ProactiveFault::BadData),
    }
}

pub fn timer_of(value: &[u8]) -> Result<u8, ProactiveFault>
    ensures exact { result ≡ timer_of value.now }
    ensures known { IfOk result (λ timer. (1 ≤ timer) × (timer ≤ 8)) }
{
    match value {
        [timer @ 1..=8] => Ok(*timer),
        _ => Err(ProactiveFault::BadData),
    }
}

/// A number of two decimal digits, of which the lower one stands in the upper half of the byte.
fn number_of(byte: u8) -> Result<u8, ProactiveFault>
    ensures exact { result ≡ swapped_decimal byte }
    ensures two_digits { IfOk result (λ number. number ≤ 99) }
{
    let ones = byte / 16;
    let tens = byte % 16;
    if ones > 9 || tens > 9 {
        return Err(ProactiveFault::BadData);
    }
    Ok(10 * tens + ones)
}

pub fn time_of(value: &[u8]) -> Result<TimeValue, ProactiveFault>
    ensures exact { result ≡ time_of value.now }
    ensures writable { IfOk result IsWritable }
{
    let (hours, minutes, seconds) = three_bytes(value)?;
    Ok(TimeValue {
        hours: number_of(hours)?,
        minutes: number_of(minutes)?,
        seconds: number_of(seconds)?,
    })
}

/// Whether the device identities name the card and this device.
pub fn is_sent_to(devices: &[u8], destination: u8) -> bool
    ensures { result ≡ is_pair devices.now CARD destination }
{
    match devices {
        [CARD, to] => *to == destination,
        _ => false,
    }
}
