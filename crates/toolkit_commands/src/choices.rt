//! Reading the items of a choice or of a menu.
ghost use Rattle.std.specs.Prelude.{◌≡◌, None, length, IfOk};
ghost use Rattle.comprehension_tlv.specs.Reading.{flaw};
ghost use Rattle.toolkit_commands.specs.Values.{choice_of, menu_read};
ghost use Rattle.toolkit_commands.specs.Steps.{items_in};
ghost use Rattle.toolkit_commands.specs.Counting.{counted, IsFirst};

use crate::faults::ProactiveFault;
use crate::items::Items;
use crate::tags::ITEM;
use crate::values::item_of;
use comprehension_tlv::walk;

/// All items of the list, at most 16.
pub fn choice_of(content: &[u8]) -> Result<Items, ProactiveFault>
    requires { flaw content.now ≡ None }
    ensures exact { result ≡ choice_of (items_in content.now) }
    ensures count { IfOk result (λ items. length items ≡ length (items_in content.now)) }
{
    let mut items = Items::new();
    let mut parts = walk(content);
    while let Some(part) = parts.next()? {
        if part.tag == ITEM {
            items.push(item_of(part.value)?)?;
        }
    }
    Ok(items)
}

/// How many items the list has, as far as a byte can say.
fn count_of(content: &[u8]) -> Result<u8, ProactiveFault>
    requires { flaw content.now ≡ None }
    ensures { result ≡ counted (items_in content.now) }
{
    let mut count = 0u8;
    let mut parts = walk(content);
    while let Some(part) = parts.next()? {
        if part.tag == ITEM {
            count = count.saturating_add(1);
        }
    }
    Ok(count)
}

/// All items of a menu, of which `first` is the value of the first. One item of length 0 alone is the empty menu.
pub fn menu_of(content: &[u8], first: &[u8]) -> Result<Items, ProactiveFault>
    requires fault { flaw content.now ≡ None }
    requires first { IsFirst (items_in content.now) first.now }
    ensures { result ≡ menu_read (items_in content.now) }
{
    if first.is_empty() && count_of(content)? == 1 {
        return Ok(Items::new());
    }
    choice_of(content)
}
