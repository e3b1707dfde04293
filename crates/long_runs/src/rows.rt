//! The card of a long run.
ghost use Rattle.applet_trait.specs.Minds.{minds_of};
ghost use Rattle.long_runs.specs.Rows.{GivesRows};

use crate::fixed_rows::fixed_row;
use applet_trait::Applet;
use layout_section::Section;
use section_lines::describe;

/// Adds the rows of the card, one after the other, to a section, where the applets are these. It answers the number, counted from
/// 1, of the first row that cannot be added.
pub fn describe_rows<B: Applet>(cast: &[Option<B>], section: &mut Section) -> Result<(), u32>
    ensures { GivesRows (minds_of B.mind cast.now) section.old section.new result }
{
    let mut place = 0;
    while let Some(line) = fixed_row(place) {
        match describe(cast, section, &line) {
            Ok(()) => place += 1,
            Err(_) => return Err(place + 1),
        }
    }
    Ok(())
}
