//! The first part of a script: what the card holds.
ghost use Rattle.std.specs.Prelude.{◌≡◌, ◌<◌, List, ℕ, Option, Ok, Err, true, false};
ghost use Rattle.byte_streams.specs.Reading.{IsWithin};
ghost use Rattle.byte_streams.specs.Streams.{CountsEach};
ghost use Rattle.script_reader.specs.Reading.{reading, room_of};
ghost use Rattle.card_state.specs.Persistent.{Persistent};
ghost use Rattle.layout_section.specs.Adding.{Adds};
ghost use Rattle.applet_trait.specs.Minds.{minds_of, kind_on};
ghost use Rattle.section_lines.specs.SectionReading.{GivesSection, GivesSectionLine, InSection, IsAdded};
ghost use Rattle.section_lines.specs.Script.{described, ef_described, file_described};

use applet_trait::{Applet, kind_on};
use byte_streams::Source;
use card_state::{SectionFault, Shape};
use layout_section::Section;
use script_form::ScriptLine;
use script_reader::{ScriptFault, ScriptReader};
use uicc_types::Shelf;

/// Reads the lines up to `start`, and adds what they describe to the card, whose applets are these. Without a card, as where
/// one that is there is opened, they are empty or comments.
pub fn read_section<R: Source, B: Applet>(
    script: &mut ScriptReader,
    source: &mut R,
    cast: &[Option<B>],
    card: &mut Option<Section>,
) -> Result<(), ScriptFault>
    ensures card { (first : Option Persistent) (text : List ℕ)
        → InSection (minds_of B.mind cast.now) first text script.old (R.left source.old) card.old
        → GivesSection (minds_of B.mind cast.now) first text script.new (R.left source.new) card.new result }
    ensures within { (text : List ℕ) → IsWithin text (reading script.old) (R.left source.old)
        → IsWithin text (reading script.new) (R.left source.new) }
    ensures cause { CountsEach (R.faults source.old) (R.faults source.new) (result ≡ Err ScriptFault.ReadFailed) }
{
    let mut line = ScriptLine::Passed;
    while !read_section_line(script, source, cast, card, &mut line)? {}
    Ok(())
}

/// Reads one line of the section into `line`, and answers whether it was `start`.
fn read_section_line<R: Source, B: Applet>(
    script: &mut ScriptReader,
    source: &mut R,
    cast: &[Option<B>],
    card: &mut Option<Section>,
    line: &mut ScriptLine,
) -> Result<bool, ScriptFault>
    ensures line { (first : Option Persistent) (text : List ℕ)
        → InSection (minds_of B.mind cast.now) first text script.old (R.left source.old) card.old
        → GivesSectionLine (minds_of B.mind cast.now) first text script.new (R.left source.new) card.new result }
    ensures within { (text : List ℕ) → IsWithin text (reading script.old) (R.left source.old)
        → IsWithin text (reading script.new) (R.left source.new) }
    ensures cause { CountsEach (R.faults source.old) (R.faults source.new) (result ≡ Err ScriptFault.ReadFailed) }
    ensures nearer { result ≡ Ok false → room_of script.new < room_of script.old }
{
    match script.next(source, line) {
        Err(fault) => Err(fault),
        Ok(false) => Err(script.next_is_bad()),
        Ok(true) => match add_line(cast, card, line) {
            Ok(started) => Ok(started),
            Err(SectionFault::Bad) => Err(ScriptFault::BadLine(script.number())),
            Err(SectionFault::NoRoom) => Err(ScriptFault::NoRoom(script.number())),
        },
    }
}

/// Adds to the card what a line of the section says, and answers whether it was `start`. A fault, and no change, where it
/// may not stand there or there is no room.
fn add_line<B: Applet>(
    cast: &[Option<B>],
    card: &mut Option<Section>,
    line: &ScriptLine,
) -> Result<bool, SectionFault>
    ensures { IsAdded (minds_of B.mind cast.now) card.old line.now card.new result }
{
    match line {
        ScriptLine::Start => Ok(true),
        ScriptLine::Passed => Ok(false),
        _ => match card {
            Some(section) => describe(cast, section, line).map(|()| false),
            None => Err(SectionFault::Bad),
        },
    }
}

/// Adds to a section what a line says. A fault, and no change, where it may not stand there or there is no room.
pub fn describe<B: Applet>(
    cast: &[Option<B>],
    section: &mut Section,
    line: &ScriptLine,
) -> Result<(), SectionFault>
    ensures { Adds (described (minds_of B.mind cast.now) section.old line.now) section.old result section.new }
{
    match line {
        ScriptLine::Passed => Ok(()),
        ScriptLine::Pin {
            key,
            value,
            enabled,
            unblock,
        } => section.pin(*key, *value, *enabled, *unblock),
        ScriptLine::Row {
            shelf,
            priority,
            content,
        } => section.row(
            Shelf(*shelf),
            *priority,
            content.as_slice(),
            kind_on(cast, *shelf),
        ),
        _ => describe_file(section, line),
    }
}

/// Adds to a section what a line says of its files.
fn describe_file(section: &mut Section, line: &ScriptLine) -> Result<(), SectionFault>
    ensures { Adds (file_described section.old line.now) section.old result section.new }
{
    match line {
        ScriptLine::Df { path } => section.add_df(path.as_slice()),
        ScriptLine::Fill {
            path,
            offset,
            bytes,
        } => section.fill(path.as_slice(), *offset, bytes.as_slice()),
        ScriptLine::Rec {
            path,
            number,
            bytes,
        } => section.set_record(path.as_slice(), *number, bytes.as_slice()),
        _ => describe_ef(section, line),
    }
}

/// Adds to a section the EF that a line describes.
fn describe_ef(section: &mut Section, line: &ScriptLine) -> Result<(), SectionFault>
    ensures { Adds (ef_described section.old line.now) section.old result section.new }
{
    match line {
        ScriptLine::Transparent {
            path,
            size,
            short,
            rule,
        } => section.add_ef(
            path.as_slice(),
            Shape::Transparent { size: *size },
            *short,
            *rule,
        ),
        ScriptLine::Linear {
            path,
            length,
            count,
            short,
            rule,
        } => section.add_ef(
            path.as_slice(),
            Shape::Linear {
                length: *length,
                count: *count,
            },
            *short,
            *rule,
        ),
        ScriptLine::Cyclic {
            path,
            length,
            count,
            short,
            rule,
        } => section.add_ef(
            path.as_slice(),
            Shape::Cyclic {
                length: *length,
                count: *count,
            },
            *short,
            *rule,
        ),
        _ => Err(SectionFault::Bad),
    }
}
