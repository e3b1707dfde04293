//! What is selected on the logical channels, where a file comes or goes.
ghost use Rattle.std.specs.Prelude.{◌≡◌, ◌==◌, ℕ, false, slice_set, option_map};
ghost use Rattle.std.specs.Option.{option_map_or};
ghost use Rattle.file_model.specs.Channels.{selected_on};
ghost use Rattle.file_model.specs.Files.{descriptor_in};
ghost use Rattle.file_model.specs.Selections.{selection_of};
ghost use Rattle.file_model.specs.Creating.{file_made};
ghost use Rattle.file_model.specs.TreeOutcomes.{df_on, is_current, without_ef, all_without_ef};

use file_model::{NewFile, Selection};
use file_tree::Channels;

/// The current DF of a channel, or the MF where it is closed.
pub fn df_on(channels: &Channels, channel: u8) -> u8
    ensures { result ≡ df_on channels.now channel }
{
    match channels.selected(channel) {
        Some(selection) => selection.df,
        None => 0,
    }
}

fn is_current_on(channels: &Channels, channel: u8, df: u8) -> bool
    ensures { result ≡ option_map_or (λ selection. selection.df == df) (selected_on channels.now channel) false }
{
    match channels.selected(channel) {
        Some(selection) => selection.df == df,
        None => false,
    }
}

/// Whether this DF is the current one of some channel.
pub fn is_current(channels: &Channels, df: u8) -> bool
    ensures { result ≡ is_current channels.now df }
{
    channels.are_four();
    is_current_on(channels, 0, df)
        || is_current_on(channels, 1, df)
        || is_current_on(channels, 2, df)
        || is_current_on(channels, 3, df)
}

fn without_ef(number: u8, selection: Selection) -> Selection
    ensures { result ≡ without_ef number selection }
{
    if selection.ef == Some(number) {
        Selection {
            df: selection.df,
            ef: None,
            pointer: None,
        }
    } else {
        selection
    }
}

fn leave_on(channels: &mut Channels, channel: u8, number: u8)
    ensures { channels.new ≡ slice_set channels.old channel
        (option_map (without_ef number) (selected_on channels.old channel)) }
{
    if let Some(selection) = channels.selected(channel) {
        channels.set(channel, without_ef(number, selection));
    }
}

/// Takes this EF off each channel whose current EF it is, with the record pointer.
pub fn leave(channels: &mut Channels, number: u8)
    ensures { channels.new ≡ all_without_ef number channels.old }
{
    channels.are_four();
    leave_on(channels, 0, number);
    leave_on(channels, 1, number);
    leave_on(channels, 2, number);
    leave_on(channels, 3, number);
}

/// What is selected once a file was made: a DF as the current one, an EF as that of its DF.
#[tactic(auto, unfolding(file_model::specs::Selections::selection_of, file_model::specs::Files::descriptor_in))]
pub fn selection_of(number: u8, df: u8, file: &NewFile) -> Selection
    ensures { (place : ℕ) → result ≡ selection_of (descriptor_in (file_made number df place file.now)) }
{
    match *file {
        NewFile::Df { id: _ } => Selection {
            df: number,
            ef: None,
            pointer: None,
        },
        NewFile::Ef { .. } => Selection {
            df,
            ef: Some(number),
            pointer: None,
        },
    }
}
