//! What holds of commands that make, delete and resize files. The functions do nothing: each one's contract is the law.
ghost use Rattle.file_model.specs.Changing.{TreesPassChanges};
ghost use Rattle.file_model.specs.RoomLaws.{RoomsAreSmallest, RoomsAreOne, ReadsTemplatesAlone, ReadsAllTemplates};
ghost use Rattle.file_model.specs.OneFile.{CreatesOneFile, DeletesOneFile, ResizesOneFile};
ghost use Rattle.file_model.specs.declared.tree_commands.TreeCommand.{TreeCommand};
ghost use Rattle.file_model.specs.TreeCommands.{tree_outcome};
ghost use Rattle.file_model.specs.Creating.{created};
ghost use Rattle.file_model.specs.Deleting.{deleted};
ghost use Rattle.file_model.specs.Resizing.{resized};
ghost use Rattle.file_model.specs.LawfulTrees.{IsLawfulTreeCommand, KeepsSelected};

use card_state::states_stay_sound;

/// The place at which a card has room for so many bytes is the smallest one of all at which they may stand, and there is no
/// other answer.
pub fn rooms_are_smallest()
    ensures smallest { RoomsAreSmallest }
    ensures one { RoomsAreOne }
{}

/// Exactly the templates of files that may be made are read, and each as the file that it was written for.
pub fn templates_are_read()
    ensures alone { ReadsTemplatesAlone }
    ensures all { ReadsAllTemplates }
{}

/// Each command keeps the card sound and every selection lawful, on all channels, commits at most once, and is refused in known
/// ways alone, in which it changes nothing.
pub fn commands_on_trees_are_lawful()
    ensures lawful { (command : TreeCommand) → IsLawfulTreeCommand (tree_outcome command) }
    // The states that it passes are those after its changes.
    ensures passes { TreesPassChanges }
{
    states_stay_sound();
}

/// What is selected on each channel is there after each command, in any sound state.
pub fn selections_stay()
    ensures create { KeepsSelected created }
    ensures delete { KeepsSelected deleted }
    ensures resize { KeepsSelected resized }
{}

/// After a CREATE FILE that is carried out the card has one file more: under the smallest number above that of the current DF that
/// no file had, in that DF, as the template of the command says, with FF in each of its bytes. Each other file is as it was.
pub fn one_file_comes()
    ensures { CreatesOneFile }
{}

/// After a DELETE FILE that is carried out the file of the current DF with the identifier that the command names is gone, and each
/// other file is as it was.
pub fn one_file_goes()
    ensures { DeletesOneFile }
{}

/// After a RESIZE FILE that is carried out the file of the current DF with the identifier that the command names has the size that
/// is asked for: the first of the bytes that it held, and FF after them. Each other file is as it was.
pub fn one_file_is_resized()
    ensures { ResizesOneFile }
{}
