//! What holds of files and PINs, whatever a command is given. The functions do nothing: each one's contract is the law.
ghost use Rattle.file_model.specs.declared.commands.FileCommand.{FileCommand};
ghost use Rattle.file_model.specs.declared.commands.PinCommand.{PinCommand};
ghost use Rattle.file_model.specs.Changing.{FilesPassChanges, PinsPassChanges};
ghost use Rattle.file_model.specs.Commands.{file_outcome, pin_outcome};
ghost use Rattle.file_model.specs.Guards.{GuardsPins, guard_of};
ghost use Rattle.file_model.specs.Laws.{TablesTellFiles, FindsAmongEntries, NumbersAreEntries, ParentsComeFirst, FindsInFiveSearches, FindsNearest, FindsWholeParts, SpellsNumbers, IsLawfulCommand, IsLawfulPinCommand};

/// What is known of files: in a table as in the state that it is of, and how they are found.
pub fn files_are_found()
    ensures told { TablesTellFiles }
    ensures entries { FindsAmongEntries }
    ensures number { NumbersAreEntries }
    ensures parents { ParentsComeFirst }
    ensures identifier { FindsInFiveSearches }
    ensures nearest { FindsNearest }
{}

/// What is found in a record, and how a sum is spelled in one.
pub fn records_are_read()
    ensures parts { FindsWholeParts }
    ensures numbers { SpellsNumbers }
{}

/// Each command on files keeps the card sound and the selection lawful, changes one file at most, and is refused in known
/// ways alone, in which it changes nothing.
pub fn commands_on_files_are_lawful()
    ensures lawful { (command : FileCommand) → IsLawfulCommand (file_outcome command) }
    // The states that it passes are those after its changes.
    ensures passes { FilesPassChanges }
{}

/// Each PIN command keeps the card sound and changes one PIN at most. Refused, it changes nothing, or, where a wrong value
/// was presented, tries and the mark of the key alone.
pub fn pin_commands_are_lawful()
    ensures lawful { (command : PinCommand) → IsLawfulPinCommand (pin_outcome command) }
    // The states with the PINs that it passes are those after its changes.
    ensures passes { PinsPassChanges }
{}

/// Each value that is presented takes a try of its own before it is compared. No commit of a PIN command gives tries, but one
/// that gives all of them; and an answer that tells how many are left tells how many the PIN has.
pub fn pins_are_guarded()
    ensures { (command : PinCommand) → GuardsPins (guard_of command) (pin_outcome command) }
{}
