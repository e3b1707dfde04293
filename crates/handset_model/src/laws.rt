//! What holds of the definitions themselves.
ghost use Rattle.std.specs.Prelude.{◌≡◌, ◌<◌, ◌∷◌, List, Option, Some, None};
ghost use Rattle.script_form.specs.declared.handset.HandsetLine.{HandsetLine as ALine};
ghost use Rattle.handset_model.specs.History.{Happened};
ghost use Rattle.handset_model.specs.Legal.{TraceEntry, IsOf, IsOrderly};
ghost use Rattle.handset_model.specs.Timers.{soonest, IsSoonest, DueNever};
ghost use Rattle.handset_model.specs.declared.known.Due.{Due as ADue};
ghost use Rattle.handset_model.specs.declared.known.Running.{Running as ATimer};
ghost use Rattle.handset_model.specs.Ending.{IsOfLine, work_left};

/// Lines and a trace have one history at most: so they determine what the handset knows, and what it does next.
pub fn one_history()
    ensures { (lines : List ALine) (trace : List TraceEntry) (one other : List Happened)
        → IsOf lines trace one → IsOf lines trace other → one ≡ other }
{}

/// The handset comes to an end with each line: whatever the card answers, what is left to do falls with each command, answer,
/// note and reset.
pub fn lines_end()
    ensures { (h : List Happened) (event : Happened) → IsOrderly (event ∷ h) → IsOfLine event
        → work_left (event ∷ h) < work_left h }
{}

/// Of the timers that run the one that is due first comes first, and of several at one moment the lowest.
pub fn soonest_first()
    ensures first { (timers : List (Option ATimer)) (due : ADue) → soonest 1 timers ≡ Some due → IsSoonest timers due }
    ensures none { (timers : List (Option ATimer)) → soonest 1 timers ≡ None → DueNever timers }
{}
