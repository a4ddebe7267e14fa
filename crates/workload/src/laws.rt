//! The laws of generated inputs.

ghost use Rattle.workload.specs.Laws.{IsInputFixed, ScriptsAreRead, TracesAreGood};

/// Each number of a generated input is what its name stands for.
pub fn input_is_fixed()
    ensures { IsInputFixed }
{}

/// Each trace is read whole: its header and all its writes, and it ends cleanly after them.
pub fn traces_are_good()
    ensures { TracesAreGood }
{}

/// Each line of the script spells its command, and no time falls.
pub fn scripts_are_read()
    ensures { ScriptsAreRead }
{}
