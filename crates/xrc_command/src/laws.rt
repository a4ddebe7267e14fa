ghost use Rattle.xrc_command.specs.Lines.{LinesAreToldApart};
ghost use Rattle.xrc_command.specs.Reading.{LinesAreRead};

/// A text spells one line at most.
pub fn lines_are_told_apart()
    ensures { LinesAreToldApart }
{}

/// What is read of a text from its front is the line that it spells.
pub fn lines_are_read()
    ensures { LinesAreRead }
{}
