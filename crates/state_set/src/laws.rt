ghost use Rattle.state_set.specs.Laws.{StatesReadBack, StatesAreSpelled, VersionsReadBack};

/// What is spelled is read again, in either version, and what is read was spelled so in one of them and keeps the rules.
pub fn states_read_back()
    ensures back { StatesReadBack }
    ensures versions { VersionsReadBack }
    ensures spelled { StatesAreSpelled }
{}
