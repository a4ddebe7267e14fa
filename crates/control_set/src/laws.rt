ghost use Rattle.control_set.specs.Laws.{MarksAreSpelled, MarksReadBack};

/// What a mark that keeps the table spells is read again, and what is read as a mark keeps the table and was spelled so.
pub fn marks_read_back()
    ensures back { MarksReadBack }
    ensures spelled { MarksAreSpelled }
{}
