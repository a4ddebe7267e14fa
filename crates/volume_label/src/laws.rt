//! The laws of labels. Each is the contract of a public function without parameters.

ghost use Rattle.volume_label.specs.Laws.{LabelsAreSpelled, LabelsReadBack};

/// What a valid label spells is read again, and what is read as a label is valid and was spelled so.
pub fn labels_read_back()
    ensures back { LabelsReadBack }
    ensures spelled { LabelsAreSpelled }
{}
