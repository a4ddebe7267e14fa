//! A worked run: that it is one, and which history it is.

ghost use Rattle.std.specs.Prelude.{◌≡◌, ◌∷◌, [], false};
ghost use Rattle.cut_core.specs.Events.Event.{Join, Copied, Break, Raise, Form, Drop, Carry, Resume};
ghost use Rattle.group_tests.specs.CutVectors.{whole_on};
ghost use Rattle.group_tests.specs.StateVectors.{after_all, batch};
ghost use Rattle.group_state.specs.Runs.{Runs, history};
ghost use Rattle.group_tests.specs.HistoryVectors.{answers_to, first_state, worked_calls};

/// A stale track and a question for a wanted one are no events; all else is.
pub fn worked_run()
    ensures runs { Runs first_state (answers_to first_state worked_calls) (after_all first_state worked_calls) }
    ensures history { history (answers_to first_state worked_calls) ≡
        Carry 0 0 [] ∷ Join (batch 0 (whole_on 0 0x10 ∷ []) 0x1F) ∷ Raise 1 0x15 ∷ Form 0x15 ∷ Drop 0 0 false
        ∷ Join (batch 0 (whole_on 1 0x20 ∷ []) 0x20) ∷ Resume 0 0 ∷ Copied 0 0 1 0x20 ∷ Break 1 0x30 ∷ [] }
{}
