//! The worked progress: what the definitions give for it.

ghost use Rattle.std.specs.Prelude.{◌≡◌, ◌∷◌, replicate, Some, None};
ghost use Rattle.copy_progress.specs.Copies.{done};
ghost use Rattle.copy_progress.specs.Progresses.{progress_spelling};
ghost use Rattle.copy_progress.specs.Slots.{chosen_progress};
ghost use Rattle.copy_progress.specs.Vectors.{target_with, worked_bytes, worked_claim, worked_progress};

/// The worked progress in the first slot: all 15 tracks are done. None are where another number of tracks, another time, or another number
/// of its own stands there, or where its gate is closed.
pub fn worked_progress_is_done()
    ensures spelled { 1 ∷ progress_spelling worked_progress ≡ worked_bytes }
    ensures chosen { chosen_progress (target_with worked_bytes (replicate 43 0)) ≡ Some worked_progress }
    ensures second { chosen_progress (target_with (replicate 43 0) worked_bytes) ≡ Some worked_progress }
    ensures none { chosen_progress (target_with (replicate 43 0) (replicate 43 0)) ≡ None }
    ensures closed { chosen_progress (target_with (0 ∷ progress_spelling worked_progress) (2 ∷ progress_spelling worked_progress)) ≡ None }
    ensures done { done worked_claim (target_with worked_bytes (replicate 43 0)) ≡ 15 }
    ensures time { done (record worked_claim { time = record { 0 = 145 } }) (target_with worked_bytes (replicate 43 0)) ≡ 0 }
    ensures tracks { done (record worked_claim { tracks = 30 }) (target_with worked_bytes (replicate 43 0)) ≡ 0 }
    ensures newer { done worked_claim (target_with worked_bytes (1 ∷ progress_spelling (record worked_progress { number = 2 }))) ≡ 0 }
    ensures equal { done worked_claim (target_with worked_bytes (1 ∷ progress_spelling (record worked_progress { next = 0 }))) ≡ 15 }
{}
