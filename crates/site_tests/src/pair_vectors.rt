//! A worked row, and worked commands: what the definitions give for them.

ghost use Rattle.std.specs.Prelude.{◌≡◌, ◌∷◌, [], Some, None, Ok, Err, codes, slice_set};
ghost use Rattle.pair_table.specs.declared.command.Change.TheVariants.{Added, Ended as EndedSession, Started};
ghost use Rattle.pair_table.specs.declared.command.Choice.TheVariants.{All, One};
ghost use Rattle.pair_table.specs.declared.command.Command.TheVariants.{AddPair, DelPair, End, Query, Start, Suspend};
ghost use Rattle.pair_table.specs.declared.command.Refusal.TheVariants.{AlreadyPaired, ControlBroken, Ended, NoPrimary, NoSecondary, NoSession, NotPaired, OtherSecondary, SecondaryInUse, SessionExists, TooSmall};
ghost use Rattle.pair_table.specs.declared.level.Level.TheVariants.{Volume};
ghost use Rattle.pair_table.specs.declared.row.PairState.TheVariants.{Pending, Duplex, Suspended};
ghost use Rattle.pair_table.specs.declared.row.SuspendCause.TheVariants.{Command as ByCommand, Control as ByControl, Device, Group as ByGroup};
ghost use Rattle.pair_table.specs.Commands.{answer, rows_after};
ghost use Rattle.pair_table.specs.Rows.{narrow_row_at, narrow_spelling, row_spelling, row_at};
ghost use Rattle.site_tests.specs.PairVectors.{abc, before_start, ended_table, first_row, first_bytes, grouped_row, narrow_bytes, started_with, worked_names};

/// The row's spelling.
pub fn spelled_row()
    ensures { row_spelling (first_row Duplex) ≡ first_bytes }
{}

/// The row's bytes, and some with one other byte.
pub fn read_rows()
    ensures whole { row_at first_bytes ≡ Some (first_row Duplex) }
    ensures pending { row_at (slice_set first_bytes 22 0) ≡ Some (first_row Pending) }
    ensures cause_alone { row_at (slice_set first_bytes 23 2) ≡ None }
    ensures time_alone { row_at (slice_set first_bytes 31 1) ≡ None }
    ensures suspended { row_at (slice_set (slice_set first_bytes 22 3) 23 2) ≡ Some (first_row (Suspended Device (record { 0 = 0 }))) }
    ensures by_group { row_at (slice_set (slice_set first_bytes 22 3) 23 5) ≡ Some (first_row (Suspended ByGroup (record { 0 = 0 }))) }
    ensures no_cause { row_at (slice_set first_bytes 22 3) ≡ None }
    ensures grouped { row_at (slice_set first_bytes 32 68) ≡ Some (grouped_row Duplex (codes "D")) }
    ensures no_group { row_at (slice_set first_bytes 33 68) ≡ None }
{}

/// The row's bytes in version 1, and some with one other byte.
pub fn read_narrow_rows()
    ensures spelled { narrow_spelling (first_row Duplex) ≡ narrow_bytes }
    ensures whole { narrow_row_at narrow_bytes ≡ Some (first_row Duplex) }
    ensures pending { narrow_row_at (slice_set narrow_bytes 20 0) ≡ Some (first_row Pending) }
    ensures suspended { narrow_row_at (slice_set (slice_set narrow_bytes 20 3) 21 4) ≡ Some (first_row (Suspended ByControl (record { 0 = 0 }))) }
    ensures by_group { narrow_row_at (slice_set (slice_set narrow_bytes 20 3) 21 5) ≡ None }
    ensures many { narrow_row_at (slice_set (slice_set narrow_bytes 18 255) 19 240) ≡ Some (record (first_row Duplex) { cylinders = 65520 }) }
    ensures too_many { narrow_row_at (slice_set (slice_set narrow_bytes 18 255) 19 241) ≡ None }
    ensures wide { narrow_row_at first_bytes ≡ None }
{}

/// The refusals of commands, in the order in which they are met.
pub fn refusals()
    ensures before { answer worked_names before_start abc (AddPair (codes "PRIM01") (codes "SEC001") None) ≡ Err NoSession }
    ensures start { answer worked_names before_start abc (Start Volume) ≡ Ok Started }
    ensures again { answer worked_names (started_with []) abc (Start Volume) ≡ Err SessionExists }
    ensures no_primary { answer worked_names (started_with []) abc (AddPair (codes "NOPRIM") (codes "SEC001") None) ≡ Err NoPrimary }
    ensures no_secondary { answer worked_names (started_with []) abc (AddPair (codes "PRIM01") (codes "NOSEC") None) ≡ Err NoSecondary }
    ensures added { answer worked_names (started_with []) abc (AddPair (codes "PRIM01") (codes "SEC001") None) ≡ Ok (Added 0) }
    ensures in_use { answer worked_names (started_with (first_row Duplex ∷ [])) abc (AddPair (codes "PRIM02") (codes "SEC001") None) ≡ Err SecondaryInUse }
    ensures paired { answer worked_names (started_with (first_row Duplex ∷ [])) abc (AddPair (codes "PRIM01") (codes "SEC001") None) ≡ Err AlreadyPaired }
    ensures small { answer worked_names (started_with (first_row Duplex ∷ [])) abc (AddPair (codes "PRIM02") (codes "SEC002") None) ≡ Err (TooSmall 30) }
    ensures other { answer worked_names (started_with (first_row Duplex ∷ [])) abc (AddPair (codes "PRIM01") (codes "SEC002") None) ≡ Err OtherSecondary }
    ensures not_paired { answer worked_names (started_with (first_row Duplex ∷ [])) abc (Suspend (One (codes "PRIM02") (codes "SEC002"))) ≡ Err NotPaired }
    ensures name { answer worked_names (started_with []) (codes "XYZ") Query ≡ Err NoSession }
    ensures end { answer worked_names (started_with []) abc End ≡ Ok EndedSession }
    ensures after_end { answer worked_names ended_table abc Query ≡ Err Ended }
    ensures broken { answer (record worked_names { broken = 0 ∷ [] }) (started_with []) abc (AddPair (codes "PRIM01") (codes "NOSEC") None) ≡ Err (ControlBroken 0) }
{}

/// What accepted commands do to the rows.
pub fn effects()
    ensures added { rows_after worked_names 0x60 (AddPair (codes "PRIM01") (codes "SEC001") None) [] ≡ first_row Pending ∷ [] }
    ensures suspended { rows_after worked_names 0x60 (Suspend All) (first_row Duplex ∷ []) ≡ first_row (Suspended ByCommand (record { 0 = 0x60 })) ∷ [] }
    ensures stays { rows_after worked_names 0x70 (Suspend All) (first_row (Suspended ByCommand (record { 0 = 0x60 })) ∷ []) ≡ first_row (Suspended ByCommand (record { 0 = 0x60 })) ∷ [] }
    ensures resumed { rows_after worked_names 0x70 (AddPair (codes "PRIM01") (codes "SEC001") None) (first_row (Suspended ByCommand (record { 0 = 0x60 })) ∷ []) ≡ first_row Pending ∷ [] }
    ensures in_group { rows_after worked_names 0x60 (AddPair (codes "PRIM01") (codes "SEC001") (Some (codes "DB1"))) [] ≡ grouped_row Pending (codes "DB1") ∷ [] }
    ensures other_group { rows_after worked_names 0x70 (AddPair (codes "PRIM01") (codes "SEC001") (Some (codes "DB2"))) (grouped_row (Suspended ByCommand (record { 0 = 0x60 })) (codes "DB1") ∷ []) ≡ grouped_row Pending (codes "DB2") ∷ [] }
    ensures no_group { rows_after worked_names 0x70 (AddPair (codes "PRIM01") (codes "SEC001") None) (grouped_row (Suspended ByCommand (record { 0 = 0x60 })) (codes "DB1") ∷ []) ≡ first_row Pending ∷ [] }
    ensures gone { rows_after worked_names 0x70 (DelPair (One (codes "PRIM01") (codes "SEC001"))) (first_row Duplex ∷ []) ≡ [] }
{}
