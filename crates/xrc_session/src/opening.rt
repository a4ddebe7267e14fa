//! The headers of the traces.

ghost use Rattle.std.specs.Prelude.{◌≡◌, ◌⊎◌, ◌<◌, ◌≤◌, ◌+◌, ◌*◌, ◌++◌, ◌∷◌, [], ℕ, length, None, Some, Ok, Err, IfErr, IsErrOf, OnOk, IsTrue, slice_index_or};
ghost use Rattle.xrc_edge.specs.declared.limits.TheConstants.{MOST_CONTROLS, MOST_CONTROL_VOLUMES};
ghost use Rattle.xrc_edge.specs.Causes.{Rose};
ghost use Rattle.write_trace.specs.Headers.{are_volumes, serial_place};
ghost use Rattle.consistency.specs.Stages.{volumes_named};
ghost use Rattle.pair_table.specs.Naming.{none_alike};
ghost use Rattle.xrc_status.specs.declared.stop.Stop.TheVariants.{HeaderFault, NoMemory};
ghost use Rattle.mover.specs.Lanes.{reader_in};
ghost use Rattle.xrc_session.specs.Lanes.{HaveNoReader, HaveVolumes, TurnOutFrom, primaries_in};
ghost use Rattle.xrc_session.specs.Openings.{AreLanesOpened, AreSerialsNamed, IsOfControlHeader, IsOfHeaders, NamesApart, OpensLane, StayGood, StopsByHeaders, first_named_again, serials_in_header, stop_of_header};

use mover::Lane;
use pair_table::Names;
use primary_ctl::Primary;
use sidefile::Sidefile;
use std::alloc::Global;
use tod_stamp::Serial;
use write_trace::{HeaderError, VolumeHead, serial_place, start};
use xrc_edge::Source;
use xrc_status::Stop;

/// The stop of a trace's header that can't be read.
fn stop_of_header(control: u16, error: HeaderError) -> Stop
    ensures { result ≡ stop_of_header control error }
{
    match error {
        HeaderError::BadHeader(place) => Stop::BadHeader(control, place),
        HeaderError::HeaderFault => Stop::HeaderFault(control),
        HeaderError::NoMemory => Stop::NoMemory,
    }
}

/// That no volume of a controller, in a header of a version, has a serial that an earlier trace names.
fn check_serials(
    control: u16,
    version: u8,
    named: &[Serial],
    volumes: &[VolumeHead],
) -> Result<(), Stop>
    requires { length volumes.now ≤ MOST_CONTROL_VOLUMES }
    ensures ok { OnOk result (first_named_again named.now 0 volumes.now ≡ None) }
    ensures again { IfErr result (λ stop. (v : ℕ) × (first_named_again named.now 0 volumes.now ≡ Some v) × (stop ≡ Stop.BadHeader control (serial_place version v))) }
{
    for (volume, head) in volumes.iter().enumerate() {
        if named.contains(&head.serial) {
            return Err(Stop::BadHeader(control, serial_place(version, volume)));
        }
    }
    Ok(())
}

/// Names the volumes of a controller. Those of either version keep version 2's rules.
fn name_volumes(
    alloc: Global,
    names: &mut Names,
    named: &mut Vec<Serial>,
    control: u16,
    volumes: &[VolumeHead],
) -> Result<(), Stop>
    requires control { control < MOST_CONTROLS }
    requires heads { IsTrue (are_volumes 2 [] volumes.now) }
    requires few { length volumes.now ≤ MOST_CONTROL_VOLUMES }
    requires apart { NamesApart control volumes.now named.old.items names.old }
    ensures ok { OnOk result ((names.new ≡ record names.old { primaries = names.old.primaries ++ volumes_named control 0 volumes.now }) × (named.new.items ≡ named.old.items ++ serials_in_header volumes.now)) }
    ensures stops { IfErr result (λ stop. stop ≡ NoMemory) }
{
    for (volume, head) in volumes.iter().enumerate() {
        names.primary(alloc, head.serial, control, volume as u16, head.cylinders)?;
        named.push(head.serial)?;
    }
    Ok(())
}

/// Reads the header of a controller's trace, names its volumes, and gives the lane its reader.
fn open_lane<S: Source>(
    alloc: Global,
    names: &mut Names,
    named: &mut Vec<Serial>,
    control: u16,
    lane: &mut Lane<S>,
) -> Result<(), Stop>
    requires control { control < MOST_CONTROLS }
    requires unread { reader_in lane.old ≡ None }
    requires named { AreSerialsNamed control named.old.items names.old }
    ensures named { OnOk result (AreSerialsNamed (control + 1) named.new.items names.new) }
    ensures ok { OnOk result (OpensLane S.left S.faults control named.old.items names.old lane.old lane.new named.new.items names.new) }
    ensures stops { StopsByHeaders S.left S.faults control named.old.items (lane.old ∷ []) (lane.new ∷ []) result }
    ensures fault { IsErrOf result (HeaderFault control) → Rose (S.faults lane.old.source) (S.faults lane.new.source) }
    ensures only { IfErr result (λ stop. IsOfControlHeader control stop ⊎ (stop ≡ NoMemory)) }
{
    let (header, reader) = match start(alloc, &mut lane.source) {
        Ok(started) => started,
        Err(error) => return Err(stop_of_header(control, error)),
    };
    check_serials(
        control,
        header.version,
        named.as_slice(),
        header.volumes.as_slice(),
    )?;
    name_volumes(alloc, names, named, control, header.volumes.as_slice())?;
    let side = Sidefile::make(alloc, control, reader)?;
    let primary = Primary::make(alloc, header)?;
    Ok(lane.open(alloc, side, primary)?)
}

/// Reads the headers of the traces in order. The first header that leaves its form, or names a serial that an earlier one names, is
/// refused.
pub(crate) fn open_lanes<S: Source>(
    alloc: Global,
    names: &mut Names,
    traces: &mut [Lane<S>],
) -> Result<(), Stop>
    requires few { length traces.old ≤ MOST_CONTROLS }
    requires unread { HaveNoReader traces.old }
    requires none { names.old.primaries ≡ [] }
    ensures named { OnOk result ((names.new.primaries ≡ primaries_in 0 traces.new) × IsTrue (none_alike names.new.primaries) × (names.new.labels ≡ names.old.labels) × (names.new.broken ≡ names.old.broken)) }
    ensures opened { OnOk result (AreLanesOpened S.left S.faults traces.old traces.new) }
    ensures headed { OnOk result (HaveVolumes traces.new) }
    ensures turn_out { OnOk result (TurnOutFrom S.left S.faults traces.old traces.new) }
    ensures good { OnOk result (StayGood S.left S.faults traces.old traces.new) }
    ensures stops { StopsByHeaders S.left S.faults 0 [] traces.old traces.new result }
    ensures fault { (k : ℕ) (d : _) → IsErrOf result (HeaderFault k) → Rose (S.faults (slice_index_or traces.old k d).source) (S.faults (slice_index_or traces.new k d).source) }
    ensures only { IfErr result (λ stop. IsOfHeaders stop ⊎ (stop ≡ NoMemory)) }
{
    let mut named = Vec::new(alloc);
    for control in 0..traces.len() {
        open_lane(
            alloc,
            names,
            &mut named,
            control as u16,
            &mut traces[control],
        )?;
    }
    Ok(())
}
