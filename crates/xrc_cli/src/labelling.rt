//! The command that labels a volume.

ghost use Rattle.std.specs.Prelude.{◌≡◌, ◌≤◌, ◌↔◌, IsTrue};
ghost use Rattle.crash_plant.specs.Calls.{NoneLent};
ghost use Rattle.xrc_cli.specs.Labelling.{EndsLabelling, HasVolume, label_line};

use crate::saying::say_done;
use crash_plant::{Device, Plant};
use volume_label::{Label, need, write_label};
use xrc_edge::{Failed, TRACKS_OF_CYLINDER};
use xrc_recovery::is_site;
use xrc_status::{Stop, TextLine, say_stop};

/// Whether the site has a volume of this number.
fn has_volume<P: Plant>(plant: &P, device: u16) -> bool
    ensures { IsTrue result ↔ HasVolume (P.state plant.now) device }
{
    is_site(plant) && device < plant.volumes()
}

/// What is said of a volume that was labelled: its number, its serial and its tracks.
fn label_line(device: u16, label: &Label) -> TextLine
    ensures { result ≡ label_line device label.now }
{
    let mut line = TextLine::make();
    line.add(b"VOLUME");
    line.add_number(u64::from(device));
    line.add(b" ");
    line.add(label.serial.as_bytes());
    line.add(b" TRACKS");
    line.add_number(u64::from(TRACKS_OF_CYLINDER) * u64::from(label.cylinders));
    line.add(b"\n");
    line
}

/// Writes the label of a volume, says what was done, and gives the status that the command ends with. The numbers of journals and
/// volumes come first, and then the length of this volume alone. One that was not done says the line of its status last, but where the
/// console failed; if that fails, the status stands.
pub(crate) fn label_volume<P: Plant>(plant: &mut P, device: u16, label: &Label) -> u8
    requires home { NoneLent (P.state plant.old) }
    requires some { 1 ≤ label.now.cylinders }
    ensures { EndsLabelling P.tells device label.now (P.state plant.old) (P.state plant.new) result }
{
    if !has_volume(plant, device) {
        return say_stop(plant, Stop::BadSite);
    }
    let volume = Device::Volume(device);
    let needed = need(label.cylinders);
    if plant.length(volume) < needed {
        return say_stop(plant, Stop::TooSmall(volume, needed));
    }
    match write_label(plant, device, label) {
        Ok(()) => say_done(plant, label_line(device, label).as_bytes()),
        Err(Failed) => say_stop(plant, Stop::VolumeFault),
    }
}
