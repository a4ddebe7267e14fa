//! Whether volumes hold what the rules say.

use crate::recovered::Recovered;
use crate::site::Rest;
use crate::spelling::serial_bytes;
use crate::table::State;
use crate::track::put_image;
use crate::world::World;
use crash_plant::Device;
use std::alloc::Global;
use xrc_edge::NoMemory;

/// What stands in front of a volume's slots.
const LABEL: usize = 14;

/// Whether each duplex pair's volume has its primary's tracks at the time, and nothing of a later or an earlier one.
pub fn have_tracks(
    alloc: Global,
    world: &World,
    recovered: &Recovered,
    site: &mut Rest,
) -> Result<bool, NoMemory> {
    for named in recovered.pairs.iter() {
        if named.state != State::Duplex {
            continue;
        }
        let Some((device, _)) = world.input.device(named.pair.secondary) else {
            return Ok(false);
        };
        let primary = named.pair.primary;
        if !has_tracks(alloc, world, primary, recovered.time, device, site)? {
            return Ok(false);
        }
    }
    Ok(true)
}

fn has_tracks(
    alloc: Global,
    world: &World,
    primary: u16,
    time: u64,
    device: u16,
    site: &mut Rest,
) -> Result<bool, NoMemory> {
    let tracks = world.tracks_at(alloc, primary, time)?;
    for (number, track) in tracks.iter().enumerate() {
        let mut image = Vec::new(alloc);
        put_image(track.as_slice(), &mut image)?;
        if !site.has_slot(alloc, device, number, image.as_slice())? {
            return Ok(false);
        }
    }
    Ok(true)
}

/// What a command does to labels.
#[derive(Clone, Copy, PartialEq, Eq)]
pub enum Labels {
    /// A duplex pair's volume gets its primary's.
    Primary,
    Kept,
}

/// The bytes where the labels of the volumes stand.
pub fn labels_of(alloc: Global, world: &World, site: &mut Rest) -> Result<Vec<Vec<u8>>, NoMemory> {
    let mut labels = Vec::new(alloc);
    for number in 0..world.input.volumes.len() {
        let device = Device::Volume(u16::try_from(number).unwrap_or(0));
        labels.push(site.read(alloc, device, 0, LABEL)?)?;
    }
    Ok(labels)
}

/// Whether each volume has the label that it should have: the one before, or its primary's.
pub fn have_labels(
    alloc: Global,
    world: &World,
    recovered: &Recovered,
    labels: Labels,
    before: &[Vec<u8>],
    site: &mut Rest,
) -> Result<bool, NoMemory> {
    for (number, label) in before.iter().enumerate() {
        let device = u16::try_from(number).unwrap_or(0);
        let duplex = duplex_primary(world, recovered, device);
        let primary = duplex.filter(|_| labels == Labels::Primary);
        let is_held = match primary {
            Some(primary) => {
                let label = primary_label(alloc, world, primary)?;
                site.holds(alloc, Device::Volume(device), 0, label.as_slice())?
            }
            None => site.holds(alloc, Device::Volume(device), 0, label.as_slice())?,
        };
        if !is_held {
            return Ok(false);
        }
    }
    Ok(true)
}

/// The primary of the duplex pair of a device.
fn duplex_primary(world: &World, recovered: &Recovered, device: u16) -> Option<u16> {
    let mut duplex = recovered.pairs.iter().filter(|named| {
        let of = world.input.device(named.pair.secondary);
        named.state == State::Duplex && of.is_some_and(|(number, _)| number == device)
    });
    duplex.next().map(|named| named.pair.primary)
}

fn primary_label(alloc: Global, world: &World, primary: u16) -> Result<Vec<u8>, NoMemory> {
    let cylinders = world.input.primary(primary).map_or(0, |it| it.cylinders);
    let mut label = Vec::new(alloc);
    label.extend_from_slice(b"XVOL")?;
    label.extend_from_slice(&serial_bytes(b'P', primary))?;
    label.extend_from_slice(&u32::from(cylinders).to_be_bytes())?;
    Ok(label)
}
