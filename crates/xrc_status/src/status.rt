ghost use Rattle.std.specs.Prelude.{◌≡◌, ◌≤◌, ◌+◌, ◌++◌, ◌∷◌, length, decimal};
ghost use Rattle.xrc_status.specs.Saying.{SaysLast};
ghost use Rattle.xrc_status.specs.Stops.{details, device_text, last_line, status_line, status_of};
ghost use Rattle.xrc_status.specs.declared.stop.Stop.TheVariants.{ConsoleFault};

use crate::line::TextLine;
use crate::say::say_text;
use crate::stop::Stop;
use crash_plant::{Device, Plant};
use tod_stamp::Session;

impl Stop {
    /// The status that the program ends with.
    pub fn status(self) -> u8
        ensures { result ≡ status_of self }
    {
        status_of(&self)
    }
}

fn status_of(stop: &Stop) -> u8
    ensures { result ≡ status_of stop.now }
{
    match stop {
        Stop::NoMemory => 1,
        Stop::BadWords => 2,
        Stop::ConsoleFault => 3,
        Stop::BadLine(_) => 4,
        Stop::JournalFault(_) => 5,
        Stop::ControlFault => 6,
        Stop::StateFault => 7,
        Stop::BadHeader(_, _) => 8,
        Stop::HeaderFault(_) => 9,
        Stop::NoSession => 10,
        Stop::OtherSession(_) => 11,
        Stop::Damaged(_, _) => 12,
        Stop::VolumeFault => 13,
        Stop::TooSmall(_, _) => 14,
        Stop::BadSite => 16,
        Stop::Spent => 24,
    }
}

/// Puts a space and a device's name.
fn add_device(line: &mut TextLine, device: Device)
    requires { length line.old ≤ 70 }
    ensures text { line.new ≡ line.old ++ device_text device }
    ensures short { length line.new ≤ length line.old + 49 }
{
    match device {
        Device::Control => line.add(b" CONTROL"),
        Device::State => line.add(b" STATE"),
        Device::Journal(number) => {
            line.add(b" JOURNAL");
            line.add_number(u64::from(number));
        }
        Device::Volume(number) => {
            line.add(b" VOLUME");
            line.add_number(u64::from(number));
        }
    }
}

/// Puts a space and a session's name.
fn add_session(line: &mut TextLine, session: &Session)
    requires { length line.old ≤ 70 }
    ensures text { line.new ≡ line.old ++ 32 ∷ session.now }
    ensures short { length line.new ≤ length line.old + 9 }
{
    line.add(b" ");
    line.add(session.as_bytes());
}

/// Puts a device's name and a number.
fn add_place(line: &mut TextLine, device: Device, place: u64)
    requires { length line.old ≤ 47 }
    ensures text { line.new ≡ line.old ++ device_text device ++ 32 ∷ decimal place }
    ensures short { length line.new ≤ length line.old + 90 }
{
    add_device(line, device);
    line.add_number(place);
}

/// Puts what a stop's line says after its status.
fn add_details(line: &mut TextLine, stop: &Stop)
    requires { length line.old ≤ 47 }
    ensures text { line.new ≡ line.old ++ details stop.now }
    ensures short { length line.new ≤ length line.old + 90 }
{
    match stop {
        Stop::BadLine(number) => line.add_number(u64::from(*number)),
        Stop::JournalFault(number) => line.add_number(u64::from(*number)),
        Stop::HeaderFault(trace) => line.add_number(u64::from(*trace)),
        Stop::BadHeader(trace, place) => {
            line.add_number(u64::from(*trace));
            line.add_number(*place);
        }
        Stop::OtherSession(session) => add_session(line, session),
        Stop::Damaged(device, place) => add_place(line, *device, *place),
        Stop::TooSmall(device, needed) => add_place(line, *device, *needed),
        _ => {}
    }
}

/// The line of a stop's status.
fn line_of(stop: &Stop) -> TextLine
    ensures { result ≡ status_line (status_of stop.now) (details stop.now) }
{
    let mut line = TextLine::make();
    line.add(b"STATUS");
    line.add_number(u64::from(status_of(stop)));
    add_details(&mut line, stop);
    line.add(b"\n");
    line
}

/// Says the last line of a command that was not done, and gives the status that the program ends with. That the console failed
/// says no line; and where this call fails the status stands.
pub fn say_stop<P: Plant>(plant: &mut P, stop: Stop) -> u8
    ensures status { result ≡ status_of stop }
    ensures said { SaysLast P.tells (last_line stop) (P.state plant.old) (P.state plant.new) }
    ensures silent { stop ≡ ConsoleFault → plant.new ≡ plant.old }
{
    if let Stop::ConsoleFault = &stop {
        return status_of(&stop);
    }
    let line = line_of(&stop);
    let _ = say_text(plant, line.as_bytes());
    status_of(&stop)
}
