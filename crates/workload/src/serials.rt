//! The serials of a generated input.

ghost use Rattle.std.specs.Prelude.{◌≡◌, ◌<◌, IsTrue};
ghost use Rattle.tod_stamp.specs.Names.{is_serial};
ghost use Rattle.workload.specs.Traces.{primary_named};
ghost use Rattle.workload.specs.Scripts.{secondary_named};

use tod_stamp::Serial;

fn serial(name: [u8; 3]) -> Serial
    requires { IsTrue (is_serial name) }
    ensures { result ≡ name }
{
    match Serial::read(&name) {
        Ok(serial) => serial,
        Err(_) => unreachable!(),
    }
}

/// The serial of a primary: `GP` and the digit of its number.
pub(crate) fn primary(number: u16) -> Serial
    requires { number < 10 }
    ensures { result ≡ primary_named number }
{
    serial([b'G', b'P', b'0' + number as u8])
}

/// The serial of a secondary: `GS` and the digit of its number.
pub(crate) fn secondary(number: u16) -> Serial
    requires { number < 10 }
    ensures { result ≡ secondary_named number }
{
    serial([b'G', b'S', b'0' + number as u8])
}
