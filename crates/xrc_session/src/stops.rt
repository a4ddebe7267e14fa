//! Which stop a failed call is.

ghost use Rattle.std.specs.Prelude.{◌≡◌};
ghost use Rattle.site_store.specs.Records.{IsStore};
ghost use Rattle.site_store.specs.declared.store_error.StoreError.TheVariants.{Fault};
ghost use Rattle.crash_plant.specs.declared.device.Device.{Device as AnyDevice};
ghost use Rattle.xrc_session.specs.Stops.{stop_of_device, stop_of_store};

use crash_plant::Device;
use site_store::StoreError;
use xrc_status::Stop;

/// The stop of a control, a state or a journal that failed. A volume that fails stops no session.
fn stop_of_device(device: Device) -> Stop
    requires { IsStore device }
    ensures { result ≡ stop_of_device device }
{
    match device {
        Device::Control => Stop::ControlFault,
        Device::State => Stop::StateFault,
        Device::Journal(number) => Stop::JournalFault(number),
        Device::Volume(_) => unreachable!(),
    }
}

/// The stop of a site that can't go on.
pub(crate) fn stop_of_store(error: StoreError) -> Stop
    requires { (d : AnyDevice) → error ≡ Fault d → IsStore d }
    ensures { result ≡ stop_of_store error }
{
    match error {
        StoreError::Fault(device) => stop_of_device(device),
        StoreError::Spent => Stop::Spent,
        StoreError::NoMemory => Stop::NoMemory,
    }
}
