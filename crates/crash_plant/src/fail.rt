use crate::Device;
use xrc_edge::List;

/// A call that fails in a `MemoryPlant`. One at a device that isn't there is never met.
#[derive(Clone, Copy, Debug, PartialEq, Eq)]
pub struct Fail {
    /// The device; None stands for the console.
    pub at: Option<Device>,
    /// From so many bytes said on, the calls of `read`, `write`, `sync`, `hear` and `say` on it are counted. A volume that is
    /// lent goes by what was said when it was lent.
    pub said: u64,
    /// The number of the call that fails, counted from 0.
    pub call: u64,
    /// Every later call on that device fails too, and every later call on the plant and on each volume that is lent later.
    /// Where the device is a lent volume, the others' failing begins when it is given back.
    pub stop: bool,
}

impl Fail {
    ghost use Rattle.std.specs.Prelude.{◌≡◌, ◌↔◌, IsTrue};

    /// Whether it is planned for this device, or for the console.
    pub(crate) fn is_at(&self, at: Option<Device>) -> bool
        ensures { IsTrue result ↔ (self.now.at ≡ at) }
    {
        self.at == at
    }
}

/// Failures, in any order.
pub type FailList = List<Fail>;
