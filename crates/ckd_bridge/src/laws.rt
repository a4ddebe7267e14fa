//! The laws of the bridge. Each is the contract of a public function without parameters.

ghost use Rattle.ckd_bridge.specs.Laws.{ExportsReadBack, ImportsAreTraces};

/// What an import writes is the header of a trace.
pub fn imports_are_traces()
    ensures { ImportsAreTraces }
{}

/// What an export writes holds on each track what the volume held.
pub fn exports_read_back()
    ensures { ExportsReadBack }
{}
