//! The script of a generated input.

ghost use Rattle.std.specs.Prelude.{◌≡◌, IfOk};
ghost use Rattle.workload.specs.Scripts.{generated_script};

use std::alloc::Global;
use xrc_edge::{Bytes, NoMemory};

/// A session GEN that adds each pair before the first write, suspends the first pair among the writes, adds it again, and ends
/// after the last write.
const SCRIPT: [u8; 514] = *b"\
00000000000001F4 XSTART GEN
0000000000000258 XADDPAIR GEN VOLUME(GP0,GS0)
0000000000000258 XADDPAIR GEN VOLUME(GP1,GS1)
0000000000000258 XADDPAIR GEN VOLUME(GP2,GS2)
0000000000000258 XADDPAIR GEN VOLUME(GP3,GS3)
0000000000000258 XADDPAIR GEN VOLUME(GP4,GS4)
0000000000000258 XADDPAIR GEN VOLUME(GP5,GS5)
0000000000000258 XADDPAIR GEN VOLUME(GP6,GS6)
0000000000000258 XADDPAIR GEN VOLUME(GP7,GS7)
00000000000005DC XSUSPEND GEN VOLUME(GP0,GS0)
00000000000009C4 XADDPAIR GEN VOLUME(GP0,GS0)
0000000000000DAC XEND GEN
";

/// How many lines it has.
pub(crate) const LINES: u64 = 12;

pub(crate) fn script(alloc: Global) -> Result<Bytes, NoMemory>
    ensures { IfOk result (λ script. script ≡ generated_script) }
{
    let mut script = Bytes::make(alloc);
    script.extend_from_slice(alloc, &SCRIPT)?;
    Ok(script)
}
