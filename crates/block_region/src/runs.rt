//! Runs of blocks, each of which names the next.

ghost use Rattle.std.specs.Prelude.{◌≡◌, ℕ, ◌+◌, ◌*◌, ◌<◌, ◌≤◌, ◌^◌, ◌++◌, length, map, take, drop, IfOk};
ghost use Rattle.std.specs.List.{range_with_len};
ghost use Rattle.block_region.specs.Blocks.{blocks_of, block_at};
ghost use Rattle.block_region.specs.Runs.{hop, run_bytes, IsRun};

use std::alloc::{AllocError, Global};
use xrc_edge::BLOCK;

/// The blocks that so many bytes take.
pub fn blocks_of(len: u64) -> u32
    requires { blocks_of len < 2 ^ 32 }
    ensures { result ≡ blocks_of len }
{
    len.div_ceil(BLOCK as u64) as u32
}

/// So many blocks, each before the next in number.
pub fn linked(alloc: Global, blocks: u32) -> Result<Vec<u32>, AllocError>
    ensures { IfOk result (λ next. next.items ≡ map (λ block. block + 1) (range_with_len 0 blocks)) }
{
    (0..blocks).map(|block| block + 1).collect(alloc)
}

/// The block that so many steps lead to.
pub fn block_after(next: &[u32], first: u32, steps: u32) -> u32
    requires { (k : ℕ) → k < steps → hop next.now k first < length next.now }
    ensures { result ≡ hop next.now steps first }
{
    let mut block = first;
    for _ in 0..steps {
        block = next[block as usize];
    }
    block
}

/// Puts bytes at the front of a block.
fn put_block(blocks: &mut [u8], block: u32, bytes: &[u8])
    requires short { length bytes.now ≤ BLOCK }
    requires within { BLOCK * block + BLOCK ≤ length blocks.old }
    ensures { blocks.new ≡ take (BLOCK * block) blocks.old ++ bytes.now ++ drop (BLOCK * block + length bytes.now) blocks.old }
{
    let begin = BLOCK * block as usize;
    blocks[begin..begin + bytes.len()].copy_from_slice(bytes);
}

/// Fills the run from a block on with bytes, and tells the block after it.
pub fn fill(blocks: &mut [u8], next: &[u32], first: u32, bytes: &[u8]) -> u32
    requires size { length blocks.old ≡ BLOCK * length next.now }
    requires few { length next.now < 2 ^ 32 }
    requires run { IsRun next.now first (blocks_of (length bytes.now)) }
    ensures len { length blocks.new ≡ length blocks.old }
    ensures filled { run_bytes blocks.new next.now first (length bytes.now) ≡ bytes.now }
    ensures others { (other : ℕ) → ((k : ℕ) → k < blocks_of (length bytes.now) → ¬ (other ≡ hop next.now k first)) → block_at blocks.new other ≡ block_at blocks.old other }
    ensures after { result ≡ hop next.now (blocks_of (length bytes.now)) first }
{
    let mut block = first;
    for place in 0..bytes.len().div_ceil(BLOCK) {
        let begin = BLOCK * place;
        let end = (begin + BLOCK).min(bytes.len());
        put_block(blocks, block, &bytes[begin..end]);
        block = next[block as usize];
    }
    block
}

/// Reads a run from a block on to the end of a slice.
pub fn gather(blocks: &[u8], next: &[u32], first: u32, out: &mut [u8])
    requires size { length blocks.now ≡ BLOCK * length next.now }
    requires few { length next.now < 2 ^ 32 }
    requires run { IsRun next.now first (blocks_of (length out.old)) }
    ensures { out.new ≡ run_bytes blocks.now next.now first (length out.old) }
{
    let mut block = first;
    for place in 0..out.len().div_ceil(BLOCK) {
        let begin = BLOCK * place;
        let end = (begin + BLOCK).min(out.len());
        let from = BLOCK * block as usize;
        out[begin..end].copy_from_slice(&blocks[from..from + (end - begin)]);
        block = next[block as usize];
    }
}
