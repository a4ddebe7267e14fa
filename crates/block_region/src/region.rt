//! A region of blocks.

ghost use Rattle.std.specs.Prelude.{◌≡◌, ◌+◌, ◌<◌, ◌≤◌, ◌↔◌, [], length, IfOk, OnErr, IsErr, IfErr};
ghost use Rattle.xrc_edge.specs.declared.limits.TheConstants.{LONGEST_TRACE};
ghost use Rattle.block_region.specs.Blocks.{blocks_of};
ghost use Rattle.block_region.specs.Regions.{empty_region, chain_bytes_at, chain_bytes, Holds, with_chain, without_chain, block_count, taken_blocks, free_blocks};

use crate::chain::{Chain, Full};
use crate::runs::{block_after, blocks_of, fill, gather, linked};
use std::alloc::Global;
use std::marker::Model;
use xrc_edge::{BLOCK, NoMemory};

/// The first block of a chain that has none.
const NO_BLOCK: u32 = u32::MAX;

/// Blocks, handed out in chains. Contracts see for each block the bytes of the chain that begins there.
#[derive(Debug, Drop)]
pub struct Region {
    bytes: Vec<u8>,
    // After each block, the one that follows it in its chain or among the free ones.
    next: Vec<u32>,
    // For each block, the length of the chain that begins there, or 0.
    lens: Vec<u64>,
    first_free: u32,
    free: u32,
}

impl Model for Region {
    ghost use Rattle.block_region.specs.Regions.{RegionState};
    ghost use Rattle.block_region.specs.Runs.{chains_from, AreRunsSound};

    ghost Value = { RegionState };

    ghost view = { λ region. record { chains = chains_from region.bytes.items region.next.items 0 region.lens.items } };

    ghost invariant = { λ region. AreRunsSound region.bytes.items region.next.items region.lens.items region.first_free region.free };
}

impl Region {
    /// A region of so many blocks, all of them free. All its memory is taken here.
    pub fn make(alloc: Global, blocks: u32) -> Result<Region, NoMemory>
        ensures { IfOk result (λ region. region ≡ empty_region blocks) }
    {
        Ok(Region {
            bytes: vec![in alloc; 0u8; BLOCK * blocks as usize]?,
            next: linked(alloc, blocks)?,
            lens: vec![in alloc; 0u64; blocks as usize]?,
            first_free: 0,
            free: blocks,
        })
    }

    /// The number of free blocks. A chain takes its length in blocks, rounded up.
    pub fn free(&self) -> u32
        ensures free { result ≡ free_blocks self.now }
        ensures whole { result + taken_blocks self.now ≡ block_count self.now }
    {
        self.free
    }

    /// Keeps bytes in a new chain. Full exactly where they need more blocks than are free; the region is then as before.
    pub fn take(&mut self, bytes: &[u8]) -> Result<Chain, Full>
        requires { length bytes.now ≤ LONGEST_TRACE }
        ensures len { IfOk result (λ chain. chain.len ≡ length bytes.now) }
        ensures fresh { IfOk result (λ chain. chain_bytes_at self.old chain.first ≡ []) }
        ensures taken { IfOk result (λ chain. self.new ≡ with_chain self.old chain.first bytes.now) }
        ensures held { IfOk result (λ chain. Holds self.new chain) }
        ensures bytes { IfOk result (λ chain. chain_bytes self.new chain ≡ bytes.now) }
        ensures room { IfOk result (λ _. free_blocks self.new + blocks_of (length bytes.now) ≡ free_blocks self.old) }
        ensures full { IsErr result ↔ (free_blocks self.old < blocks_of (length bytes.now)) }
        ensures says { IfErr result (λ full. full ≡ record { needed = blocks_of (length bytes.now); free = free_blocks self.old }) }
        ensures refused { OnErr result (self.new ≡ self.old) }
    {
        let len = bytes.len() as u64;
        let needed = blocks_of(len);
        if needed > self.free {
            return Err(Full {
                needed,
                free: self.free,
            });
        }
        if len == 0 {
            return Ok(Chain {
                first: NO_BLOCK,
                len,
            });
        }
        let first = self.first_free;
        self.first_free = fill(
            self.bytes.as_mut_slice(),
            self.next.as_slice(),
            first,
            bytes,
        );
        self.free -= needed;
        self.lens[first as usize] = len;
        Ok(Chain { first, len })
    }

    /// Copies the bytes of a chain.
    pub fn read_into(&self, chain: &Chain, out: &mut [u8])
        requires held { Holds self.now chain.now }
        requires length { length out.old ≡ chain.now.len }
        ensures { out.new ≡ chain_bytes self.now chain.now }
    {
        if chain.len == 0 {
            return;
        }
        gather(
            self.bytes.as_slice(),
            self.next.as_slice(),
            chain.first,
            out,
        );
    }

    /// Frees the blocks of a chain.
    pub fn give(&mut self, chain: Chain)
        requires { Holds self.old chain }
        ensures given { self.new ≡ without_chain self.old chain }
        ensures room { free_blocks self.new ≡ free_blocks self.old + blocks_of chain.len }
    {
        if chain.len == 0 {
            return;
        }
        let after = self.first_free;
        let count = blocks_of(chain.len);
        let last = block_after(self.next.as_slice(), chain.first, count - 1);
        self.next[last as usize] = after;
        self.first_free = chain.first;
        self.free += count;
        self.lens[chain.first as usize] = 0;
    }
}
