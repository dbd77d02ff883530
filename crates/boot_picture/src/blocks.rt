//! A processor's turns, in the blocks that its lane shows: each turn alone, except for idle turns in a row.

ghost use Rattle.std.specs.Prelude.{◌≡◌, ◌<◌, length, IfOk};
ghost use Rattle.boot_picture.specs.Blocks.{AreBlock, AreBlocksOf};

use boot_log::Entry;
use event_theory::OutOfMemory;
use std::alloc::Global;

/// One turn, or several idle turns in a row, of one processor.
#[derive(Clone, Copy, Debug, PartialEq, Eq)]
pub struct Block {
    /// The number of its first turn, from 0 on.
    pub first: usize,
    /// How many turns it has.
    pub turns: usize,
}

/// How many turns the first block of these has.
///
/// Condition: there is a turn.
fn first_block(entries: &[Entry]) -> usize
    requires { 0 < length entries.now }
    ensures { AreBlock entries.now result }
{
    if !entries[0].is_idle() {
        return 1;
    }
    let mut turns = 1;
    while turns < entries.len() && entries[turns].is_idle() {
        turns += 1;
    }
    turns
}

/// The blocks of a processor's turns, in their order. Each turn is in one block.
pub fn blocks_of(alloc: Global, entries: &[Entry]) -> Result<Vec<Block>, OutOfMemory>
    ensures { IfOk result (λ blocks. AreBlocksOf entries.now blocks.items) }
{
    let mut blocks = Vec::new(alloc);
    let mut first = 0;
    while first < entries.len() {
        let turns = first_block(&entries[first..]);
        blocks.push(Block { first, turns })?;
        first += turns;
    }
    Ok(blocks)
}
