// The rules of opening two sets one by one: which is the first that a pair breaks, of which block, and where. For a bench computer.
#![tactic(auto, unfolding(rules::specs::After::after))]

pub mod beside;

ghost use Rattle.std.specs.Prelude.{◌≡◌};
ghost use Rattle.octets.specs.Sentences.{first};
ghost use Rattle.pair_rules.specs.Explained.{findings_two, is_broken_there, explained_two};
ghost use Rattle.pair_rules.specs.Placed.{block_number, about, placed_of, told_in, told};

use descriptors::limits;
use rules::{Fault, first_fault, place_inside};
use sets::opening::Broken;

// The blocks that are lent, with the numbers that C has for them: the full-speed set, the high-speed set, and the serial block.
#[derive(Clone, Copy, PartialEq, Eq)]
pub enum Block {
    Full = 0,
    High = 1,
    Serial = 2,
}

// A broken rule, with the block that it is about.
#[derive(Clone, Copy)]
pub struct BlockFault {
    pub block: Block,
    pub fault: Fault,
}

// What a maker is told of a pair that is refused: the group, the block that the rule is about, the rule, and the byte of that block.
#[derive(Clone, Copy)]
pub struct ExplainedTwo {
    pub broken: Broken,
    pub block: Block,
    pub rule: u16,
    pub place: u32,
}

// A broken rule of a set with its block; a rule of group 6 is about the serial block.
fn placed(block: Block, found: Option<Fault>) -> Option<BlockFault>
    ensures { about result ≡ placed_of (block_number block) found }
{
    let fault = found?;
    let block = match fault.rule / 100 {
        6 => Block::Serial,
        _ => block,
    };
    Some(BlockFault { block, fault })
}

// The first rule that two sets and their serial block break: of the one by itself, of the other, of the one beside the other, of the other beside it.
fn first_placed(full: &[u8], high: &[u8], serial: &[u8]) -> Option<BlockFault>
    ensures { about result ≡ told_in (first is_broken_there (findings_two full.now high.now serial.now)) }
{
    // Kept: the search ends at a fault, with 168,714 instructions for nothing beside a set of 16,376 bytes; an `or` asks all lists, with 13,164,277.
    let found = placed(
        Block::Full,
        first_fault(full, serial, limits::paired_full()),
    );
    if found.is_some() {
        return found;
    }
    let found = placed(Block::High, first_fault(high, serial, limits::high_speed()));
    if found.is_some() {
        return found;
    }
    let found = placed(Block::Full, beside::pair_fault(full, high));
    if found.is_some() {
        return found;
    }
    placed(Block::High, beside::pair_fault(high, full))
}

// Whether the two may be opened, or else the first rule that is broken.
pub fn explain_two(full: &[u8], high: &[u8], serial: &[u8]) -> Result<(), ExplainedTwo>
    ensures { told result ≡ explained_two full.now high.now serial.now }
{
    match pairs::opening_two(full, high, serial) {
        Ok(()) => Ok(()),
        Err(broken) => {
            // Opening refuses, and so a rule is broken.
            let BlockFault { block, fault } = first_placed(full, high, serial).unwrap();
            let lent = match block {
                Block::Full => full,
                Block::High => high,
                Block::Serial => serial,
            };
            Err(ExplainedTwo {
                broken,
                block,
                rule: fault.rule,
                place: place_inside(lent, fault.place),
            })
        }
    }
}
