// What a block is refused for, and the first block of a trace that is.
ghost use Rattle.std.specs.Prelude.{◌≡◌, ◌≤◌, ◌<◌, length};
ghost use Rattle.choice.specs.Tells.{accepted_whole};
ghost use Rattle.trace.specs.Layout.{words_per_record, word_at};
ghost use Rattle.trace.specs.Blocks.{count_of, count_good, all_zero, shape_good, check_held, check_good, block_refusal};
ghost use Rattle.trace.specs.Answers.{filled_tells};
ghost use Rattle.trace.specs.Judging.{number_told};
ghost use Rattle.trace.specs.Reading.{block_refusals, after_blocks, record_count};

use crate::layout::{Block, CHECK_AT, FULL_COUNT, RECORDS_AT, WORDS_PER_RECORD};
use refusals::{Refusal, Refused};

// How many records a block says that it has.
pub(crate) fn count(block: &Block) -> usize
    ensures { (result ≡ count_of block.now) × (result < 256) }
{
    usize::from(block[2])
}

// Every block but the last is full, and the last has at least one record.
fn count_good(left: usize, count: usize) -> bool
    ensures { result ≡ count_good words_per_record left count }
{
    if left == 0 {
        1 <= count && count <= FULL_COUNT
    } else {
        count == FULL_COUNT
    }
}

fn all_zero(bytes: &[u8]) -> bool
    ensures { result ≡ all_zero bytes.now }
{
    bytes.iter().all(|byte| *byte == 0)
}

// The count, byte 3, and the filling up to the check.
fn shape_good(left: usize, block: &Block) -> bool
    ensures { result ≡ shape_good words_per_record left block.now }
{
    let count = count(block);
    if !count_good(left, count) || block[3] != 0 {
        return false;
    }
    let end = RECORDS_AT + 2 * (WORDS_PER_RECORD * count);
    all_zero(&block[end..CHECK_AT])
}

fn number(block: &Block) -> u16
    ensures { result ≡ word_at block.now 0 }
{
    u16::from_le_bytes([block[0], block[1]])
}

fn check_held(block: &Block) -> u16
    ensures { result ≡ check_held block.now }
{
    u16::from_be_bytes([block[CHECK_AT], block[CHECK_AT + 1]])
}

fn check_good(block: &Block) -> bool
    ensures { result ≡ check_good block.now }
{
    crate::check(&block[..CHECK_AT]) == check_held(block)
}

// Whether block k is sound; `left` blocks follow.
fn judge_block(k: usize, left: usize, block: &Block) -> Result<(), Refusal>
    ensures { number_told result ≡ block_refusal words_per_record k left block.now }
{
    if !check_good(block) {
        return Err(Refusal::WrongCheck);
    }
    if usize::from(number(block)) != k {
        return Err(Refusal::WrongPlace);
    }
    if !shape_good(left, block) {
        return Err(Refusal::WrongShape);
    }
    Ok(())
}

// The blocks in turn: how many records they have, or the first that is refused.
pub(crate) fn judge(blocks: &[Block]) -> Result<usize, Refused>
    requires { length blocks.now ≤ 49 }
    ensures { filled_tells result ≡ after_blocks 0 (block_refusals words_per_record 0 blocks.now) (accepted_whole (record_count blocks.now)) }
{
    let mut records = 0;
    for (k, block) in blocks.iter().enumerate() {
        match judge_block(k, blocks.len() - k - 1, block) {
            Ok(()) => records += count(block),
            Err(refusal) => return Err(Refused { refusal, index: k }),
        }
    }
    Ok(records)
}
