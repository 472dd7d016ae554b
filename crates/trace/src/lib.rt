// Trace blocks: cycle words into blocks of 512 bytes, and back.
#![tactic(auto)]

mod layout; // layout.rt: where things stand in a block
mod checking; // checking.rt: the check, a byte to a pass
mod judging; // judging.rt: what a block is refused for
mod copying; // copying.rt: the records of blocks into words
mod making; // making.rt: words into blocks

ghost use Rattle.std.specs.Prelude.{◌≡◌};
ghost use Rattle.trace.specs.Check.{check_of};
ghost use Rattle.trace.specs.Layout.{words_per_record};
ghost use Rattle.trace.specs.Limits.{kept_length};
ghost use Rattle.trace.specs.Reading.{Reads};
ghost use Rattle.trace.specs.Writing.{Writes};

use layout::{BLOCK_BYTES, BLOCK_WORDS, MOST_BLOCKS, TOO_LONG, WORDS_PER_RECORD};
pub use layout::{CYCLE_WORDS, INPUT_BYTES, TRACE_BYTES};
use refusals::{Refusal, Refused};
use run::MOST_CYCLES;

// The check of some bytes.
pub fn check(bytes: &[u8]) -> u16
    ensures { result ≡ check_of bytes.now }
{
    let mut register = 0;
    for byte in bytes {
        register = checking::check_byte(register, *byte);
    }
    register
}

// Reads a trace into cycle words. Nothing is written before all of it is accepted. The answer is how many words are filled, or the refusal, with
// the index of the block if it is of one.
pub fn read(trace: &[u8], cycles: &mut [u16]) -> Result<usize, Refused>
    ensures { Reads trace.now result cycles.old cycles.new }
{
    let (blocks, rest) = trace.as_chunks();
    if !rest.is_empty() {
        return Err(Refusal::NotWholeBlocks.into());
    }
    if MOST_BLOCKS < blocks.len() {
        return Err(Refusal::TooLong.into());
    }
    let records = judging::judge(blocks)?;
    if MOST_CYCLES < records {
        return Err(Refusal::TooLong.into());
    }
    if cycles.len() < WORDS_PER_RECORD * records {
        return Err(Refusal::NoRoom.into());
    }
    copying::copy_all(blocks, cycles);
    Ok(WORDS_PER_RECORD * records)
}

// How much of a long input is kept, so that its answer is that of all of it.
pub fn kept(length: usize) -> usize
    ensures { result ≡ kept_length words_per_record length }
{
    if length < TOO_LONG {
        length
    } else {
        TOO_LONG + length % BLOCK_BYTES
    }
}

// Writes cycle words as a trace. Nothing is written before all of it is accepted. The answer is how many bytes are filled, or the refusal.
pub fn write(words: &[u16], trace: &mut [u8]) -> Result<usize, Refused>
    ensures { Writes words.now result trace.old trace.new }
{
    if words.len() % WORDS_PER_RECORD != 0 {
        return Err(Refusal::NotWholeCycles.into());
    }
    if MOST_CYCLES < words.len() / WORDS_PER_RECORD {
        return Err(Refusal::TooLong.into());
    }
    let blocks = words.len().div_ceil(BLOCK_WORDS);
    if trace.len() < blocks * BLOCK_BYTES {
        return Err(Refusal::NoRoom.into());
    }
    making::write_blocks(words, trace);
    Ok(blocks * BLOCK_BYTES)
}
