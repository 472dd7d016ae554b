// The records of sound blocks into words.
ghost use Rattle.std.specs.Prelude.{◌≡◌, ◌++◌, ◌*◌, ◌≤◌, length, drop};
ghost use Rattle.choice.specs.Tells.{accepted_whole};
ghost use Rattle.trace.specs.Layout.{words_per_record, words_of};
ghost use Rattle.trace.specs.Blocks.{count_of, record_words};
ghost use Rattle.trace.specs.Reading.{block_refusals, after_blocks, record_count, all_record_words};

use crate::judging::count;
use crate::layout::{Block, RECORDS_AT, WORDS_PER_RECORD};

// The words of a record area, low byte first. They are put in by index: the library promises nothing of what a slice ends as under a `zip`.
fn copy_words(area: &[u8], out: &mut [u16])
    requires { length area.now ≡ 2 * length out.old }
    ensures { out.new ≡ words_of area.now }
{
    let (pairs, _) = area.as_chunks();
    for (i, pair) in pairs.iter().enumerate() {
        out[i] = u16::from_le_bytes(*pair);
    }
}

// Copies the records of a block, and answers how many words that was.
fn copy_block(block: &Block, out: &mut [u16]) -> usize
    requires { (count_of block.now ≤ 84) × (words_per_record * count_of block.now ≤ length out.old) }
    ensures { (result ≡ words_per_record * count_of block.now) × (out.new ≡ record_words words_per_record block.now ++ drop result out.old) }
{
    let words = WORDS_PER_RECORD * count(block);
    copy_words(
        &block[RECORDS_AT..RECORDS_AT + 2 * words],
        &mut out[..words],
    );
    words
}

// Copies the records of sound blocks.
pub(crate) fn copy_all(blocks: &[Block], cycles: &mut [u16])
    requires { (after_blocks 0 (block_refusals words_per_record 0 blocks.now) (accepted_whole (record_count blocks.now)) ≡ accepted_whole (record_count blocks.now)) × (words_per_record * record_count blocks.now ≤ length cycles.old) }
    ensures { cycles.new ≡ all_record_words words_per_record blocks.now ++ drop (words_per_record * record_count blocks.now) cycles.old }
{
    let mut filled = 0;
    for block in blocks {
        filled += copy_block(block, &mut cycles[filled..]);
    }
}
