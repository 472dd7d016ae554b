// Words into blocks.
ghost use Rattle.std.specs.Prelude.{◌≡◌, ◌++◌, ◌+◌, ◌*◌, ◌≤◌, length, drop};
ghost use Rattle.trace.specs.Layout.{words_per_record, bytes_of};
ghost use Rattle.trace.specs.Blocks.{head_of, body_of, block_of};
ghost use Rattle.trace.specs.Limits.{blocks_for};
ghost use Rattle.trace.specs.Writing.{trace_of};

use crate::layout::{BLOCK_BYTES, BLOCK_WORDS, CHECK_AT, RECORDS_AT, WORDS_PER_RECORD};

// The bytes of words, low byte first. They are put in by index: the library promises nothing of what a slice ends as under `chunks_mut`.
fn put_words(words: &[u16], area: &mut [u8])
    requires { length area.old ≡ 2 * length words.now }
    ensures { area.new ≡ bytes_of words.now }
{
    for (i, word) in words.iter().enumerate() {
        area[2 * i..2 * i + 2].copy_from_slice(&word.to_le_bytes());
    }
}

// The bytes before the records: number, count and form.
fn head(k: u16, words: usize) -> [u8; RECORDS_AT]
    requires { words ≤ 252 }
    ensures { result ≡ head_of words_per_record k words }
{
    let [low, high] = k.to_le_bytes();
    [low, high, (words / WORDS_PER_RECORD) as u8, 0]
}

// The bytes of a block that the check is over.
fn put_body(k: u16, words: &[u16], body: &mut [u8])
    requires { (length words.now ≤ 252) × (length body.old ≡ 510) }
    ensures { body.new ≡ body_of words_per_record k words.now }
{
    let (start, rest) = body.split_at_mut(RECORDS_AT);
    let (area, filling) = rest.split_at_mut(2 * words.len());
    start.copy_from_slice(&head(k, words.len()));
    put_words(words, area);
    filling.fill(0);
}

fn write_block(k: u16, words: &[u16], block: &mut [u8])
    requires { (length words.now ≤ 252) × (length block.old ≡ 512) }
    ensures { block.new ≡ block_of words_per_record k words.now }
{
    let (body, check) = block.split_at_mut(CHECK_AT);
    put_body(k, words, body);
    check.copy_from_slice(&crate::check(body).to_be_bytes());
}

// The blocks that hold the words, each at its place in the trace (not by `chunks_mut`, as in `put_words`).
pub(crate) fn write_blocks(words: &[u16], trace: &mut [u8])
    requires { (blocks_for (length words.now) ≤ 49) × (blocks_for (length words.now) * 512 ≤ length trace.old) }
    ensures { trace.new ≡ trace_of words_per_record words.now ++ drop (blocks_for (length words.now) * 512) trace.old }
{
    for (k, part) in words.chunks(BLOCK_WORDS).enumerate() {
        let at = k * BLOCK_BYTES;
        write_block(k as u16, part, &mut trace[at..at + BLOCK_BYTES]);
    }
}
