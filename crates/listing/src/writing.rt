// Texts put into lent bytes.
ghost use Rattle.std.specs.Prelude.{◌≡◌, ◌+◌, ◌≤◌, ◌++◌, length, take, drop};
ghost use Rattle.listing.specs.Items.{joined};
ghost use Rattle.listing.specs.Answers.{outcome, fill, printed_tells};
ghost use Rattle.listing.specs.Told.{texts_told};

use refusals::Refusal;

// The texts of a line: of the family, of the mode, and of those fields that are written.
#[derive(Clone, Copy)]
pub(crate) struct Texts {
    pub(crate) family: &'static [u8],
    pub(crate) mode: &'static [u8],
    pub(crate) a: Option<&'static [u8]>,
    pub(crate) b: Option<&'static [u8]>,
    pub(crate) c: Option<&'static [u8]>,
}

// A text at an index of the bytes, and the index after it.
fn put(text: &[u8], at: usize, out: &mut [u8]) -> usize
    requires { at + length text.now ≤ length out.old }
    ensures after { result ≡ at + length text.now }
    ensures bytes { out.new ≡ take at out.old ++ text.now ++ drop (at + length text.now) out.old }
{
    let end = at + text.len();
    out[at..end].copy_from_slice(text);
    end
}

// The line of some texts, and how many bytes it has.
pub(crate) fn join(texts: Texts, out: &mut [u8]) -> usize
    requires { length (joined (texts_told texts)) ≤ length out.old }
    ensures size { result ≡ length (joined (texts_told texts)) }
    ensures bytes { out.new ≡ joined (texts_told texts) ++ drop (length (joined (texts_told texts))) out.old }
{
    let mut size = put(texts.family, 0, out);
    for text in [Some(texts.mode), texts.a, texts.b, texts.c] {
        if let Some(text) = text {
            out[size] = b' ';
            size = put(text, size + 1, out);
        }
    }
    size
}

// A line at the front of lent bytes, and how many it has.
pub(crate) fn fill(line: &[u8], out: &mut [u8]) -> Result<usize, Refusal>
    ensures { outcome (printed_tells result) out.new ≡ fill line.now out.old }
{
    if out.len() < line.len() {
        return Err(Refusal::NoRoom);
    }
    Ok(put(line, 0, out))
}
