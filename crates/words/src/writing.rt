// Writing bytes, fields and words into a lent buffer (document 01, "Records": "fields parted by tabs"). Each function writes its bytes
// from a place on and returns the place behind them; the rest of the buffer stays as it was.
// (kept: a buffer and a place in it, since nothing is allocated here: the buffer is the caller's, and a writer of our own would hold the
// same two.)
ghost use Rattle.std.specs.Prelude.{[], ◌∷◌, ◌+◌, ◌≤◌, ◌<◌, length};
ghost use Rattle.higman.specs.Text.{tab, word_bytes, decimal};
ghost use Rattle.words.specs.Packed.{unpack};
ghost use Rattle.words.specs.Writing.{Wrote};

// One byte.
pub fn put(b: u8, out: &mut [u8], at: usize) -> usize
    requires { at < length out.old }
    ensures { Wrote (b ∷ []) out.old at out.new result }
{
    out[at] = b;
    at + 1
}

// A tab and a field of one byte.
pub fn put_field(b: u8, out: &mut [u8], at: usize) -> usize
    requires { at + 2 ≤ length out.old }
    ensures { Wrote (tab ∷ b ∷ []) out.old at out.new result }
{
    let field_at = put(b'\t', out, at);
    put(b, out, field_at)
}

// A word, its last digit first.
pub fn write(w: u64, out: &mut [u8], at: usize) -> usize
    requires { at + length (unpack w) ≤ length out.old }
    ensures { Wrote (word_bytes (unpack w)) out.old at out.new result }
{
    let end = at + crate::length(w) as usize;
    let mut front = w;
    for i in (at..end).rev() {
        out[i] = crate::byte(crate::last(front));
        front /= 16;
    }
    end
}

// A number in decimal: its last digit behind the digits before it.
pub fn put_number(k: u32, out: &mut [u8], at: usize) -> usize
    requires { at + length (decimal k) ≤ length out.old }
    ensures { Wrote (decimal k) out.old at out.new result }
{
    if k < 10 {
        return put(b'0' + k as u8, out, at);
    }
    let last_at = put_number(k / 10, out, at);
    put(b'0' + (k % 10) as u8, out, last_at)
}

// A tab and a number in decimal.
pub fn put_decimal(k: u32, out: &mut [u8], at: usize) -> usize
    requires { at + length (decimal k) < length out.old }
    ensures { Wrote (tab ∷ decimal k) out.old at out.new result }
{
    let number_at = put(b'\t', out, at);
    put_number(k, out, number_at)
}

// A tab and a word.
pub fn put_word(w: u64, out: &mut [u8], at: usize) -> usize
    requires { at + length (unpack w) < length out.old }
    ensures { Wrote (tab ∷ word_bytes (unpack w)) out.old at out.new result }
{
    let word_at = put(b'\t', out, at);
    write(w, out, word_at)
}
