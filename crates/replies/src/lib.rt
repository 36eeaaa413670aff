// From a reply to its bytes (document 01, "Records": "Replies are lines ended the same way"), written into a lent buffer: the lines of
// `ok` and `no`, with a number, an image or a column behind them, and U's line for a held slot. Each function writes its line from a place
// on and returns the place behind it; the rest of the buffer stays as it was. What the bytes of a line are is said in the crate `desk`.
// (kept: a buffer and a place in it, as in `words::writing`.)
#![tactic(auto)]

ghost use Rattle.std.specs.Prelude.{[], ◌∷◌, ◌+◌, ◌≤◌, length, take, drop};
ghost use Rattle.higman.specs.Text.{decimal};
ghost use Rattle.words.specs.Writing.{Wrote};
ghost use Rattle.desk.specs.Bytes.{line_of, ok_line, no_line};
ghost use Rattle.replies.specs.Lines.{image_at, ImageFits, HeldFits};

use words::{Shape, writing};

// A line's first two bytes.
fn put_two(first: u8, second: u8, out: &mut [u8], at: usize) -> usize
    requires { at + 2 ≤ length out.old }
    ensures { Wrote (first ∷ second ∷ []) out.old at out.new result }
{
    let second_at = writing::put(first, out, at);
    writing::put(second, out, second_at)
}

// C's `ok`.
pub fn ok(out: &mut [u8], at: usize) -> usize
    requires { at + 3 ≤ length out.old }
    ensures { Wrote (ok_line []) out.old at out.new result }
{
    let end_at = put_two(b'o', b'k', out, at);
    writing::put(b'\n', out, end_at)
}

// `ok⇥` and a number: the pairs kept, S's 1 or 0, the count, or how many lines stand before it.
pub fn ok_number(k: u32, out: &mut [u8], at: usize) -> usize
    requires { at + length (ok_line (decimal k ∷ [])) ≤ length out.old }
    ensures { Wrote (ok_line (decimal k ∷ [])) out.old at out.new result }
{
    let number_at = put_two(b'o', b'k', out, at);
    let end_at = writing::put_decimal(k, out, number_at);
    writing::put(b'\n', out, end_at)
}

// "A refusal is `no⇥` and its number". (kept: a number, here and in `no_column`, since this crate lies below operations, where `Refusal`
// is; and two functions, since `no` asks room for 7 bytes and `no_column` for 9, which one of both would have to tell by cases.)
pub fn no(number: u8, out: &mut [u8], at: usize) -> usize
    requires { at + 7 ≤ length out.old }
    ensures { Wrote (no_line (decimal number ∷ [])) out.old at out.new result }
{
    let number_at = put_two(b'n', b'o', out, at);
    let end_at = writing::put_decimal(number as u32, out, number_at);
    writing::put(b'\n', out, end_at)
}

// "those of E for a column add ⇥F or ⇥T (from, to)"
pub fn no_column(number: u8, letter: u8, out: &mut [u8], at: usize) -> usize
    requires { at + 9 ≤ length out.old }
    ensures { Wrote (no_line (decimal number ∷ (letter ∷ []) ∷ [])) out.old at out.new result }
{
    let number_at = put_two(b'n', b'o', out, at);
    let letter_at = writing::put_decimal(number as u32, out, number_at);
    let end_at = writing::put_field(letter, out, letter_at);
    writing::put(b'\n', out, end_at)
}

// U's line for a slot: "`slot⇥n⇥r⇥pairs` for each held slot".
pub fn held(slot: u8, shape: Shape, pairs: usize, out: &mut [u8], at: usize) -> usize
    requires { HeldFits shape.arity shape.roots pairs at (length out.old) }
    ensures { Wrote (line_of ((slot ∷ []) ∷ decimal shape.arity ∷ decimal shape.roots ∷ decimal pairs ∷ []))
        out.old at out.new result }
{
    let arity_at = writing::put(slot, out, at);
    let roots_at = writing::put_decimal(shape.arity as u32, out, arity_at);
    let pairs_at = writing::put_decimal(shape.roots as u32, out, roots_at);
    let end_at = writing::put_decimal(pairs as u32, out, pairs_at);
    writing::put(b'\n', out, end_at)
}

// W's `ok⇥`, the image and the place of its pair. The image stands there already, where its route has written it; `ok⇥` goes in front of
// it, and the place and the line's end behind it.
pub fn ok_image(n: usize, place: usize, out: &mut [u8]) -> usize
    requires { ImageFits n place (length out.old) }
    ensures { Wrote (ok_line (take n (drop image_at out.old) ∷ decimal place ∷ []))
        out.old 0 out.new result }
{
    let tab_at = put_two(b'o', b'k', out, 0);
    let image_at = writing::put(b'\t', out, tab_at);
    let end_at = writing::put_decimal(place as u32, out, image_at + n);
    writing::put(b'\n', out, end_at)
}
