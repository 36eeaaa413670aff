// The listing of a plan as P, M and E records, and the pairs of a block, written into a lent buffer (document 01, "Records"; change
// requests E1 and E7). Each function writes its bytes from a place on and returns the place behind them; the rest of the buffer stays as it
// was. (kept: a buffer and a place in it, as in `words::writing`.)
ghost use Rattle.std.specs.Prelude.{◌≡◌, ℕ, ◌+◌, ◌≤◌, length};
ghost use Rattle.higman.specs.Words as Of;
ghost use Rattle.higman.specs.Limits.{max_pairs};
ghost use Rattle.higman.specs.Listing.{open_record, pair_fields, pair_record, close_record, listing};
ghost use Rattle.words.specs.Bytes.{shape_of};
ghost use Rattle.words.specs.Writing.{Wrote};
ghost use Rattle.columns.specs.Packed.{pair_of, table};
ghost use Rattle.tables.specs.Lines.{pair_lines, placed, block_line, block_lines, BlockFits, plan_of_columns};

use crate::Pairs;
use words::{Shape, writing};

// The bytes of the P record and the E record.
const ENDS: usize = 10;
// The bytes of an M record beside its digits.
const MARKS: usize = 4;

// The P record.
fn open_line(slot: u8, shape: Shape, out: &mut [u8], at: usize) -> usize
    requires { (shape.arity ≤ 9) × (shape.roots ≤ 9) × (at + 8 ≤ length out.old) }
    ensures { Wrote (open_record slot (shape_of shape)) out.old at out.new result }
{
    let n = words::byte(shape.arity);
    let r = words::byte(shape.roots);
    let slot_at = writing::put(b'P', out, at);
    let arity_at = writing::put_field(slot, out, slot_at);
    let roots_at = writing::put_field(n, out, arity_at);
    let end_at = writing::put_field(r, out, roots_at);
    writing::put(b'\n', out, end_at)
}

// A letter and the words of a pair, the fields that a line of it begins with.
fn pair_fields(letter: u8, from: u64, to: u64, out: &mut [u8], at: usize) -> usize
    requires { at + length (pair_fields letter (pair_of from to)) ≤ length out.old }
    ensures { Wrote (pair_fields letter (pair_of from to)) out.old at out.new result }
{
    let from_at = writing::put(letter, out, at);
    let to_at = writing::put_word(from, out, from_at);
    writing::put_word(to, out, to_at)
}

// The M record of a pair.
fn pair_line(from: u64, to: u64, out: &mut [u8], at: usize) -> usize
    requires { at + length (pair_record (pair_of from to)) ≤ length out.old }
    ensures { Wrote (pair_record (pair_of from to)) out.old at out.new result }
{
    let end_at = pair_fields(b'M', from, to, out, at);
    writing::put(b'\n', out, end_at)
}

// The line of a pair in a block, with its place.
fn block_line(from: u64, to: u64, place: u32, out: &mut [u8], at: usize) -> usize
    requires { at + length (block_line (placed place from to)) ≤ length out.old }
    ensures { Wrote (block_line (placed place from to)) out.old at out.new result }
{
    let place_at = pair_fields(b'B', from, to, out, at);
    let end_at = writing::put_decimal(place, out, place_at);
    writing::put(b'\n', out, end_at)
}

// The E record.
fn close_line(out: &mut [u8], at: usize) -> usize
    requires { at + 2 ≤ length out.old }
    ensures { Wrote close_record out.old at out.new result }
{
    let end_at = writing::put(b'E', out, at);
    writing::put(b'\n', out, end_at)
}

// The M records of all pairs.
fn pair_lines(pairs: Pairs, out: &mut [u8], at: usize) -> usize
    requires { at + length (pair_lines pairs.from.now pairs.to.now) ≤ length out.old }
    ensures { Wrote (pair_lines pairs.entry.from.now pairs.entry.to.now) out.old at out.new result }
{
    let mut next = at;
    for (&from, &to) in pairs.from.iter().zip(pairs.to) {
        next = pair_line(from, to, out, next);
    }
    next
}

// The lines of a block, all pairs of these columns, from the place of the first one on. (kept: beside `pair_lines`. In one function the
// line would be a closure, and the clauses that say what each call of it writes would be longer than this loop.)
pub fn block_lines(from: &[u64], to: &[u64], first: usize, out: &mut [u8], at: usize) -> usize
    requires { BlockFits first from.now to.now at (length out.old) }
    ensures { Wrote (block_lines first from.now to.now) out.old at out.new result }
{
    let mut next = at;
    for (i, &f) in from.iter().enumerate() {
        next = block_line(f, to[i], (first + i) as u32, out, next);
    }
    next
}

// Writes the listing of a plan at the front of the buffer, and returns its length.
pub fn list_into(slot: u8, shape: Shape, from: &[u64], to: &[u64], out: &mut [u8]) -> usize
    requires { (shape.arity ≤ 9) × (shape.roots ≤ 9) × (length from.now ≡ length to.now)
        × (length (listing slot (plan_of_columns shape.arity shape.roots from.now to.now)) ≤ length out.old) }
    ensures { Wrote (listing slot (plan_of_columns shape.arity shape.roots from.now to.now)) out.old 0 out.new result }
{
    let pairs_at = open_line(slot, shape, out, 0);
    let close_at = pair_lines(Pairs { from, to }, out, pairs_at);
    close_line(out, close_at)
}

// The length of a pair's M record.
fn pair_length(from: u64, to: u64) -> usize
    ensures { result ≡ length (pair_record (pair_of from to)) }
{
    MARKS + words::length(from) as usize + words::length(to) as usize
}

// The length of the listing of a plan with these pairs, whatever its slot and its shape.
pub fn listing_length(from: &[u64], to: &[u64]) -> usize
    requires { (length from.now ≡ length to.now) × (length from.now ≤ max_pairs) }
    ensures { (slot : ℕ) (s : Of.Shape) → result ≡ length (listing slot (record { shape = s; rows = table from.now to.now })) }
{
    let mut sum = ENDS;
    for (&f, &t) in from.iter().zip(to) {
        sum += pair_length(f, t);
    }
    sum
}
