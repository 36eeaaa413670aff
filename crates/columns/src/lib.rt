// Columns (document 01, "Codes"): sorted lists of packed words. What is asked of a column, which word of it begins a word and
// which words a word begins, whether its words overlap, whether a block is covered, is answered by binary search or in one pass over the
// words. Like those of the crate `tables` above, these functions may ask something of their callers.
#![tactic(auto)]

ghost use Rattle.std.specs.Prelude.{◌≡◌, true, false, ◌+◌, ◌-◌, ◌≤◌, T, length};
ghost use Rattle.higman.specs.Words.{child, is_word};
ghost use Rattle.higman.specs.Bases.{all, listed, covered, gap, overlap};
ghost use Rattle.higman.specs.Limits.{max_digits};
ghost use Rattle.words.specs.Packed.{unpack};
ghost use Rattle.words.specs.Bytes.{shape_of};
ghost use Rattle.columns.specs.Packed.{words_of, sorted};
ghost use Rattle.columns.specs.Columns.{PartedAt, begun_at, Extending, Walkable, AtBlock, covered_from, Walked};

pub mod sorting;
pub mod splits;

use std::ops::Range;
use words::{MAX_WAYS, Shape};

// The pairs that a plan has at most: `max_pairs` of higman's Limits.antt.
pub const MAX_PAIRS: usize = 128;

// The number of words at the front of a sorted column that are in order with w.
pub fn first_after(column: &[u64], w: u64) -> usize
    requires { sorted (words_of column.now) ≡ true }
    ensures { PartedAt column.now w result }
{
    column.partition_point(|word| words::in_order(*word, w))
}

// The place of the word that begins w, or None where none does: the last of the words in order with w, if any.
pub fn begun_by(column: &[u64], w: u64) -> Option<usize>
    requires column_value { sorted (words_of column.now) ≡ true }
    requires column_value_2 { overlap (words_of column.now) ≡ false }
    ensures { result ≡ begun_at (words_of column.now) (unpack w) }
{
    let last = first_after(column, w).checked_sub(1)?;
    words::begins(column[last], w).then_some(last)
}

// The run of the words that w begins and does not equal. They stand right behind those in order with w.
pub fn extending(column: &[u64], w: u64) -> Range<usize>
    requires { sorted (words_of column.now) ≡ true }
    ensures { Extending column.now (unpack w) result.start result.end }
{
    let start = first_after(column, w);
    let run = column[start..].partition_point(|word| words::begins(w, *word));
    start..start + run
}

// Whether one word begins or equals another. In a sorted column it then begins its right neighbour.
pub fn overlaps(column: &[u64]) -> bool
    requires { sorted (words_of column.now) ≡ true }
    ensures { result ≡ overlap (words_of column.now) }
{
    column
        .windows(2)
        .any(|pair| words::begins(pair[0], pair[1]))
}

// Where the walk over a covered block has come to, looked at `left` ways below it; None where there is a gap. The words before the place
// at stand before the block, so that the word there is the block, lies in it, or there is a gap. It and the walk over the ways call each
// other: that is the form which document 01 names for this check. It is inlined there, so that a word of the column
// is looked at without a call.
#[cycle(covered_block_covered_ways)]
#[inline(always)]
fn covered_block(column: &[u64], arity: u8, w: u64, left: u8, at: usize) -> Option<usize>
    requires walkable { Walkable arity column.now × (1 ≤ arity) × (arity ≤ 9) }
    requires in_bounds { (1 ≤ length (unpack w)) × (length (unpack w) + left ≤ max_digits) × AtBlock column.now (unpack w) at }
    ensures { Walked column.now (unpack w) (covered arity (words_of column.now) left (unpack w)) result }
{
    let word = *column.get(at)?;
    if word == w {
        return Some(at + 1);
    }
    if left == 0 {
        return None;
    }
    covered_ways(column, arity, w, left, at)
}

// The same of the parts of a block, way by way, up to the first that is not covered. The words of a part stand behind those of the parts
// before it, so that the walk goes on where it has come to.
#[cycle(covered_block_covered_ways)]
#[inline(never)]
fn covered_ways(column: &[u64], arity: u8, w: u64, left: u8, at: usize) -> Option<usize>
    requires walkable { Walkable arity column.now × (1 ≤ arity) × (arity ≤ 9) × (listed (unpack w) (words_of column.now) ≡ false) }
    requires in_bounds { (1 ≤ left) × (1 ≤ length (unpack w)) × (length (unpack w) + left ≤ max_digits)
        × AtBlock column.now (child (unpack w) 1) at }
    ensures { Walked column.now (unpack w) (covered_from arity (words_of column.now) (left - 1) (unpack w) 1) result }
{
    let mut next = at;
    for way in 1..=arity {
        next = covered_block(column, arity, words::child(w, way), left - 1, next)?;
    }
    Some(next)
}

// Whether a belt isn't covered. Deeper than the longest words of a plan there is nothing to look for.
pub fn has_gap(column: &[u64], shape: Shape) -> bool
    requires column_value { (sorted (words_of column.now) ≡ true) × (overlap (words_of column.now) ≡ false) }
    requires le_arity { (1 ≤ shape.arity) × (shape.arity ≤ 9) × (shape.roots ≤ 9)
        × T (all (is_word (shape_of shape)) (words_of column.now)) }
    ensures { result ≡ gap (shape_of shape) (words_of column.now) }
{
    let mut at = 0;
    for root in 1..=shape.roots {
        let Some(next) = covered_block(column, shape.arity, words::child(0, root), MAX_WAYS, at)
        else {
            return true;
        };
        at = next;
    }
    false
}
