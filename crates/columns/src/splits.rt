// A column by value whose words are split, from the roots on (document 004, "A sequence of d simple expansions"): a word is replaced by its
// parts, and the words behind it move up. The words stand at the first places; what is behind them says nothing. (kept: an array and how
// many of its places are used, since nothing is allocated here.)
ghost use Rattle.std.specs.Prelude.{◌≡◌, ◌+◌, ◌-◌, ◌≤◌, take, drop};
ghost use Rattle.std.proofs.Math.Seq.{paste};
ghost use Rattle.higman.specs.Bases.{root_words};
ghost use Rattle.higman.specs.Exercises.{expanded_at};
ghost use Rattle.words.specs.Bytes.{shape};
ghost use Rattle.columns.specs.Packed.{words_of};
ghost use Rattle.columns.specs.Splits.{Moved, Splittable};

use crate::MAX_PAIRS;

// The words behind a place, up to so many, moved up to another place.
#[tactic(auto, unfolding(higman::specs::Limits::max_pairs))]
fn move_up(column: [u64; MAX_PAIRS], behind: usize, count: usize, to: usize) -> [u64; MAX_PAIRS]
    requires { Moved behind count to }
    ensures { result ≡ paste column to (drop behind column) (count - behind) }
{
    let mut moved = column;
    moved[to..to + (count - behind)].copy_from_slice(&column[behind..count]);
    moved
}

// The word at a place split: its parts in its stead, and the words behind it moved up.
#[tactic(auto, unfolding(higman::specs::Limits::max_pairs))]
pub fn split(column: [u64; MAX_PAIRS], count: usize, place: usize, arity: u8) -> [u64; MAX_PAIRS]
    requires { Splittable column count place arity }
    ensures { words_of (take (count + (arity - 1)) result) ≡ expanded_at arity (words_of (take count column)) place }
{
    let w = column[place];
    let mut parts = move_up(column, place + 1, count, place + arity as usize);
    for i in 0..arity {
        parts[place + i as usize] = words::child(w, i + 1);
    }
    parts
}

// The roots, each a word of one digit, whatever the number of ways.
#[tactic(auto, using(words::proofs::Packing::unpack_zero), unfolding(higman::specs::Limits::max_digits))]
pub fn root_words(roots: u8) -> [u64; MAX_PAIRS]
    requires { roots ≤ 9 }
    ensures { words_of (take roots result) ≡ root_words (shape 0 roots) }
{
    let mut column = [0u64; MAX_PAIRS];
    for i in 0..roots {
        column[i as usize] = words::child(0, i + 1);
    }
    column
}
