// Joins that a pass over the places finds (document 01, "Plans"; document 004, Lemma 4.3): "n pairs have from-words w1, .., wn and to-words
// v1, .., vn in the same order, w and v being words of at least a belt". In a column in order the from-words of a join stand next to each
// other, so that where the pass finds none there is none.
ghost use Rattle.std.specs.Prelude.{◌≡◌, ◌+◌, ◌≤◌, length, drop};
ghost use Rattle.higman.specs.Words.{child};
ghost use Rattle.higman.specs.Bases.{same_word};
ghost use Rattle.higman.specs.Tables.{same_table};
ghost use Rattle.higman.specs.Normal.{parts};
ghost use Rattle.words.specs.Packed.{unpack};
ghost use Rattle.columns.specs.Packed.{table, rows_at};
ghost use Rattle.tables.specs.Reduction.{prefixed};
ghost use Rattle.tables.specs.Joining.{joins_first, has_join};

use crate::Pairs;

// Whether x is the i-th part of w.
fn is_part(x: u64, w: u64, i: u8) -> bool
    requires { 1 ≤ i }
    ensures { result ≡ same_word (unpack x) (child (unpack w) i) }
{
    words::last(x) == i && words::parent(x) == w
}

// Whether the pairs from the place at on are the n parts of w with the n parts of v, in the same order. (kept: two columns and no
// `Pairs`, since `join` hands in the columns that it writes to, and no contract says that these are of one length.)
pub fn are_parts(from: &[u64], to: &[u64], at: usize, w: u64, v: u64, arity: u8) -> bool
    requires { (arity ≤ 9) × (at + arity ≤ length from.now) × (at + arity ≤ length to.now) }
    ensures { result ≡ same_table (rows_at at arity from.now to.now) (prefixed (unpack w) (parts arity (unpack v))) }
{
    for i in 1..=arity {
        let k = at + i as usize - 1;
        if !is_part(from[k], w, i) {
            return false;
        }
        if !is_part(to[k], v, i) {
            return false;
        }
    }
    true
}

// Whether the n pairs from the place at on join. Most places are passed at the first digits looked at: only a first part can begin a
// join.
fn joins_at(pairs: Pairs, at: usize, arity: u8) -> bool
    requires { (1 ≤ arity) × (arity ≤ 9) × (at + arity ≤ length pairs.from.now) }
    ensures { result ≡ joins_first arity (table (drop at pairs.entry.from.now) (drop at pairs.entry.to.now)) }
{
    let word = pairs.from[at];
    let image = pairs.to[at];
    if words::last(word) != 1 {
        return false;
    }
    if words::last(image) != 1 {
        return false;
    }
    let w = words::parent(word);
    let v = words::parent(image);
    if w == 0 {
        return false;
    }
    if v == 0 {
        return false;
    }
    are_parts(pairs.from, pairs.to, at, w, v, arity)
}

// Whether the n pairs from some place on join.
pub fn has_join(pairs: Pairs, arity: u8) -> bool
    requires { (1 ≤ arity) × (arity ≤ 9) }
    ensures { result ≡ has_join arity (table pairs.entry.from.now pairs.entry.to.now) }
{
    let places = (pairs.from.len() + 1).saturating_sub(arity as usize);
    (0..places).any(|at| joins_at(pairs, at, arity))
}
