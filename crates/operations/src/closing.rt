// Closing (document 01, "When each operation says no", E): "two checks, both made of the from column and after that both of the to
// column", and what is kept of a draft that passes them. The words of a draft stand in any order, so that a column is copied and sorted
// before it is checked. The pairs are sorted once, by their from-words, for the check of that column and for keeping. M has checked the
// words of a draft one by one; here they are known to be words of the shape.
ghost use Rattle.std.specs.Prelude.{◌≡◌, true, ◌≤◌, T, length};
ghost use Rattle.higman.specs.Words.{is_word};
ghost use Rattle.higman.specs.Bases.{all};
ghost use Rattle.higman.specs.Limits.{shape_in_range, max_pairs};
ghost use Rattle.higman.specs.Answers.{fault, verdict};
ghost use Rattle.words.specs.Bytes.{shape_of as the_shape};
ghost use Rattle.columns.specs.Packed.{words_of, sorted};
ghost use Rattle.operations.specs.Plans.{shape_of, rows_of};
ghost use Rattle.operations.specs.Closing.{fault_of, verdict_of, closing, DraftColumns};
ghost use Rattle.operations.specs.Keeping.{SortedFault};

use crate::{Fault, Plan, Reason, following, keeping};
use columns::sorting;
use words::Shape;

// What is wrong with a column that is sorted, overlap before gap.
fn sorted_fault(words: &[u64], shape: Shape) -> Result<(), Reason>
    requires { (sorted (words_of words.now) ≡ true) × T (shape_in_range (the_shape shape))
        × T (all (is_word (the_shape shape)) (words_of words.now)) }
    ensures { result ≡ fault_of (fault (the_shape shape) (words_of words.now)) }
{
    if columns::overlaps(words) {
        return Err(Reason::Overlap);
    }
    if columns::has_gap(words, shape) {
        return Err(Reason::Gap);
    }
    Ok(())
}

// What is wrong with a column whose words are the keys of some pairs. The pairs are left sorted by them. (kept: two columns, and not one
// value of both, since `sort` writes into either.)
fn fault_in(keys: &mut [u64], values: &mut [u64], shape: Shape) -> Result<(), Reason>
    requires { (length keys.old ≡ length values.old) × T (shape_in_range (the_shape shape)) × (length keys.old ≤ max_pairs)
        × T (all (is_word (the_shape shape)) (words_of keys.old)) }
    ensures { SortedFault (the_shape shape) keys.old values.old keys.new values.new result }
{
    sorting::sort(keys, values);
    sorted_fault(keys, shape)
}

// What is wrong with a column. Two copies are sorted, so that the column stays as it came.
#[tactic(auto, using(columns::proofs::Limits::pair_limit, crate::proofs::Sizes::taken))]
fn fault_of(words: &[u64], shape: Shape) -> Result<(), Reason>
    requires { (length words.now ≤ max_pairs) × T (shape_in_range (the_shape shape))
        × T (all (is_word (the_shape shape)) (words_of words.now)) }
    ensures { result ≡ fault_of (fault (the_shape shape) (words_of words.now)) }
{
    let n = words.len();
    let mut keys = following::padded(words, n);
    let mut values = keys;
    fault_in(&mut keys[..n], &mut values[..n], shape)
}

// "the verdict on a plan names the column and, within it, the reason"
#[tactic(auto, using(columns::proofs::Limits::pair_limit, crate::proofs::Sizes::taken))]
pub fn judge(draft: &Plan) -> Result<(), Fault>
    requires { DraftColumns draft.now }
    ensures { result ≡ verdict_of (verdict (shape_of draft.now) (rows_of draft.now)) }
{
    let shape = draft.shape();
    fault_of(&draft.from[..draft.pairs], shape).map_err(Fault::InFrom)?;
    fault_of(&draft.to[..draft.pairs], shape).map_err(Fault::InTo)
}

// "E closes: reduce and keep." Never inlined: its answer has a plan, which a caller would clear for a draft that is refused before.
#[tactic(auto, using(columns::proofs::Limits::pair_limit, crate::proofs::Sizes::taken))]
#[inline(never)]
pub fn close(draft: &Plan) -> Result<Plan, Fault>
    requires { DraftColumns draft.now }
    ensures { result ≡ closing (shape_of draft.now) (rows_of draft.now) }
{
    let shape = draft.shape();
    let mut from = draft.from;
    let mut to = draft.to;
    let keys = &mut from[..draft.pairs];
    let values = &mut to[..draft.pairs];
    fault_in(keys, values, shape).map_err(Fault::InFrom)?;
    fault_of(&draft.to[..draft.pairs], shape).map_err(Fault::InTo)?;
    Ok(keeping::keep_sorted(keys, values, shape))
}
