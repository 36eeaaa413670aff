// Keeping (document 01, "Plans"): "Kept plans are reduced, with from-words in order of the first digit that differs". Pairs are kept by
// sorting them, reducing them into fresh columns and clearing what joins have left behind the pairs. (kept: two columns side by side, and
// not one value of both. They are sorted in place or made apart by those who call, and hold no kept plan yet, as `Lent` does.)
ghost use Rattle.std.specs.Prelude.{◌≡◌, ◌≤◌, T, length};
ghost use Rattle.higman.specs.Normal.{keep};
ghost use Rattle.higman.specs.Limits.{Bases, shape_in_range, max_pairs};
ghost use Rattle.words.specs.Bytes.{shape_of as the_shape};
ghost use Rattle.columns.specs.Packed.{table};
ghost use Rattle.operations.specs.Plans.{shape_of, rows_of, packed};
ghost use Rattle.operations.specs.Keeping.{ReducibleColumns, KeptColumns};

use crate::{MAX_PAIRS, Plan};
use columns::sorting;
use words::Shape;

// Writes what is kept of the pairs of two columns, which are in order, into the lent columns, with zeros behind, and returns the number
// of its pairs.
fn reduce_into(
    keys: &[u64],
    values: &[u64],
    out_from: &mut [u64],
    out_to: &mut [u64],
    shape: Shape,
) -> usize
    requires { ReducibleColumns (the_shape shape) keys.now values.now
        × (length keys.now ≤ length out_from.old) × (length keys.now ≤ length out_to.old) }
    ensures { KeptColumns (the_shape shape) (table keys.now values.now) out_from.old out_to.old
        out_from.new out_to.new result }
{
    let pairs = tables::reduce::reduce(keys, values, out_from, out_to, shape);
    out_from[pairs..].fill(0);
    out_to[pairs..].fill(0);
    pairs
}

// The plan kept of the pairs of two columns, which are in order.
pub fn keep_sorted(keys: &[u64], values: &[u64], shape: Shape) -> Plan
    requires { ReducibleColumns (the_shape shape) keys.now values.now }
    ensures { result
        ≡ packed (record { shape = the_shape shape; rows = keep (the_shape shape) (table keys.now values.now) }) }
{
    let mut out_from = [0u64; MAX_PAIRS];
    let mut out_to = [0u64; MAX_PAIRS];
    let pairs = reduce_into(keys, values, &mut out_from, &mut out_to, shape);
    Plan {
        arity: shape.arity,
        roots: shape.roots,
        pairs: pairs,
        from: out_from,
        to: out_to,
    }
}

// The plan kept of the pairs of a draft, both of whose columns are bases.
#[tactic(auto, using(columns::proofs::Limits::pair_limit, crate::proofs::Sizes::taken))]
pub fn keep(draft: Plan) -> Plan
    requires { (draft.pairs ≤ max_pairs) × T (shape_in_range (shape_of draft)) × Bases (shape_of draft) (rows_of draft) }
    ensures { result ≡ packed (record { shape = shape_of draft; rows = keep (shape_of draft) (rows_of draft) }) }
{
    let mut from = draft.from;
    let mut to = draft.to;
    let keys = &mut from[..draft.pairs];
    let values = &mut to[..draft.pairs];
    sorting::sort(keys, values);
    keep_sorted(keys, values, draft.shape())
}
