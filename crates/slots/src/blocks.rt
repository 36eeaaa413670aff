// The blocks of the columns: each holds the words of a plan, from-words and then to-words, with zeros behind the pairs. A block is read
// as a plan by value, or lent in parts, and a plan is put into one. (kept: a head and its columns side by side, as `slots::Head` says.)
ghost use Rattle.std.specs.Prelude.{◌≡◌, ◌+◌, ◌≤◌, ◌<◌, length, take, drop};
ghost use Rattle.higman.specs.Limits.{max_pairs};
ghost use Rattle.higman.specs.Buffers.{written};
ghost use Rattle.slots.specs.Blocks.{InColumns, from_place, to_place, value_at, put};

use crate::{BLOCK, Head};
use operations::{MAX_PAIRS, Plan};

// So many words of the columns, from a place on.
pub fn part(columns: &[u64], at: usize, n: usize) -> &[u64]
    requires { at + n ≤ length columns.now }
    ensures { result.now ≡ take n (drop at columns.now) }
{
    &columns[at..at + n]
}

// So many words of both columns of a block, from-words and to-words, lent where they lie.
pub fn pairs(columns: &[u64], i: usize, n: usize) -> (&[u64], &[u64])
    requires in_columns { InColumns i columns.now }
    requires few { n ≤ max_pairs }
    ensures from { result.0.now ≡ take n (drop (from_place i) columns.now) }
    ensures to { result.1.now ≡ take n (drop (to_place i) columns.now) }
{
    let base = i * BLOCK;
    (part(columns, base, n), part(columns, base + MAX_PAIRS, n))
}

// A column of a block, by value.
fn column(columns: &[u64], at: usize) -> [u64; MAX_PAIRS]
    requires { at + 128 ≤ length columns.now }
    ensures { result ≡ take max_pairs (drop at columns.now) }
{
    let mut column = [0; MAX_PAIRS];
    column.copy_from_slice(part(columns, at, MAX_PAIRS));
    column
}

// What a block holds.
pub fn value(head: Head, columns: &[u64], i: usize) -> Plan
    requires { InColumns i columns.now }
    ensures { result ≡ value_at head columns.now i }
{
    let size = head.sizes[i];
    let base = i * BLOCK;
    Plan {
        arity: size.arity,
        roots: size.roots,
        pairs: size.pairs,
        from: column(columns, base),
        to: column(columns, base + MAX_PAIRS),
    }
}

// Words put over those of the columns, from a place on.
fn put_column(columns: &mut [u64], at: usize, column: &[u64])
    requires { at + length column.now ≤ length columns.old }
    ensures { columns.new ≡ written columns.old at column.now }
{
    columns[at..at + column.len()].copy_from_slice(column);
}

// The words of a plan put into a block.
pub fn put(columns: &mut [u64], i: usize, plan: Plan)
    requires { InColumns i columns.old }
    ensures { columns.new ≡ put columns.old i plan }
{
    let base = i * BLOCK;
    put_column(columns, base, &plan.from);
    put_column(columns, base + MAX_PAIRS, &plan.to);
}
