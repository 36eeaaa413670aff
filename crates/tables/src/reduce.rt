// Reduction (document 01, "Plans"; document 004, Lemma 4.3): the reduced table of two packed columns whose from column is a basis in
// order. Where no pairs join the table is reduced as it is. Else a recursion over the blocks in digit order, with a cursor into the
// input: a block is listed, or its parts follow one another. "The joins inside a block come before the join of the block itself"; a
// joined pair is written over the pairs it joins. (kept: the columns that are written to side by side, out_from and out_to, and those of
// `join`: `Pairs` lends columns to be read alone, and no contract says that the written ones are of one length.)
ghost use Rattle.std.specs.Prelude.{◌≡◌, ◌++◌, ◌+◌, ◌≤◌, ◌<◌, T, length, drop};
ghost use Rattle.higman.specs.Words.{child};
ghost use Rattle.higman.specs.Tables.{Table};
ghost use Rattle.higman.specs.Normal.{joined, keep};
ghost use Rattle.higman.specs.Limits.{max_digits, shape_in_range};
ghost use Rattle.words.specs.Packed.{unpack};
ghost use Rattle.words.specs.Bytes.{shape_of};
ghost use Rattle.columns.specs.Packed.{table, rows};
ghost use Rattle.tables.specs.Reduction.{prefixed, Block, Parts, state, Places, ReducesBlock, ReducesParts, Reducible};

use crate::{Pairs, joinable};
use words::Shape;

// The places of the next pair to read and of the next pair to write.
#[derive(Clone, Copy)]
struct Cursor {
    read: usize,
    write: usize,
}

// Joins the pairs from the place start up to end into the one pair of the block w, if they are its parts with the parts of a word
// of at least a belt. Returns the place behind the pairs that are left.
fn join(from: &mut [u64], to: &mut [u64], start: usize, end: usize, w: u64, arity: u8) -> usize
    requires { (1 ≤ arity) × (arity ≤ 9) × (start ≤ end) × (end ≤ length from.old) × (end ≤ length to.old) }
    ensures within { result ≤ end }
    ensures joins { (t b : Table) → rows end from.old to.old ≡ t ++ prefixed (unpack w) b → length t ≡ start
        → rows result from.new to.new ≡ t ++ prefixed (unpack w) (joined arity b) }
{
    if end - start != arity as usize {
        return end;
    }
    let v = words::parent(to[start]);
    if v == 0 {
        return end;
    }
    if !joinable::are_parts(from, to, start, w, v, arity) {
        return end;
    }
    from[start] = w;
    to[start] = v;
    start + 1
}

// Reduces the block w, whose pairs stand at the cursor and cut it into parts at most `left` ways below.
#[cycle(reduce_block_reduce_ways)]
fn reduce_block(
    pairs: Pairs,
    out_from: &mut [u64],
    out_to: &mut [u64],
    w: u64,
    left: u8,
    arity: u8,
    at: Cursor,
) -> Cursor
    requires { Places (state pairs.from.now pairs.to.now out_from.old out_to.old at.read at.write) × (1 ≤ arity) × (arity ≤ 9)
        × (length (unpack w) + left ≤ max_digits) × Block arity left (unpack w) (drop at.read (table pairs.from.now pairs.to.now)) }
    ensures places { Places (state pairs.entry.from.now pairs.entry.to.now out_from.new out_to.new result.read result.write) }
    ensures reduces { ReducesBlock arity left (unpack w)
        (state pairs.entry.from.now pairs.entry.to.now out_from.old out_to.old at.read at.write)
        (state pairs.entry.from.now pairs.entry.to.now out_from.new out_to.new result.read result.write) }
{
    let Pairs { from, to } = pairs;
    let Cursor { read, write } = at;
    if from[read] == w {
        out_from[write] = w;
        out_to[write] = to[read];
        return Cursor {
            read: read + 1,
            write: write + 1,
        };
    }
    let end = reduce_ways(pairs, out_from, out_to, w, arity, left - 1, arity, at);
    let joined = join(out_from, out_to, write, end.write, w, arity);
    Cursor {
        read: end.read,
        write: joined,
    }
}

// Reduces the parts of w from the first to the last, one after the other, each cut into parts at most `left` ways below.
#[cycle(reduce_block_reduce_ways)]
fn reduce_ways(
    pairs: Pairs,
    out_from: &mut [u64],
    out_to: &mut [u64],
    w: u64,
    last: u8,
    left: u8,
    arity: u8,
    at: Cursor,
) -> Cursor
    requires { Places (state pairs.from.now pairs.to.now out_from.old out_to.old at.read at.write) × (1 ≤ arity) × (arity ≤ 9)
        × (length (unpack w) + left < max_digits) × (last ≤ 9)
        × Parts arity left (unpack w) 1 last (drop at.read (table pairs.from.now pairs.to.now)) }
    ensures places { Places (state pairs.entry.from.now pairs.entry.to.now out_from.new out_to.new result.read result.write) }
    ensures reduces { ReducesParts arity left (unpack w) 1 last
        (state pairs.entry.from.now pairs.entry.to.now out_from.old out_to.old at.read at.write)
        (state pairs.entry.from.now pairs.entry.to.now out_from.new out_to.new result.read result.write) }
{
    let mut next = at;
    for i in 1..=last {
        next = reduce_block(
            pairs,
            out_from,
            out_to,
            words::child(w, i),
            left,
            arity,
            next,
        );
    }
    next
}

// Writes the pairs into the lent columns, from their first place on.
fn copy_pairs(pairs: Pairs, out_from: &mut [u64], out_to: &mut [u64])
    requires { (length pairs.from.now ≤ length out_from.old) × (length pairs.from.now ≤ length out_to.old) }
    ensures { rows (length pairs.entry.from.now) out_from.new out_to.new ≡ table pairs.entry.from.now pairs.entry.to.now }
{
    let n = pairs.from.len();
    out_from[..n].copy_from_slice(pairs.from);
    out_to[..n].copy_from_slice(pairs.to);
}

// Writes the reduced table of the columns from and to into the lent columns, from their first place on, and returns the number of its
// pairs. The from column is in order and a basis.
pub fn reduce(
    from: &[u64],
    to: &[u64],
    out_from: &mut [u64],
    out_to: &mut [u64],
    shape: Shape,
) -> usize
    requires { (length from.now ≡ length to.now) × (length from.now ≤ length out_from.old) × (length from.now ≤ length out_to.old)
        × T (shape_in_range (shape_of shape)) × Reducible (shape_of shape) (table from.now to.now) }
    ensures within { result ≤ length from.now }
    ensures keeps { rows result out_from.new out_to.new ≡ keep (shape_of shape) (table from.now to.now) }
{
    let pairs = Pairs { from, to };
    if !joinable::has_join(pairs, shape.arity) {
        copy_pairs(pairs, out_from, out_to);
        return from.len();
    }
    let start = Cursor { read: 0, write: 0 };
    let end = reduce_ways(
        pairs,
        out_from,
        out_to,
        0,
        shape.roots,
        words::MAX_WAYS,
        shape.arity,
        start,
    );
    end.write
}
