// The pairs of "a then b" before reduction (document 01, "Plans"). A pair of a gives one pair where a from-word of b begins its
// to-word, and otherwise one for each from-word of b that its to-word begins. (kept: the columns that are written to side by side, froms
// and tos: `Pairs` lends columns to be read alone, and no contract says that the written ones are of one length.)
ghost use Rattle.std.specs.Prelude.{[], ◌∷◌, ◌++◌, ◌<◌, T, length};
ghost use Rattle.words.specs.Packed.{unpack, is_packed};
ghost use Rattle.columns.specs.Packed.{table};
ghost use Rattle.tables.specs.Spread.{beneath, spread_pair, spread};
ghost use Rattle.tables.specs.Spreading.{pair, Plain, Operand, Unbegun, Room, Spreads};

use crate::Pairs;

// The digits that a plan word has at most, as a number of the type of lengths.
const MAX_DIGITS: u32 = words::MAX_DIGITS as u32;

// Writes one pair behind n others, each word in two parts: u then x, and v then y. Like those below, it returns the number of pairs that
// stand there now, and None where a word of its own pairs has more digits than a plan has room for.
fn put(
    u: u64,
    x: u64,
    v: u64,
    y: u64,
    froms: &mut [u64],
    tos: &mut [u64],
    n: usize,
) -> Option<usize>
    requires t { T (is_packed u) × (T (is_packed x) × (T (is_packed v) × T (is_packed y))) }
    requires n_in_bounds { (n < length froms.old) × (n < length tos.old) }
    ensures { Spreads (pair (unpack u ++ unpack x) (unpack v ++ unpack y) ∷ []) n froms.old tos.old froms.new tos.new result }
{
    if MAX_DIGITS < words::length(u) + words::length(x) {
        return None;
    }
    if MAX_DIGITS < words::length(v) + words::length(y) {
        return None;
    }
    froms[n] = words::append(u, x);
    tos[n] = words::append(v, y);
    Some(n + 1)
}

// Writes, behind n others, the pairs that the pair (u, v) gives by the pairs of b beneath it: those whose from-words v begins. In sorted
// order these stand in a row.
fn spread_beneath(
    u: u64,
    v: u64,
    b: Pairs,
    froms: &mut [u64],
    tos: &mut [u64],
    n: usize,
) -> Option<usize>
    requires t { T (is_packed u) × T (is_packed v) }
    requires operand { Operand b.from.now b.to.now }
    requires unbegun { Unbegun b.from.now v }
    requires room { Room n (beneath (unpack u) (unpack v) (table b.from.now b.to.now)) froms.old tos.old }
    ensures { Spreads (beneath (unpack u) (unpack v) (table b.entry.from.now b.entry.to.now)) n froms.old tos.old froms.new tos.new result }
{
    let mut rows = n;
    let run = columns::extending(b.from, v);
    for i in run.start..run.end {
        let tail = words::tail(v, b.from[i]);
        rows = put(u, tail, b.to[i], 0, froms, tos, rows)?;
    }
    Some(rows)
}

// Writes, behind n others, the pairs that the pair (u, v) gives.
fn spread_pair(
    u: u64,
    v: u64,
    b: Pairs,
    froms: &mut [u64],
    tos: &mut [u64],
    n: usize,
) -> Option<usize>
    requires t { T (is_packed u) × T (is_packed v) }
    requires operand { Operand b.from.now b.to.now }
    requires room { Room n (spread_pair (table b.from.now b.to.now) (pair (unpack u) (unpack v))) froms.old tos.old }
    ensures { Spreads (spread_pair (table b.entry.from.now b.entry.to.now) (pair (unpack u) (unpack v))) n
        froms.old tos.old froms.new tos.new result }
{
    match columns::begun_by(b.from, v) {
        Some(k) => {
            let tail = words::tail(b.from[k], v);
            put(u, 0, b.to[k], tail, froms, tos, n)
        }
        None => spread_beneath(u, v, b, froms, tos, n),
    }
}

// Writes the pairs of "a then b" from the start of two columns on, where every word of them has room in a plan.
pub fn spread_plans(
    a_from: &[u64],
    a_to: &[u64],
    b_from: &[u64],
    b_to: &[u64],
    froms: &mut [u64],
    tos: &mut [u64],
) -> Option<usize>
    requires plain { Plain a_from.now a_to.now }
    requires operand { Operand b_from.now b_to.now }
    requires room { Room 0 (spread (table a_from.now a_to.now) (table b_from.now b_to.now)) froms.old tos.old }
    ensures { Spreads (spread (table a_from.now a_to.now) (table b_from.now b_to.now)) 0 froms.old tos.old froms.new tos.new result }
{
    let b = Pairs {
        from: b_from,
        to: b_to,
    };
    let mut rows = 0;
    for (&u, &v) in a_from.iter().zip(a_to) {
        rows = spread_pair(u, v, b, froms, tos, rows)?;
    }
    Some(rows)
}
