// Whether two packed columns hold a table as it is kept (document 01, "Plans"): the from-words in order of the first digit that differs,
// and no join possible. Both take one pass.
ghost use Rattle.std.specs.Prelude.{◌≡◌, ◌≤◌, length, false};
ghost use Rattle.higman.specs.Bases.{overlap};
ghost use Rattle.columns.specs.Packed.{words_of, table};
ghost use Rattle.tables.specs.Joining.{is_normal};

use crate::{Pairs, joinable};

// Whether the table of two columns is reduced and its from-words are in order. Where no word begins another, a sorted column is in order.
pub fn is_normal(from: &[u64], to: &[u64], arity: u8) -> bool
    requires { (1 ≤ arity) × (arity ≤ 9) × (length from.now ≡ length to.now) × (overlap (words_of from.now) ≡ false) }
    ensures { result ≡ is_normal arity (table from.now to.now) }
{
    columns::sorting::is_sorted(from) && !joinable::has_join(Pairs { from, to }, arity)
}
