// Comparing (document 01, "Records": "S .. if the plans act alike"): kept plans act alike exactly where their pairs are the same, so
// the columns are compared place by place.
ghost use Rattle.std.specs.Prelude.{◌≡◌, length};
ghost use Rattle.higman.specs.Tables.{same_table};
ghost use Rattle.higman.specs.Answers.{same};
ghost use Rattle.columns.specs.Packed.{table};
ghost use Rattle.operations.specs.Plans.{lent_plan};
ghost use Rattle.operations.specs.Answers.{likeness};

use crate::Lent;
use crate::refusals::Refusal;

// Whether the pairs of two plans are the same, as many in both. Place by place, and not a column after the other: two plans on one
// basis have the same from-words, and mostly differ at the first to-words.
fn same_pairs(a: Lent, b: Lent) -> bool
    requires { length a.from.now ≡ length b.from.now }
    ensures { result ≡ same_table (table a.entry.from.now a.entry.to.now) (table b.entry.from.now b.entry.to.now) }
{
    for i in 0..a.from.len() {
        if a.from[i] != b.from[i] {
            return false;
        }
        if a.to[i] != b.to[i] {
            return false;
        }
    }
    true
}

// "if the plans act alike". 10.
pub fn same(a: Lent, b: Lent) -> Result<bool, Refusal>
    ensures { result ≡ likeness (same (lent_plan a.entry) (lent_plan b.entry)) }
{
    if a.shape != b.shape {
        return Err(Refusal::ShapesDiffer);
    }
    if a.from.len() != b.from.len() {
        return Ok(false);
    }
    Ok(same_pairs(a, b))
}
