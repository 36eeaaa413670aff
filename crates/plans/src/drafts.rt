// Drafts (document 01, "Plans" and "When each operation says no"): whether a value is a draft, and the verdict on it. 15 is given here;
// the checks of the columns are those that the desk makes when it closes a draft.
ghost use Rattle.std.specs.Prelude.{◌≡◌, ◌≤◌, true, length};
ghost use Rattle.higman.specs.Bases.{all};
ghost use Rattle.higman.specs.Limits.{is_plan_word};
ghost use Rattle.words.specs.Bytes.{shape_of};
ghost use Rattle.columns.specs.Packed.{words_of};
ghost use Rattle.operations.specs.Plans.{zeros, is_column, is_draft};
ghost use Rattle.plans.specs.Answers.{judged};

use crate::Rejection;
use operations::{MAX_PAIRS, Plan, closing};
use words::Shape;

// Whether each number of a column holds a word that a plan of the shape may hold.
pub fn are_words(column: &[u64], shape: Shape) -> bool
    ensures { result ≡ all (is_plan_word (shape_of shape)) (words_of column.now) }
{
    column.iter().all(|&word| words::is_word(word, shape))
}

// Whether nothing stands in a column. The numbers are all looked at, many at a time: a search that ended at the first other one would
// take them one by one.
pub fn are_zeros(column: &[u64]) -> bool
    ensures { result ≡ zeros column.now }
{
    let mut none = true;
    for &word in column {
        none &= word == 0;
    }
    none
}

// Whether the first n numbers of a column hold words that a plan of the shape may hold, with nothing behind them.
fn is_column(column: &[u64], n: usize, shape: Shape) -> bool
    requires { n ≤ length column.now }
    ensures { result ≡ is_column (shape_of shape) n column.now }
{
    are_zeros(&column[n..]) && are_words(&column[..n], shape)
}

// Whether a value is a draft: a shape in range, and pairs of words within the limit, with nothing behind them.
pub fn is_draft(p: Plan) -> bool
    ensures { result ≡ is_draft p }
{
    holds_draft(&p)
}

// The same of a value where it lies: it has 2 KB, and every call of the library looks at the plans that it is handed.
pub(crate) fn holds_draft(p: &Plan) -> bool
    ensures value { result ≡ is_draft p.now }
    ensures even { result ≡ true → length p.now.from ≡ length p.now.to }
{
    p.pairs <= MAX_PAIRS
        && p.shape().is_in_range()
        && is_column(&p.from, p.pairs, p.shape())
        && is_column(&p.to, p.pairs, p.shape())
}

// The verdict on a draft: both checks of the from column, and after that both of the to column.
pub fn verdict(draft: Plan) -> Result<(), Rejection>
    ensures { result ≡ judged draft }
{
    judge(&draft)
}

// The same of a value where it lies.
pub(crate) fn judge(draft: &Plan) -> Result<(), Rejection>
    ensures { result ≡ judged draft.now }
{
    if !holds_draft(draft) {
        return Err(Rejection::NotADraft);
    }
    Ok(closing::judge(draft)?)
}
