// Keeping (document 01, "Plans"): "Kept plans are reduced, with from-words in order of the first digit that differs". A draft is
// kept where it is accepted. A value is a kept plan if it is accepted, its from-words are in order and no pairs of it join.
ghost use Rattle.std.specs.Prelude.{◌≡◌};
ghost use Rattle.operations.specs.Plans.{is_plan};
ghost use Rattle.plans.specs.Answers.{keeping, Checked, LentBy};

use crate::{Rejection, drafts};
use operations::refusals::Refusal;
use operations::{Lent, Plan, closing};

// The plan kept of a draft, where its verdict accepts it.
pub fn keep(draft: Plan) -> Result<Plan, Rejection>
    ensures { result ≡ keeping draft }
{
    if !drafts::holds_draft(&draft) {
        return Err(Rejection::NotADraft);
    }
    Ok(closing::close(&draft)?)
}

// Whether a value is a kept plan: accepted, reduced, and with its from-words in order. Then keeping it would give it back.
pub fn is_plan(p: Plan) -> bool
    ensures { result ≡ is_plan p }
{
    holds_plan(&p)
}

// The same of a value where it lies.
fn holds_plan(p: &Plan) -> bool
    ensures { result ≡ is_plan p.now }
{
    drafts::judge(p).is_ok()
        && tables::normal::is_normal(&p.from[..p.pairs], &p.to[..p.pairs], p.arity)
}

// Whether a value is a kept plan. 15.
pub(crate) fn check(p: &Plan) -> Result<(), Refusal>
    ensures { Checked p.now result }
{
    if !holds_plan(p) {
        return Err(Refusal::InvalidValue);
    }
    Ok(())
}

// The columns that a value lends, if it is a kept plan. 15.
pub(crate) fn lent(p: &Plan) -> Result<Lent<'_>, Refusal>
    ensures { LentBy p.now result }
{
    check(p)?;
    Ok(p.lent())
}
