// Comparing (document 01, "Records": "S .. if the plans act alike") of values: 15, and then what the crate `operations` finds of plans.
ghost use Rattle.std.specs.Prelude.{◌≡◌};
ghost use Rattle.plans.specs.Answers.{alike};

use crate::kept;
use operations::refusals::Refusal;
use operations::{Plan, comparing};

// S: "if the plans act alike". 15, 10.
pub fn same(a: Plan, b: Plan) -> Result<bool, Refusal>
    ensures { result ≡ alike a b }
{
    let first = kept::lent(&a)?;
    let second = kept::lent(&b)?;
    comparing::same(first, second)
}
