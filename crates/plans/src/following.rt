// Following (document 01, "Plans": "*a then b* applies a first"), the inverse and powers, of values: 15, and then what the crate
// `operations` makes of plans.
ghost use Rattle.std.specs.Prelude.{◌≡◌};
ghost use Rattle.plans.specs.Answers.{following, inverting, raising};

use crate::kept;
use operations::refusals::Refusal;
use operations::{Plan, following};

// F: "a then b applies a first". 15, 10, 11.
pub fn follow(a: Plan, b: Plan) -> Result<Plan, Refusal>
    ensures { result ≡ following a b }
{
    kept::check(&a)?;
    kept::check(&b)?;
    following::compose(a, b)
}

// I: the inverse of a plan. 15.
pub fn inverse(a: Plan) -> Result<Plan, Refusal>
    ensures { result ≡ inverting a }
{
    kept::check(&a)?;
    Ok(following::inverse(a))
}

// K: a power; "below zero, the power −k of the inverse". 15, 12, 11.
pub fn power(a: Plan, k: i32) -> Result<Plan, Refusal>
    ensures { result ≡ raising a k }
{
    kept::check(&a)?;
    following::power(a, k)
}
