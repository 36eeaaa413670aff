// Following (document 01, "Plans": "*a then b* applies a first"): the pairs of a plan and then another, reduced and held to the
// limits. The pairs before reduction are written into columns of twice the size of a plan, since two plans have at most that many.
// A power ("for k above zero, k times in a row; 0 is the plan that moves nothing") follows the plan by itself again and again, and the
// first power that breaks a limit ends that with 11.
ghost use Rattle.std.specs.Prelude.{◌≡◌, Ok, true, ◌≤◌, T, length};
ghost use Rattle.higman.specs.Limits.{shape_in_range, max_pairs, power_in_range};
ghost use Rattle.higman.specs.Answers.{identity_plan, inverted, powered};
ghost use Rattle.words.specs.Bytes.{shape_of as the_shape};
ghost use Rattle.columns.specs.Packed.{table};
ghost use Rattle.operations.specs.Plans.{plan_of, shape_of, is_plan, packed};
ghost use Rattle.operations.specs.Answers.{making, composing, repeating};
ghost use Rattle.operations.specs.Filled.{filling};

use crate::refusals::Refusal;
use crate::{MAX_PAIRS, Plan, keeping};
use words::Shape;

// The size that a power has at most: `max_power` of higman's Limits.antt.
const MAX_POWER: u32 = 1000;

// The pairs that two plans give at most, before they are reduced.
const MAX_SPREAD: usize = 2 * MAX_PAIRS;

// The first n numbers of a column, and zeros behind them. (kept: n beside the column, since this is public and promises the front of a
// longer column too; those that call it hand in columns of just n numbers.)
#[tactic(auto, using(columns::proofs::Limits::pair_limit, crate::proofs::Sizes::taken))]
pub fn padded(column: &[u64], n: usize) -> [u64; MAX_PAIRS]
    requires { (n ≤ max_pairs) × (n ≤ length column.now) }
    ensures { result ≡ filling n column.now }
{
    let mut places = [0u64; MAX_PAIRS];
    let front = &mut places[..n];
    front.copy_from_slice(&column[..n]);
    places
}

// The plan of the pairs of two columns. (kept: two columns, and not one value of both, as in keeping.rt.)
fn filled(from: &[u64], to: &[u64], shape: Shape) -> Plan
    requires { (length from.now ≤ max_pairs) × (length from.now ≡ length to.now) }
    ensures { result ≡ packed (record { shape = the_shape shape; rows = table from.now to.now }) }
{
    let pairs = from.len();
    let from_places = padded(from, pairs);
    let to_places = padded(to, pairs);
    Plan {
        arity: shape.arity,
        roots: shape.roots,
        pairs: pairs,
        from: from_places,
        to: to_places,
    }
}

// Two plans of one shape, one after the other.
fn composed(a: &Plan, b: &Plan) -> Result<Plan, Refusal>
    requires { (is_plan a.now ≡ true) × (is_plan b.now ≡ true) × (shape_of a.now ≡ shape_of b.now) }
    ensures { result ≡ composing a.now b.now }
{
    let first = a.lent();
    let second = b.lent();
    let mut froms = [0u64; MAX_SPREAD];
    let mut tos = [0u64; MAX_SPREAD];
    let Some(n) = tables::spreading::spread_plans(
        first.from,
        first.to,
        second.from,
        second.to,
        &mut froms,
        &mut tos,
    ) else {
        return Err(Refusal::LimitBroken);
    };
    let mut out_from = [0u64; MAX_SPREAD];
    let mut out_to = [0u64; MAX_SPREAD];
    let pairs = tables::reduce::reduce(
        &froms[..n],
        &tos[..n],
        &mut out_from,
        &mut out_to,
        first.shape,
    );
    if MAX_PAIRS < pairs {
        return Err(Refusal::LimitBroken);
    }
    Ok(filled(&out_from[..pairs], &out_to[..pairs], first.shape))
}

// *a then b*, "a first". 10, 11.
pub fn compose(a: Plan, b: Plan) -> Result<Plan, Refusal>
    requires { (is_plan a ≡ true) × (is_plan b ≡ true) }
    ensures { result ≡ composing a b }
{
    if a.shape() != b.shape() {
        return Err(Refusal::ShapesDiffer);
    }
    composed(&a, &b)
}

// The inverse: what is kept of the columns exchanged.
pub fn inverse(a: Plan) -> Plan
    requires { is_plan a ≡ true }
    ensures { Ok result ≡ making (inverted (plan_of a)) }
{
    let from = a.to;
    let to = a.from;
    keeping::keep(Plan { from, to, ..a })
}

// The plan that moves nothing: each belt to itself.
fn identity(shape: Shape) -> Plan
    requires { T (shape_in_range (the_shape shape)) }
    ensures { result ≡ packed (identity_plan (the_shape shape)) }
{
    let digits: [u64; 9] = [1, 2, 3, 4, 5, 6, 7, 8, 9];
    let belts = &digits[..shape.roots as usize];
    filled(belts, belts, shape)
}

// A plan n times in a row.
fn repeat(a: Plan, n: u32) -> Result<Plan, Refusal>
    requires { is_plan a ≡ true }
    ensures { result ≡ repeating (plan_of a) n }
{
    let mut power = identity(a.shape());
    for _ in 0..n {
        power = composed(&power, &a)?;
    }
    Ok(power)
}

// Whether a number is one that a plan is raised to: 12 is given otherwise.
pub fn is_power(k: i32) -> bool
    ensures { result ≡ power_in_range k }
{
    k.unsigned_abs() <= MAX_POWER
}

// A power; "below zero, the power −k of the inverse". 12, 11.
pub fn power(a: Plan, k: i32) -> Result<Plan, Refusal>
    requires { is_plan a ≡ true }
    ensures { result ≡ making (powered (plan_of a) k) }
{
    if !is_power(k) {
        return Err(Refusal::PowerOutside);
    }
    let size = k.unsigned_abs();
    if k < 0 {
        let back = inverse(a);
        repeat(back, size)
    } else {
        repeat(a, size)
    }
}
