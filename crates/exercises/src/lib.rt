// Plans made by numbers (change request E3, "Load to exercise a new line"): from the belts by splits and a shuffle that a generator draws,
// reduced and kept. `make` promises an equality with `exercise` of the crate `higman`, for every number of splits and every seed.
#![tactic(auto)]

ghost use Rattle.std.specs.Prelude.{◌≡◌, T};
ghost use Rattle.higman.specs.Limits.{shape_in_range};
ghost use Rattle.higman.specs.Exercises.{exercise};
ghost use Rattle.words.specs.Bytes.{shape_of};
ghost use Rattle.operations.specs.Answers.{making};

use operations::refusals::Refusal;
use operations::{MAX_PAIRS, Plan, keeping};
use words::Shape;

pub mod draws;
pub mod shuffles;
pub mod splits;

// The plan of a shape, a number of splits and a seed. 17; 5, by the number of pairs and before any draw; 4, as soon as a word is too long.
pub fn make(shape: Shape, splits: u8, seed: u64) -> Result<Plan, Refusal>
    requires { T (shape_in_range (shape_of shape)) }
    ensures { result ≡ making (exercise (shape_of shape) splits seed) }
{
    if !draws::is_seed(seed) {
        return Err(Refusal::SeedOutside);
    }
    let pairs = shape.roots as usize + splits as usize * (shape.arity as usize - 1);
    if MAX_PAIRS < pairs {
        return Err(Refusal::PairsFull);
    }
    let from = splits::grow(shape, splits, seed)?;
    let to = splits::grow(shape, splits, from.last)?;
    let values = shuffles::shuffle(to.words, pairs, to.last);
    let plan = keeping::keep_sorted(&from.words[..pairs], &values[..pairs], shape);
    Ok(plan)
}
