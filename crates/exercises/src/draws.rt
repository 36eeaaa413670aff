// The generator (change request E3): "The next draw is 16807 times the last, modulo 2147483647".
ghost use Rattle.std.specs.Prelude.{◌≡◌, T};
ghost use Rattle.higman.specs.Limits.{seed_in_range};
ghost use Rattle.higman.specs.Exercises.{next_draw};

// Park and Miller's numbers. A draw has 31 bits and the multiplier has 15, so that 64 are enough for the product.
const MULTIPLIER: u64 = 16_807;

const MODULUS: u64 = 2_147_483_647;

// The last seed, and the highest draw.
const MAX_SEED: u64 = MODULUS - 1;

// Whether a number is a seed: 17 is given otherwise.
#[tactic(auto, unfolding(higman::specs::Limits::seed_in_range))]
pub fn is_seed(seed: u64) -> bool
    ensures { result ≡ seed_in_range seed }
{
    (1..=MAX_SEED).contains(&seed)
}

// The draw that follows a seed or a draw.
#[tactic(auto, using(higman::proofs::Draws::seed_of_test), unfolding(higman::specs::Exercises::next_draw))]
pub fn next(last: u64) -> u64
    requires { T (seed_in_range last) }
    ensures { result ≡ next_draw last }
{
    MULTIPLIER * last % MODULUS
}
