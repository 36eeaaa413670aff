// The plan that stands where there is none.
ghost use Rattle.std.specs.Prelude.{◌≡◌};
ghost use Rattle.operations.specs.Plans.{blank};

use crate::{MAX_PAIRS, Plan};

// No plan: what a program in C is handed back by a call that refuses, and what a desk has beside an empty slot.
#[tactic(auto, unfolding(crate::specs::Plans::blank, higman::specs::Limits::max_pairs))]
pub fn blank() -> Plan
    ensures { result ≡ blank }
{
    Plan {
        arity: 0,
        roots: 0,
        pairs: 0,
        from: [0u64; MAX_PAIRS],
        to: [0u64; MAX_PAIRS],
    }
}
