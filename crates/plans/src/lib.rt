// The library of plans (document 01, "Plans"). A plan is two columns of packed words; the calls judge drafts, keep, follow, invert,
// repeat, compare and list plans, and route codes by them. Each takes any value and refuses what is no plan: its promise is one equality
// with an answer of the crate `higman`, through the words that the packed numbers hold, and one with what a lent buffer then holds.
#![tactic(auto)]

pub mod comparing;
pub mod drafts;
pub mod following;
pub mod kept;
pub mod listing;
pub mod routing;

pub use operations::refusals::Refusal;
pub use operations::{Column, Fault, Image, Match, Plan, Reason, Route};

// Why a draft is not accepted.
#[derive(Clone, Copy, PartialEq, Eq, Debug)]
pub enum Rejection {
    // no shape, too many pairs, no words, or something behind the pairs
    NotADraft,
    // "the verdict on a plan names the column and, within it, the reason"
    Faulty(Fault),
}

impl From<Fault> for Rejection {
    ghost use Rattle.std.specs.Prelude.{◌≡◌};
    ghost use Rattle.plans.specs.declared.Rejection.TheVariants.{Faulty};

    ghost from_gives = { λ fault rejection. rejection ≡ Faulty fault };

    fn from(fault: Fault) -> Rejection {
        Rejection::Faulty(fault)
    }
}
