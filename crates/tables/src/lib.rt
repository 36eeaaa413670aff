// Tables of packed words beneath the library of plans (document 01, "Plans"): the joins that are found, reduction as recursion over blocks,
// the check that nothing is left to reduce, the pairs of a composition, matching and routing, listings and the lines of pairs, over two
// columns that the caller lends. These functions may ask something of their callers; the calls of the crate `plans` ask nothing. The
// contracts cite `higman` through the words that packed numbers hold.
#![tactic(auto)]

pub mod joinable;
pub mod list;
pub mod normal;
pub mod pairs;
pub mod reduce;
pub mod routing;
pub mod spreading;

pub use pairs::Pairs;
