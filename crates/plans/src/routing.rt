// Matching and routing a code by a value (document 01, "Records": "W .. `ok⇥` and the image", and "Forms"): 15, and then what the crate
// `operations` does with the columns that a plan lends.
ghost use Rattle.std.specs.Prelude.{◌≡◌, length};
ghost use Rattle.tables.specs.Routing.{further, at_place};
ghost use Rattle.plans.specs.Routing.{matched, matching, matched_place, routing, routed_buffer};

use crate::kept;
use operations::refusals::Refusal;
use operations::{Match, Plan, Route, routing};

// The unmatched tail, as a part of the parcel's code, and the place of the from-word that begins the code, counted from 1; the whole code
// and no place where no from-word begins it, or 15 or 4 applies.
pub fn unmatched<'a>(p: Plan, code: &'a [u8]) -> Match<'a>
    ensures tail { result.tail.now ≡ matching p code.now }
    ensures tail_ref_ptr { result.tail.ref_ptr ≡ further (matched p code.now) code.entry.ref_ptr }
    ensures place { result.place ≡ at_place (matched_place p code.now) }
{
    let Ok(plan) = kept::lent(&p) else {
        return Match {
            tail: code,
            place: None,
        };
    };
    routing::unmatched(plan.shape, plan.from, code)
}

// The route of a single code: writes its image at the front of the buffer, and tells the place of the pair. 15, 4, 13, 14.
pub fn route(p: Plan, code: &[u8], out: &mut [u8]) -> Route
    ensures value { result ≡ routing p code.now (length out.old) }
    ensures out_after { out.new ≡ routed_buffer p code.now out.old }
{
    let Ok(plan) = kept::lent(&p) else {
        return Route::Refused(Refusal::InvalidValue);
    };
    routing::route(plan, code, out)
}
