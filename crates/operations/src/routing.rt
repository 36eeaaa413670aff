// Matching and routing a code by the columns that a plan lends (document 01, "Records": "W .. `ok⇥` and the image", and "Forms"). The
// code is judged first; the work is done by the crate `tables`.
ghost use Rattle.std.specs.Prelude.{◌≡◌, length, drop};
ghost use Rattle.higman.specs.Limits.{is_code};
ghost use Rattle.higman.specs.Answers.{routed};
ghost use Rattle.higman.specs.Text.{word_of};
ghost use Rattle.words.specs.Bytes.{shape_of as the_shape};
ghost use Rattle.columns.specs.Packed.{words_of};
ghost use Rattle.tables.specs.Routing.{further, at_place};
ghost use Rattle.operations.specs.declared.lent.Lent.{Lent};
ghost use Rattle.operations.specs.Plans.{lent_plan};
ghost use Rattle.operations.specs.Routing.{matched_in, matched_place_in, routing_by, image_into};

use crate::refusals::Refusal;
use crate::{Lent, Route};
use tables::routing::{Match, RouteError};
use words::Shape;

// The digits that a routed code has at most: `max_code` of higman's Limits.antt.
const MAX_CODE: usize = 1024;

// Whether a code is one that a plan of the shape routes.
fn is_code(code: &[u8], shape: Shape) -> bool
    ensures { result ≡ is_code (the_shape shape) (word_of code.now) }
{
    code.len() <= MAX_CODE && words::spells(code, shape)
}

// The unmatched tail, as a part of the parcel's code, and the place of the from-word that begins the code, counted from 1; the whole code
// and no place where no from-word begins it, or 4 applies. The from-words alone are read, and asked to be those of some plan that is lent.
pub fn unmatched<'a>(shape: Shape, from: &[u64], code: &'a [u8]) -> Match<'a>
    requires { (plan : Lent) × (plan.shape ≡ shape) × (plan.from.now ≡ from.now) }
    ensures tail { result.tail.now ≡ drop (matched_in (the_shape shape) (words_of from.now) code.now) code.now }
    ensures tail_ref_ptr { result.tail.ref_ptr ≡ further (matched_in (the_shape shape) (words_of from.now) code.now) code.entry.ref_ptr }
    ensures place { result.place ≡ at_place (matched_place_in (the_shape shape) (words_of from.now) code.now) }
{
    if !is_code(code, shape) {
        return Match {
            tail: code,
            place: None,
        };
    }
    tables::routing::unmatched(from, code)
}

// Writes a code's image at the front of the buffer. 4, 13, 14.
pub fn route(plan: Lent, code: &[u8], out: &mut [u8]) -> Route
    ensures value { result ≡ routing_by (lent_plan plan.entry) (word_of code.now) (length out.old) }
    ensures out_after { out.new ≡ image_into (routed (lent_plan plan.entry) (word_of code.now)) out.old }
{
    if !is_code(code, plan.shape) {
        return Route::Refused(Refusal::BadWord);
    }
    match tables::routing::route_into(plan.from, plan.to, code, out) {
        Ok(image) => Route::Image(image),
        Err(RouteError::TooShort) => Route::TooShort,
        Err(RouteError::NoRoom) => Route::Refused(Refusal::BufferTooShort),
    }
}
