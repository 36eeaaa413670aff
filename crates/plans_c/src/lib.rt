// The library of plans for programs in C and Rust: the calls of the crate `plans` under names of their own, with numbers in the place of
// enums. Number 0 stands for a job done, and a refusal has document 01's number. A slice is passed as a pointer and a length.
#![tactic(auto)]

ghost use Rattle.std.specs.Prelude.{◌≡◌, length};
ghost use Rattle.operations.specs.Plans.{is_plan};
ghost use Rattle.plans.specs.Answers.{judged, keeping, following, inverting, raising, alike};
ghost use Rattle.plans.specs.Routing.{matching, matched_place, routing, routed_buffer};
ghost use Rattle.plans.specs.Listing.{listing_answer, listed_buffer};
ghost use Rattle.plans_c.specs.Numbers.{verdict_of, kept_of, made_of, compared_of, matched_of, routed_of, listed_of};

use operations::answers::blank;
use plans::{Column, Fault, Plan, Refusal, Rejection, Route};

// The verdict on a draft: 0 for an accepted one, and the letter of the column, F or T, beside 6 and 7.
#[repr(C)]
#[derive(Drop)]
pub struct Verdict {
    pub number: u8,
    pub column: u8,
}

// A verdict, and the plan kept where it is 0.
#[repr(C)]
#[derive(Drop)]
pub struct Kept {
    pub number: u8,
    pub column: u8,
    pub plan: Plan,
}

// The plan made where the number is 0.
#[repr(C)]
#[derive(Drop)]
pub struct Made {
    pub number: u8,
    pub plan: Plan,
}

// Whether two plans act alike, where the number is 0.
#[repr(C)]
#[derive(Drop)]
pub struct Compared {
    pub number: u8,
    pub alike: bool,
}

// How many bytes stand at the front of the buffer, where the number is 0.
#[repr(C)]
#[derive(Drop)]
pub struct Written {
    pub number: u8,
    pub length: usize,
}

// The match of a code: how many of its digits are left, and the place of the pair whose from-word begins it, 0 where none does.
#[repr(C)]
#[derive(Drop)]
pub struct Matched {
    pub tail: usize,
    pub place: usize,
}

// How many bytes of an image stand at the front of the buffer, and the place of the pair, where the number is 0.
#[repr(C)]
#[derive(Drop)]
pub struct Routed {
    pub number: u8,
    pub length: usize,
    pub place: usize,
}

impl From<Result<(), Rejection>> for Verdict {
    ghost from_gives = { λ judgement verdict. verdict ≡ verdict_of judgement };

    fn from(judgement: Result<(), Rejection>) -> Verdict {
        match judgement {
            Ok(()) => Verdict {
                number: 0,
                column: 0,
            },
            Err(Rejection::NotADraft) => Verdict {
                number: Refusal::InvalidValue.into(),
                column: 0,
            },
            Err(Rejection::Faulty(Fault::InFrom(reason))) => Verdict {
                number: Refusal::from(reason).into(),
                column: Column::From.into(),
            },
            Err(Rejection::Faulty(Fault::InTo(reason))) => Verdict {
                number: Refusal::from(reason).into(),
                column: Column::To.into(),
            },
        }
    }
}

impl From<Result<Plan, Rejection>> for Kept {
    ghost from_gives = { λ keeping kept. kept ≡ kept_of keeping };

    fn from(keeping: Result<Plan, Rejection>) -> Kept {
        match keeping {
            Ok(plan) => Kept {
                number: 0,
                column: 0,
                plan,
            },
            Err(rejection) => {
                let verdict = Verdict::from(Err(rejection));
                Kept {
                    number: verdict.number,
                    column: verdict.column,
                    plan: blank(),
                }
            }
        }
    }
}

impl From<Result<Plan, Refusal>> for Made {
    ghost from_gives = { λ making made. made ≡ made_of making };

    fn from(making: Result<Plan, Refusal>) -> Made {
        match making {
            Ok(plan) => Made { number: 0, plan },
            Err(refusal) => Made {
                number: refusal.into(),
                plan: blank(),
            },
        }
    }
}

impl From<Result<bool, Refusal>> for Compared {
    ghost from_gives = { λ likeness compared. compared ≡ compared_of likeness };

    fn from(likeness: Result<bool, Refusal>) -> Compared {
        match likeness {
            Ok(alike) => Compared { number: 0, alike },
            Err(refusal) => Compared {
                number: refusal.into(),
                alike: false,
            },
        }
    }
}

impl From<Route> for Routed {
    ghost from_gives = { λ route routed. routed ≡ routed_of route };

    fn from(route: Route) -> Routed {
        match route {
            Route::Image(image) => Routed {
                number: 0,
                length: image.length,
                place: image.place,
            },
            Route::TooShort => Routed {
                number: Refusal::CodeTooShort.into(),
                length: 0,
                place: 0,
            },
            Route::Refused(refusal) => Routed {
                number: refusal.into(),
                length: 0,
                place: 0,
            },
        }
    }
}

impl From<Result<usize, Refusal>> for Written {
    ghost from_gives = { λ listed written. written ≡ listed_of listed };

    fn from(listed: Result<usize, Refusal>) -> Written {
        match listed {
            Ok(length) => Written { number: 0, length },
            Err(refusal) => Written {
                number: refusal.into(),
                length: 0,
            },
        }
    }
}

// The verdict on a draft.
#[unsafe(no_mangle)]
pub extern "C" fn plans_verdict(draft: Plan) -> Verdict
    ensures { result ≡ verdict_of (judged draft) }
{
    plans::drafts::verdict(draft).into()
}

// E: the verdict on a draft and the plan kept of it.
#[unsafe(no_mangle)]
pub extern "C" fn plans_keep(draft: Plan) -> Kept
    ensures { result ≡ kept_of (keeping draft) }
{
    plans::kept::keep(draft).into()
}

// Whether a value is a kept plan.
#[unsafe(no_mangle)]
pub extern "C" fn plans_is_plan(p: Plan) -> bool
    ensures { result ≡ is_plan p }
{
    plans::kept::is_plan(p)
}

// F: a and then b.
#[unsafe(no_mangle)]
pub extern "C" fn plans_follow(a: Plan, b: Plan) -> Made
    ensures { result ≡ made_of (following a b) }
{
    plans::following::follow(a, b).into()
}

// I: the inverse.
#[unsafe(no_mangle)]
pub extern "C" fn plans_inverse(a: Plan) -> Made
    ensures { result ≡ made_of (inverting a) }
{
    plans::following::inverse(a).into()
}

// K: a power.
#[unsafe(no_mangle)]
pub extern "C" fn plans_power(a: Plan, k: i32) -> Made
    ensures { result ≡ made_of (raising a k) }
{
    plans::following::power(a, k).into()
}

// S: whether two plans act alike.
#[unsafe(no_mangle)]
pub extern "C" fn plans_same(a: Plan, b: Plan) -> Compared
    ensures { result ≡ compared_of (alike a b) }
{
    plans::comparing::same(a, b).into()
}

// The length of the unmatched tail, for C has no part of a slice to hand back, and the place of the pair.
#[unsafe(no_mangle)]
pub extern "C" fn plans_unmatched(p: Plan, code: &[u8]) -> Matched
    ensures { result ≡ matched_of (matching p code.now) (matched_place p code.now) }
{
    let matched = plans::routing::unmatched(p, code);
    Matched {
        tail: matched.tail.len(),
        place: matched.place.unwrap_or(0),
    }
}

// The route of a single code: its image, and the place of the pair.
#[unsafe(no_mangle)]
pub extern "C" fn plans_route(p: Plan, code: &[u8], out: &mut [u8]) -> Routed
    ensures value { result ≡ routed_of (routing p code.now (length out.old)) }
    ensures out_after { out.new ≡ routed_buffer p code.now out.old }
{
    plans::routing::route(p, code, out).into()
}

// L: the listing of a plan for a slot's letter.
#[unsafe(no_mangle)]
pub extern "C" fn plans_list(p: Plan, slot: u8, out: &mut [u8]) -> Written
    ensures value { result ≡ listed_of (listing_answer p slot (length out.old)) }
    ensures out_after { out.new ≡ listed_buffer p slot out.old }
{
    plans::listing::list(p, slot, out).into()
}
