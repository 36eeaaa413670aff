// Listing a value (document 01, "Records": "L .. lists the plan as P, M and E records") for a slot's letter into a lent buffer: 15, and
// then the columns that a plan lends.
ghost use Rattle.std.specs.Prelude.{◌≡◌, length};
ghost use Rattle.plans.specs.Listing.{listing_answer, listed_buffer};

use crate::kept;
use operations::refusals::Refusal;
use operations::{Plan, listing};

// L: writes the listing at the front of the buffer, and returns the number of its bytes. 15, 8, 14.
pub fn list(p: Plan, slot: u8, out: &mut [u8]) -> Result<usize, Refusal>
    ensures value { result ≡ listing_answer p slot (length out.old) }
    ensures out_after { out.new ≡ listed_buffer p slot out.old }
{
    let plan = kept::lent(&p)?;
    listing::list(slot, plan, out)
}
