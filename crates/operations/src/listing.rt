// Listing a plan (document 01, "Records": "L .. lists the plan as P, M and E records") for a slot's letter into a lent buffer.
ghost use Rattle.std.specs.Prelude.{◌≡◌, length};
ghost use Rattle.higman.specs.Listing.{is_slot};
ghost use Rattle.operations.specs.Plans.{lent_plan};
ghost use Rattle.operations.specs.Listing.{listing_for, listed_for};

use crate::Lent;
use crate::refusals::Refusal;

// Whether a byte names a slot, A to H.
pub fn is_slot(slot: u8) -> bool
    ensures { result ≡ is_slot slot }
{
    (b'A'..=b'H').contains(&slot)
}

// Writes the listing at the front of the buffer, and returns the number of its bytes. 8, 14.
pub fn list(slot: u8, plan: Lent, out: &mut [u8]) -> Result<usize, Refusal>
    ensures value { result ≡ listing_for slot (lent_plan plan.entry) (length out.old) }
    ensures out_after { out.new ≡ listed_for slot (lent_plan plan.entry) out.old }
{
    if !is_slot(slot) {
        return Err(Refusal::SlotOutside);
    }
    if out.len() < tables::list::listing_length(plan.from, plan.to) {
        return Err(Refusal::BufferTooShort);
    }
    Ok(tables::list::list_into(slot, plan.shape, plan.from, plan.to, out))
}
