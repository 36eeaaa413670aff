// The records that change nothing (document 01, "Records"): S compares, W routes, L lists, T counts, U surveys, and H tells the pairs held
// (change request E8). Each gives its reply alone. A slot's plan is lent in parts of the columns, and none is copied. What W, L and U reply
// is written into the output where it is found, and told by its length. (kept: a head and its columns side by side, as `slots::Head` says.)
#![tactic(auto)]

ghost use Rattle.std.specs.Prelude.{◌≡◌, true};
ghost use Rattle.higman.specs.Listing.{is_slot};
ghost use Rattle.desk.specs.Records.{Record, S, W, L, T, U};
ghost use Rattle.slots.specs.Desks.{HoldsDesk};
ghost use Rattle.slots.specs.Works.{HeadOfDesk, Tells, TellsSilently, TellsByHead};
ghost use Rattle.words.specs.Writing.{Wrote};
ghost use Rattle.asking.specs.Asked.{Asked, LentIn, AskedOfFront, block_reply, AskedByHead, TellsByHeadInto};

use operations::refusals::Refusal;
use operations::{Lent, Route, comparing, listing, routing};
use slots::{Head, Refused, Reply, SLOTS, blocks};

mod arranging;

// The bytes in front of W's image, `ok` and a tab: `image_at` of replies' Lines.antt.
const IMAGE_AT: usize = 3;

// The plan in the slot that a byte names, lent where it lies. 9.
fn plan_in<'a>(head: &Head, columns: &'a [u64], slot: u8) -> Result<Lent<'a>, Refusal>
    requires holds { HoldsDesk head.now columns.now }
    requires named { is_slot slot ≡ true }
    ensures { LentIn head.now columns.now slot result }
{
    let i = slots::slot_number(slot);
    let size = head.sizes[i];
    if size.pairs == 0 {
        return Err(Refusal::SlotEmpty);
    }
    let shape = size.shape();
    let (from, to) = blocks::pairs(columns, i, size.pairs);
    Ok(Lent { shape, from, to })
}

// S: 2, 8, 20, 9, 10. "`ok⇥1` if the plans act alike, else `ok⇥0`".
pub fn compare(head: &Head, columns: &[u64], a: u8, b: u8) -> Result<Reply, Refused>
    requires { HoldsDesk head.now columns.now }
    ensures { TellsSilently (S a b) head.now columns.now result }
{
    slots::admission(head, &[a, b], &[])?;
    let first = plan_in(head, columns, a)?;
    let second = plan_in(head, columns, b)?;
    let alike = comparing::same(first, second)?;
    Ok(Reply::Number(alike as u32))
}

// W of a code that no from-word begins (change request E1): "one line `B⇥from⇥to` for every pair whose from-word extends the code, in
// from order, and closes with `ok⇥` and how many", each line with its place (change request E7). Such a code has fewer digits than a plan
// word may have, so that `front` packs all of it.
fn write_block(plan: Lent, code: &[u8], out: &mut [u8]) -> usize
    requires { AskedOfFront plan code.now out.old }
    ensures { Wrote (block_reply plan.entry.from.now plan.entry.to.now code.now) out.old 0 out.new result }
{
    let run = columns::extending(plan.from, tables::routing::front(code));
    let start = run.start;
    let end = run.end;
    let used = tables::list::block_lines(
        &plan.from[start..end],
        &plan.to[start..end],
        start + 1,
        out,
        0,
    );
    replies::ok_number((end - start) as u32, out, used)
}

// W: 2, 8, 20, 9, 4. "`ok⇥` and the image", and the place of its pair: the image first, into where it stands in the line, and then the line
// around it. Where there is none, the block.
pub fn route(
    head: &Head,
    columns: &[u64],
    a: u8,
    code: &[u8],
    out: &mut [u8],
) -> Result<Reply, Refused>
    requires { Asked head.now columns.now out.old }
    ensures { Tells (W a code.now) head.now columns.now out.old result out.new }
{
    slots::admission(head, &[a], &[])?;
    let plan = plan_in(head, columns, a)?;
    match routing::route(plan, code, &mut out[IMAGE_AT..]) {
        Route::Image(image) => Ok(Reply::Written(replies::ok_image(
            image.length,
            image.place,
            out,
        ))),
        Route::TooShort => Ok(Reply::Written(write_block(plan, code, out))),
        Route::Refused(refusal) => Err(refusal.into()),
    }
}

// L: 2, 8, 20, 9. "lists the plan as P, M and E records".
pub fn list(head: &Head, columns: &[u64], a: u8, out: &mut [u8]) -> Result<Reply, Refused>
    requires { Asked head.now columns.now out.old }
    ensures { Tells (L a) head.now columns.now out.old result out.new }
{
    slots::admission(head, &[a], &[])?;
    let plan = plan_in(head, columns, a)?;
    let used = listing::list(a, plan, out)?;
    Ok(Reply::Written(used))
}

// T: 2. "`ok⇥` and the count".
pub fn count(head: &Head) -> Result<Reply, Refused>
    requires { HeadOfDesk head.now }
    ensures { TellsByHead T head.now result }
{
    slots::admission(head, &[], &[])?;
    Ok(Reply::Number(slots::count(head)))
}

// H: 2, 19. "a record H from station 0 give it as `ok⇥` and the number": the sum as it is stored.
pub fn sum(head: &Head) -> Result<Reply, Refused>
    ensures { TellsByHead Record.H head.now result }
{
    if head.draft.is_some() {
        return Err(Refusal::WrongState.into());
    }
    if head.control.station != 0 {
        return Err(Refusal::StationRefused.into());
    }
    Ok(Reply::Number(head.control.pairs as u32))
}

// U: 2. "`slot⇥n⇥r⇥pairs` for each held slot .. then `ok⇥` and how many", in the order of change request E2, and of readable slots alone
// (change request E6).
pub fn survey(head: &Head, out: &mut [u8]) -> Result<Reply, Refused>
    requires { AskedByHead head.now out.old }
    ensures { TellsByHeadInto U head.now out.old result out.new }
{
    slots::admission(head, &[], &[])?;
    let mut order = [0usize; SLOTS];
    let held = arranging::arrange(head, &mut order);
    let mut used = 0;
    for &slot in &order[..held] {
        let size = head.sizes[slot];
        used = replies::held(b'A' + slot as u8, size.shape(), size.pairs, out, used);
    }
    used = replies::ok_number(held as u32, out, used);
    Ok(Reply::Written(used))
}
