// The records that keep a plan or empty a slot (document 01, "Records"): "E, F, I, K and C raise the count by one", and so does X (change
// request E3). Each of them is refused where the count is at its limit. "Operands are read before c is written, so letters may repeat."
// (kept: a head and its columns side by side, as `slots::Head` says.)
#![tactic(auto)]

ghost use Rattle.std.specs.Prelude.{◌≡◌, true, false, OnErr};
ghost use Rattle.higman.specs.Listing.{is_slot};
ghost use Rattle.desk.specs.Records.{E, F, I, K, C, X};
ghost use Rattle.slots.specs.Desks.{desk_of, HoldsDesk};
ghost use Rattle.slots.specs.Works.{DoneSilently, work_of};
ghost use Rattle.changing.specs.Filling.{Fillable, head_of, filled, filled_columns, Keepable, DoneKeeping};
ghost use Rattle.changing.specs.Operands.{ReadOf};

use operations::refusals::Refusal;
use operations::{Plan, answers, closing, following};
use slots::{DRAFT, Head, Refused, Reply, Size, blocks};
use words::Shape;

// A plan, or no plan, put into a slot: one change, by which the pairs that the slot held are lost and those of the plan kept. 16.
#[tactic(auto, using(slots::proofs::Held::slots_eight))]
fn fill(head: &mut Head, columns: &mut [u64], i: usize, plan: Plan) -> Result<(), Refused>
    requires { Fillable head.old columns.old i plan }
    ensures value { head_of head.new result ≡ filled head.old i plan }
    ensures kept { OnErr result (head.new ≡ head.old) }
    ensures columns_after { columns.new ≡ filled_columns head.old columns.old i plan }
{
    if slots::is_full(head) {
        return Err(Refusal::CountFull.into());
    }
    blocks::put(columns, i, plan);
    head.control = slots::noted(head.control, head.sizes[i].pairs, plan.pairs);
    head.sizes[i] = Size {
        arity: plan.arity,
        roots: plan.roots,
        pairs: plan.pairs,
    };
    head.draft = None;
    Ok(())
}

// A plan kept in a slot. 16.
fn keep(head: &mut Head, columns: &mut [u64], i: usize, plan: Plan) -> Result<Reply, Refused>
    requires { Keepable head.old columns.old i plan }
    ensures done { DoneKeeping head.old i plan columns.old (work_of head.new result) columns.new }
    ensures kept { OnErr result (head.new ≡ head.old) }
{
    fill(head, columns, i, plan)?;
    Ok(Reply::Number(plan.pairs as u32))
}

// E: 2, 6 and 7 of the from column, 6 and 7 of the to column, 16.
pub fn close(head: &mut Head, columns: &mut [u64]) -> Result<Reply, Refused>
    requires { HoldsDesk head.old columns.old }
    ensures done { DoneSilently E head.old columns.old (work_of head.new result) columns.new }
    ensures kept { OnErr result (head.new ≡ head.old) }
{
    let slot = head.draft.ok_or(Refusal::WrongState)?;
    let draft = blocks::value(*head, columns, DRAFT);
    let plan = closing::close(&draft)?;
    keep(head, columns, slot as usize, plan)
}

// The plan in a slot that a record reads. 9.
fn operand(head: &Head, columns: &[u64], a: u8) -> Result<Plan, Refused>
    requires holds_desk { HoldsDesk head.now columns.now }
    requires a_value { is_slot a ≡ true }
    ensures { ReadOf (desk_of head.now columns.now) a result }
{
    let plan = blocks::value(*head, columns, slots::slot_number(a));
    if plan.pairs == 0 {
        return Err(Refusal::SlotEmpty.into());
    }
    Ok(plan)
}

// F: 2, 8, 20, 9, 10, 11, 16.
pub fn follow(head: &mut Head, columns: &mut [u64], a: u8, b: u8, c: u8) -> Result<Reply, Refused>
    requires { HoldsDesk head.old columns.old }
    ensures done { DoneSilently (F a b c) head.old columns.old (work_of head.new result) columns.new }
    ensures kept { OnErr result (head.new ≡ head.old) }
{
    slots::admission(head, &[a, b], &[c])?;
    let first = operand(head, columns, a)?;
    let second = operand(head, columns, b)?;
    let plan = following::compose(first, second)?;
    keep(head, columns, slots::slot_number(c), plan)
}

// I: 2, 8, 20, 9, 16.
pub fn invert(head: &mut Head, columns: &mut [u64], a: u8, c: u8) -> Result<Reply, Refused>
    requires { HoldsDesk head.old columns.old }
    ensures done { DoneSilently (I a c) head.old columns.old (work_of head.new result) columns.new }
    ensures kept { OnErr result (head.new ≡ head.old) }
{
    slots::admission(head, &[a], &[c])?;
    let plan = operand(head, columns, a)?;
    keep(
        head,
        columns,
        slots::slot_number(c),
        following::inverse(plan),
    )
}

// K: 2, 8, 20, 12, 9, 11, 16.
pub fn power(head: &mut Head, columns: &mut [u64], a: u8, k: i32, c: u8) -> Result<Reply, Refused>
    requires { HoldsDesk head.old columns.old }
    ensures done { DoneSilently (K a k c) head.old columns.old (work_of head.new result) columns.new }
    ensures kept { OnErr result (head.new ≡ head.old) }
{
    slots::admission(head, &[a], &[c])?;
    if !following::is_power(k) {
        return Err(Refusal::PowerOutside.into());
    }
    let plan = operand(head, columns, a)?;
    let raised = following::power(plan, k)?;
    keep(head, columns, slots::slot_number(c), raised)
}

// X: 2, 8, 20, 3, 17, 5, 4, 16.
pub fn exercise(
    head: &mut Head,
    columns: &mut [u64],
    slot: u8,
    shape: Shape,
    splits: u8,
    seed: u64,
) -> Result<Reply, Refused>
    requires { HoldsDesk head.old columns.old }
    ensures done { DoneSilently (X slot shape.arity shape.roots splits seed) head.old columns.old (work_of head.new result) columns.new }
    ensures kept { OnErr result (head.new ≡ head.old) }
{
    slots::admission(head, &[], &[slot])?;
    if !shape.is_in_range() {
        return Err(Refusal::ShapeOutside.into());
    }
    let plan = exercises::make(shape, splits, seed)?;
    keep(head, columns, slots::slot_number(slot), plan)
}

// C: 2, 8, 20, 9, 16.
pub fn empty(head: &mut Head, columns: &mut [u64], a: u8) -> Result<Reply, Refused>
    requires { HoldsDesk head.old columns.old }
    ensures done { DoneSilently (C a) head.old columns.old (work_of head.new result) columns.new }
    ensures kept { OnErr result (head.new ≡ head.old) }
{
    slots::admission(head, &[], &[a])?;
    let i = slots::slot_number(a);
    if head.sizes[i].pairs == 0 {
        return Err(Refusal::SlotEmpty.into());
    }
    fill(head, columns, i, answers::blank())?;
    Ok(Reply::Ok)
}
