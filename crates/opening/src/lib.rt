// The records that open a plan and add to it (document 01, "Records": "P⇥slot⇥n⇥r opens a plan. M⇥from⇥to adds a pair. Neither replies
// when accepted."). (kept: a head and its columns side by side, as `slots::Head` says.)
#![tactic(auto)]

ghost use Rattle.std.specs.Prelude.{◌≡◌, OnErr};
ghost use Rattle.desk.specs.Records.{P, M};
ghost use Rattle.slots.specs.Desks.{HoldsDesk};
ghost use Rattle.slots.specs.Works.{HeadOfDesk, DoneByHead, DoneSilently, work_of};

use operations::MAX_PAIRS;
use operations::refusals::Refusal;
use slots::{BLOCK, DRAFT, Head, Refused, Reply, Size};
use words::Shape;

// P: 2, 8, 20, 3.
pub fn open(head: &mut Head, slot: u8, shape: Shape) -> Result<Reply, Refused>
    requires { HeadOfDesk head.old }
    ensures done { DoneByHead (P slot shape.arity shape.roots) head.old (work_of head.new result) }
    ensures kept { OnErr result (head.new ≡ head.old) }
{
    slots::admission(head, &[], &[slot])?;
    if !shape.is_in_range() {
        return Err(Refusal::ShapeOutside.into());
    }
    head.sizes[DRAFT] = Size {
        arity: shape.arity,
        roots: shape.roots,
        pairs: 0,
    };
    head.draft = Some(slots::slot_number(slot) as u8);
    Ok(Reply::Silent)
}

// M: 2, 4, 5.
pub fn pair(head: &mut Head, columns: &mut [u64], from: &[u8], to: &[u8]) -> Result<Reply, Refused>
    requires { HoldsDesk head.old columns.old }
    ensures done { DoneSilently (M from.now to.now) head.old columns.old (work_of head.new result) columns.new }
    ensures kept { OnErr result (head.new ≡ head.old) }
{
    if head.draft.is_none() {
        return Err(Refusal::WrongState.into());
    }
    let size = head.sizes[DRAFT];
    let shape = size.shape();
    let from_word = words::read(from, shape).ok_or(Refusal::BadWord)?;
    let to_word = words::read(to, shape).ok_or(Refusal::BadWord)?;
    if MAX_PAIRS <= size.pairs {
        return Err(Refusal::PairsFull.into());
    }
    let from_at = DRAFT * BLOCK + size.pairs;
    columns[from_at] = from_word;
    columns[from_at + MAX_PAIRS] = to_word;
    head.sizes[DRAFT].pairs += 1;
    Ok(Reply::Silent)
}
