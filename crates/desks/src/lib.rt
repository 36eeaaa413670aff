// Whether a head and columns that somebody made hold a desk (document 01, "When each operation says no": "a plan or desk handed in isn't
// one as described above"): each slot holds a kept plan or nothing, an open plan is one as P and M make it, station, counts and rights are
// in their ranges, and the stored sum is that of the pairs in the slots.
// (kept: a head and its columns side by side, as `slots::Head` says.)
#![tactic(auto)]

ghost use Rattle.std.specs.Prelude.{◌≡◌, ◌≤◌};
ghost use Rattle.higman.specs.Limits.{max_pairs};
ghost use Rattle.slots.specs.Desks.{draft_block};
ghost use Rattle.slots.specs.Blocks.{InColumns, size_at, value_at};
ghost use Rattle.desks.specs.Tested.{slot_test, slots_test, open_test, FewPairs, sizes_sum, counts_test, row_test, rights_test};
ghost use Rattle.desks.specs.Tested.{control_test, holds_test};

use operations::{MAX_PAIRS, Plan};
use plans::drafts;
use slots::{Control, DRAFT, Desk, Head, MAX_CHANGES, SLOTS, STATIONS, blocks, rights};

// Whether a slot may hold a value: a kept plan, or no pairs and no words.
fn is_held(value: Plan) -> bool
    ensures { result ≡ slot_test value }
{
    if value.pairs == 0 {
        return drafts::are_zeros(&value.from) && drafts::are_zeros(&value.to);
    }
    plans::kept::is_plan(value)
}

// Whether an open plan, if there is one, is as P and M make one.
fn is_open_plan(head: Head, columns: &[u64]) -> bool
    requires in_columns { InColumns draft_block columns.now }
    requires draft_block_bound { (size_at head draft_block).pairs ≤ max_pairs }
    ensures { result ≡ open_test head (value_at head columns.now draft_block) }
{
    let Some(slot) = head.draft else {
        return true;
    };
    let size = head.sizes[DRAFT];
    let shape = size.shape();
    let (from, to) = blocks::pairs(columns, DRAFT, size.pairs);
    (slot as usize) < SLOTS
        && shape.is_in_range()
        && drafts::are_words(from, shape)
        && drafts::are_words(to, shape)
}

// Whether each slot holds a kept plan or nothing.
fn are_slots(head: Head, columns: &[u64]) -> bool
    requires { InColumns draft_block columns.now }
    ensures { result ≡ slots_test head columns.now }
{
    (0..SLOTS).all(|slot| is_held(blocks::value(head, columns, slot)))
}

// The pairs of all slots. Their sizes are added where the slots have been tested, so that no sum runs over.
fn sum(head: Head) -> usize
    requires { FewPairs head }
    ensures { result ≡ sizes_sum head }
{
    head.sizes[..SLOTS].iter().map(|size| size.pairs).sum()
}

// Whether no count is over the limit, whether or not its station is named.
fn are_counts(changes: [u32; STATIONS]) -> bool
    ensures { result ≡ counts_test changes }
{
    changes.iter().all(|&n| n <= MAX_CHANGES)
}

// Whether a station's rights on the slots are at most 2.
#[tactic(auto, unfolding(higman::specs::Limits::slot_count))]
fn is_row(row: u16) -> bool
    ensures { result ≡ row_test row }
{
    (0..SLOTS).all(|slot| rights::at(row, slot) <= rights::WRITE)
}

// Whether the rights of all stations are.
fn are_rights(rows: [u16; STATIONS - 1]) -> bool
    ensures { result ≡ rights_test rows }
{
    rows.iter().all(|&row| is_row(row))
}

// Whether a control block is as a desk keeps one.
fn is_control(control: Control) -> bool
    ensures { result ≡ control_test control }
{
    (control.station as usize) < STATIONS
        && are_counts(control.changes)
        && are_rights(control.rights)
}

// "a .. desk handed in isn't one as described above": whether it is one.
pub fn is_desk(desk: Desk) -> bool
    ensures { result ≡ holds_test desk.head desk.columns }
{
    let head = desk.head;
    is_control(head.control)
        && head.sizes[DRAFT].pairs <= MAX_PAIRS
        && is_open_plan(head, &desk.columns)
        && are_slots(head, &desk.columns)
        && head.control.pairs as usize == sum(head)
}
