// A desk as one value, which programs in C and Rust hold (document 01, "Records"): the blocks of the slots and of the open plan with their
// sizes, the letter of the slot that an open plan is meant for, and the control block. Each desk is one value and no other (`DeskValues`):
// what is unused is zero, so that equal desks are equal field by field.
#![tactic(auto)]

ghost use Rattle.std.specs.Prelude.{◌≡◌, true, ◌≤◌};
ghost use Rattle.higman.specs.Limits.{max_pairs};
ghost use Rattle.operations.specs.Plans.{in_table};
ghost use Rattle.slots.specs.Desks.{desk_of, draft_of, HoldsDesk};
ghost use Rattle.desk_values.specs.Values.{opened_test, head_of, no_shape, size_test, sizes_test, blank_test, draft_test, is_desk_value};
ghost use Rattle.desk_values.specs.Values.{tidy_size, tidy_sizes, draft_value, opened_by, packed_desk};

use operations::{MAX_PAIRS, Plan, answers, following, listing};
use plans::drafts;
use slots::{BLOCKS, COLUMNS, Control, DRAFT, Head, SLOTS, Size, blocks};

// "The desk has slots A to H, at most one open plan, and a count of changes": the sizes and words of the slots and then of the open plan,
// and the letter of the slot that the open plan is meant for, 0 where none is open.
#[repr(C)]
#[derive(Clone, Copy)]
pub struct Desk {
    pub blocks: [Size; BLOCKS],
    pub opened: u8,
    pub control: Control,
    pub columns: [u64; COLUMNS],
}

// Whether a byte may say for which slot a plan is open.
fn is_opened(opened: u8) -> bool
    ensures { result ≡ opened_test opened }
{
    opened == 0 || listing::is_slot(opened)
}

// The head of a desk. (kept: no `From`, which could not ask that the byte names a slot or none.)
pub fn head_of(desk: Desk) -> Head
    requires { opened_test desk.opened ≡ true }
    ensures { result ≡ head_of desk }
{
    let draft = if desk.opened == 0 {
        None
    } else {
        Some(slots::slot_number(desk.opened) as u8)
    };
    let sizes = desk.blocks;
    let control = desk.control;
    Head {
        sizes,
        draft,
        control,
    }
}

fn has_no_shape(arity: u8, roots: u8) -> bool
    ensures { result ≡ no_shape arity roots }
{
    arity == 0 && roots == 0
}

// Whether a slot that holds no pairs has no shape either.
fn is_tidy(size: Size) -> bool
    ensures { result ≡ size_test size }
{
    size.pairs != 0 || has_no_shape(size.arity, size.roots)
}

fn are_tidy(sizes: [Size; BLOCKS]) -> bool
    ensures { result ≡ sizes_test sizes }
{
    sizes[..SLOTS].iter().all(|&size| is_tidy(size))
}

// "its unused places zero"
fn is_in_table(value: Plan) -> bool
    ensures { result ≡ in_table value }
{
    let n = value.pairs;
    n <= MAX_PAIRS && drafts::are_zeros(&value.from[n..]) && drafts::are_zeros(&value.to[n..])
}

// Whether a value is that of no plan.
fn is_blank(value: Plan) -> bool
    ensures { result ≡ blank_test value }
{
    value.pairs == 0 && has_no_shape(value.arity, value.roots) && is_in_table(value)
}

// Whether nothing stands in the block of the open plan but its pairs.
fn is_tidy_draft(opened: u8, value: Plan) -> bool
    ensures { result ≡ draft_test opened value }
{
    if opened == 0 {
        return is_blank(value);
    }
    is_in_table(value)
}

// "a plan or desk handed in isn't one as described above": whether it is one.
pub fn is_desk(desk: Desk) -> bool
    ensures { result ≡ is_desk_value desk }
{
    if !is_opened(desk.opened) {
        return false;
    }
    let head = head_of(desk);
    let columns = desk.columns;
    desks::is_desk(slots::Desk { head, columns })
        && are_tidy(desk.blocks)
        && is_tidy_draft(desk.opened, blocks::value(head, &columns, DRAFT))
}

// The size of what a slot holds, of which nothing is left where there are no pairs.
fn tidied(size: Size) -> Size
    ensures { result ≡ tidy_size size }
{
    if size.pairs == 0 {
        return Size {
            arity: 0,
            roots: 0,
            pairs: 0,
        };
    }
    size
}

fn tidied_sizes(sizes: [Size; BLOCKS], draft: Size) -> [Size; BLOCKS]
    ensures { result ≡ tidy_sizes sizes draft }
{
    let mut next = sizes.map(tidied);
    next[DRAFT] = draft;
    next
}

// The value of the open plan, with zeros behind its pairs, or of no plan. (kept: no `From`, which could neither take the columns beside the
// head nor ask that both hold a desk.)
fn draft_of(head: Head, columns: &[u64]) -> Plan
    requires { HoldsDesk head columns.now }
    ensures { result ≡ draft_value (draft_of head columns.now) }
{
    if head.draft.is_none() {
        return answers::blank();
    }
    let size = head.sizes[DRAFT];
    let n = size.pairs;
    let (from, to) = blocks::pairs(columns, DRAFT, n);
    Plan {
        arity: size.arity,
        roots: size.roots,
        pairs: n,
        from: following::padded(from, n),
        to: following::padded(to, n),
    }
}

// The letter of the slot that a plan is open for. (kept: no `From`, which could not ask that head and columns hold a desk.)
fn opened_by(head: Head, columns: &[u64]) -> u8
    requires { HoldsDesk head columns.now }
    ensures { result ≡ opened_by (draft_of head columns.now) }
{
    match head.draft {
        Some(slot) => b'A' + slot,
        None => 0,
    }
}

// The value of the desk that a head and its columns hold.
pub fn packed(head: Head, columns: [u64; COLUMNS]) -> Desk
    requires { HoldsDesk head columns }
    ensures { result ≡ packed_desk (desk_of head columns) }
{
    let mut words = columns;
    let draft = draft_of(head, &words);
    let opened = opened_by(head, &words);
    blocks::put(&mut words, DRAFT, draft);
    let size = Size {
        arity: draft.arity,
        roots: draft.roots,
        pairs: draft.pairs,
    };
    let held = head.sizes;
    let sizes = tidied_sizes(held, size);
    let control = head.control;
    Desk {
        blocks: sizes,
        opened: opened,
        control: control,
        columns: words,
    }
}
