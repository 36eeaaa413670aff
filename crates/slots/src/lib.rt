// The desk in code (document 01, "Records"): a small head that goes by value, and the columns of all plans, lent where they lie. What the
// two stand for is a desk of the crate `desk` (`desk_of`), and each function promises what the definitions give for it.
#![tactic(auto)]

ghost use Rattle.std.specs.Prelude.{◌≡◌, true, false};
ghost use Rattle.higman.specs.Listing.{is_slot, slot_number};
ghost use Rattle.higman.specs.Bases.{all};
ghost use Rattle.desk.specs.Desk.{fresh_control, count_in, right_of, IsControl};
ghost use Rattle.slots.specs.Blocks.{noted_in, named_in, given_in};
ghost use Rattle.slots.specs.Desks.{control_of, full_in, Countable, RightAsked, RightGiven, RightsAsked, allowed_in};
ghost use Rattle.slots.specs.Works.{HeadOfDesk, AdmittedAs};

use operations::refusals::Refusal;
use operations::{Column, Fault, listing};
use words::Shape;

pub mod blocks;
pub mod rights;

// The words of a block: a column of from-words and a column of to-words.
pub const BLOCK: usize = 256;

// The words of all blocks: one for each of the eight slots, and one for the open plan.
pub const COLUMNS: usize = 2304;

// The blocks, and the one of the open plan.
pub const BLOCKS: usize = 9;

pub const DRAFT: usize = 8;

// A to H: `slot_count` of higman's Limits.antt.
pub const SLOTS: usize = 8;

// The stations: `station_count` of desk's Limits.antt.
pub const STATIONS: usize = 8;

// The most changes that are counted for a station: `max_changes` of desk's Limits.antt.
pub const MAX_CHANGES: u32 = 4_000_000_000;

// The shape and the number of pairs of what a block holds; a slot that holds no plan has no pairs.
#[repr(C)]
#[derive(Clone, Copy)]
pub struct Size {
    pub arity: u8,
    pub roots: u8,
    pub pairs: usize,
}

impl Size {
    ghost use Rattle.words.specs.Bytes.{shape, shape_of};

    pub fn shape(self) -> Shape
        ensures { shape_of result ≡ shape self.arity self.roots }
    {
        Shape {
            arity: self.arity,
            roots: self.roots,
        }
    }
}

// What a desk keeps beside its plans: the station that is named, "a count of changes" for each station (change request E5), for each
// station but 0 its rights on the slots (change request E6), and the sum of the pairs in all slots (change request E8).
#[repr(C)]
#[derive(Clone, Copy)]
pub struct Control {
    pub station: u32,
    pub changes: [u32; STATIONS],
    pub rights: [u16; STATIONS - 1],
    pub pairs: u16,
}

// What is known of a desk beside its words: the sizes of the blocks, the slot for which a plan is open, and what it keeps beside its plans.
// (kept: a head and the columns lent beside it, since the words have 18 KB and stay where they lie. A record is worked on a head that is
// lent: one that went in by value and came back in a Result was copied and cleared at each exit, which took twice the time of a line.)
#[derive(Clone, Copy)]
pub struct Head {
    pub sizes: [Size; BLOCKS],
    pub draft: Option<u8>,
    pub control: Control,
}

// "The desk has slots A to H, at most one open plan, and a count of changes", one for each station.
#[derive(Drop)]
pub struct Desk {
    pub head: Head,
    pub columns: [u64; COLUMNS],
}

// The reply to a record that is done, by the form of its line.
#[derive(Clone, Copy)]
pub enum Reply {
    // "Neither replies when accepted"
    Silent,
    // `ok`
    Ok,
    // `ok⇥` and the number
    Number(u32),
    // so many bytes stand at the front of the output already: an image, a block, a listing or a survey
    Written(usize),
}

// Why a record is refused: `no⇥` and the number, with the letter of a column where the refusal names one.
#[derive(Clone, Copy, PartialEq, Eq)]
pub struct Refused {
    pub refusal: Refusal,
    pub column: Option<Column>,
}

impl From<Refusal> for Refused {
    ghost use Rattle.slots.specs.Refused.{refused_for};

    ghost from_gives = { λ refusal refused. refused ≡ refused_for refusal };

    fn from(refusal: Refusal) -> Refused {
        Refused {
            refusal: refusal,
            column: None,
        }
    }
}

// A draft is refused for one of its columns, which the refusal names.
impl From<Fault> for Refused {
    ghost use Rattle.slots.specs.Refused.{refused_in};

    ghost from_gives = { λ fault refused. refused ≡ refused_in fault };

    fn from(fault: Fault) -> Refused {
        let (column, reason) = match fault {
            Fault::InFrom(reason) => (Column::From, reason),
            Fault::InTo(reason) => (Column::To, reason),
        };
        Refused {
            refusal: reason.into(),
            column: Some(column),
        }
    }
}

// Station 0 is named, every count is 0, every right is 2, and there are no pairs.
pub fn fresh_control() -> Control
    ensures { control_of result ≡ fresh_control }
{
    Control {
        station: 0,
        changes: [0u32; STATIONS],
        rights: [rights::ALL; STATIONS - 1],
        pairs: 0,
    }
}

// The count of the named station's changes.
pub fn count(head: &Head) -> u32
    requires { IsControl (control_of head.now.control) }
    ensures { result ≡ count_in (control_of head.now.control) }
{
    let station = head.control.station as usize;
    head.control.changes[station]
}

// Whether no change more of the named station is counted.
pub fn is_full(head: &Head) -> bool
    requires { IsControl (control_of head.now.control) }
    ensures { result ≡ full_in head.now.control }
{
    MAX_CHANGES <= count(head)
}

// A change of the named station counted, by which so many pairs are lost and so many kept.
pub fn noted(control: Control, lost: usize, kept: usize) -> Control
    requires { Countable control lost kept }
    ensures { result ≡ noted_in control lost kept }
{
    let station = control.station as usize;
    let made = control.changes[station];
    let pairs = control.pairs as usize - lost + kept;
    let mut next = control;
    next.changes[station] = made + 1;
    next.pairs = pairs as u16;
    next
}

// This station named.
pub fn named(control: Control, station: u8) -> Control
    ensures { result ≡ named_in control station }
{
    let mut next = control;
    next.station = station as u32;
    next
}

// A right on a slot given to a station: "station 0 always has 2", so that nothing is kept for it.
pub fn given(control: Control, station: u8, slot: usize, right: u8) -> Control
    requires { RightGiven station slot right }
    ensures { result ≡ given_in control station slot right }
{
    let place = station as usize - 1;
    let row = control.rights[place];
    let mut next = control;
    next.rights[place] = rights::with(row, slot, right);
    next
}

// The right of the named station on a slot.
pub fn right(control: Control, slot: usize) -> u8
    requires { RightAsked control slot }
    ensures { result ≡ right_of (control_of control).rights control.station slot }
{
    let station = control.station as usize;
    if station == 0 {
        return rights::WRITE;
    }
    let row = control.rights[station - 1];
    rights::at(row, slot)
}

// Whether the named station has at least some right on all of some slots. Station 0 has them all.
fn are_allowed(control: Control, names: &[u8], needed: u8) -> bool
    requires { RightsAsked control names.now needed }
    ensures { result ≡ allowed_in control needed names.now }
{
    if control.station == 0 {
        return true;
    }
    names
        .iter()
        .all(|name| needed <= right(control, slot_number(*name)))
}

// Whether all of some bytes name slots.
fn are_slots(names: &[u8]) -> bool
    ensures { result ≡ all is_slot names.now }
{
    names.iter().all(|name| listing::is_slot(*name))
}

// What all records of slots have in common, by the slots that one reads and those that are its targets: 2, 8, 20.
pub fn admission(head: &Head, reads: &[u8], targets: &[u8]) -> Result<(), Refused>
    requires { HeadOfDesk head.now }
    ensures { AdmittedAs head.now reads.now targets.now result }
{
    if head.draft.is_some() {
        return Err(Refusal::WrongState.into());
    }
    if !are_slots(reads) || !are_slots(targets) {
        return Err(Refusal::SlotOutside.into());
    }
    let control = head.control;
    if !are_allowed(control, reads, rights::READ) || !are_allowed(control, targets, rights::WRITE) {
        return Err(Refusal::RightMissing.into());
    }
    Ok(())
}

// The slot that a byte names, from 0 for A.
pub fn slot_number(slot: u8) -> usize
    requires { is_slot slot ≡ true }
    ensures { result ≡ slot_number slot }
{
    (slot - b'A') as usize
}
