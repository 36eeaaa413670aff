// The rights of a station on the slots, as one number (change request E6): two bits for each slot, A lowest, "0 nothing, 1 read, 2 read and
// write".
ghost use Rattle.std.specs.Prelude.{◌≡◌, ◌<◌, get_or, set};
ghost use Rattle.higman.specs.Limits.{slot_count};
ghost use Rattle.slots.specs.Rights.{right_at, row_of, packed_row, Givable};

use crate::SLOTS;

// The right that is needed to read a slot: `needed_right` of desk's Records.antt.
pub const READ: u8 = 1;

// The right that is needed to fill or empty a slot, and the highest there is: `max_right` of desk's Limits.antt.
pub const WRITE: u8 = 2;

// The right 2 on every slot.
pub const ALL: u16 = 0xAAAA;

// The right on a slot.
pub fn at(row: u16, slot: usize) -> u8
    requires { slot < slot_count }
    ensures { result ≡ right_at row slot }
{
    let bits = 2 * slot as u32;
    ((row >> bits) % 4) as u8
}

// The right on a slot, after one has been given on some slot.
fn after(row: u16, slot: usize, right: u8, i: usize) -> u8
    requires { i < slot_count }
    ensures { result ≡ get_or (set (row_of row) slot right) i 0 }
{
    if i == slot {
        return right;
    }
    at(row, i)
}

// Another right on a slot.
pub fn with(row: u16, slot: usize, right: u8) -> u16
    requires { Givable slot right }
    ensures { result ≡ packed_row (set (row_of row) slot right) }
{
    let mut next = 0u16;
    for i in (0..SLOTS).rev() {
        next = next * 4 + after(row, slot, right, i) as u16;
    }
    next
}
