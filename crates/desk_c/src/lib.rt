// The library of the desk for programs in C and Rust (document 01, "Records": "A call receives the desk by reference and changes it
// there"): a desk is a value of the caller's, `desk_line` answers a line of bytes into a lent buffer, `desk_feed` the lines of a piece of
// input, and `desk_do` a record without text. The crate's module `serving` has the work, by value. Number 0 stands for a job done, and a
// refusal has document 01's number. A slice is passed as a pointer and a length.
#![tactic(auto)]

ghost use Rattle.std.specs.Prelude.{◌≡◌};
ghost use Rattle.desk.specs.Desk.{fresh_desk};
ghost use Rattle.desk_values.specs.Values.{is_desk_value, packed_desk};
ghost use Rattle.desk_c.specs.Calls.{desk_size, ServedBy, job_work, worked};
ghost use Rattle.desk_c.specs.Feeding.{FedInto};

use desk_core::feeding;
use desk_values::Desk;

pub mod serving;

// A record without text: its letter, the bytes of its slots or n and r in their order, the number of K, and the seed and splits of X.
#[repr(C)]
#[derive(Drop)]
pub struct Job {
    pub letter: u8,
    pub a: u8,
    pub b: u8,
    pub c: u8,
    pub k: i32,
    pub seed: u64,
    pub splits: u8,
}

// How many bytes of reply stand at the front of the buffer, where the number is 0; beside 6 and 7 the letter of the column, F or T.
#[repr(C)]
#[derive(Drop)]
pub struct Written {
    pub number: u8,
    pub column: u8,
    pub length: usize,
}

// The number that a reply has, where the number of the refusal is 0.
#[repr(C)]
#[derive(Drop)]
pub struct Done {
    pub number: u8,
    pub column: u8,
    pub value: u32,
}

// How many bytes of the input were taken and how many of replies stand at the front of the buffer, where the number is 0; and whether a
// line has begun that is too long already.
#[repr(C)]
#[derive(Drop)]
pub struct Fed {
    pub number: u8,
    pub overlong: bool,
    pub taken: usize,
    pub length: usize,
}

// "A fresh desk has empty slots and count 0."
#[unsafe(no_mangle)]
pub extern "C" fn desk_fresh() -> Desk
    ensures { result ≡ packed_desk fresh_desk }
{
    let state = feeding::fresh();
    let head = state.head;
    let columns = state.columns;
    desk_values::packed(head, columns)
}

// The bytes of a desk.
#[unsafe(no_mangle)]
pub extern "C" fn desk_size() -> usize
    ensures { result ≡ desk_size }
{
    18632
}

// Whether a value is a desk.
#[unsafe(no_mangle)]
pub extern "C" fn desk_is_desk(desk: Desk) -> bool
    ensures { result ≡ is_desk_value desk }
{
    desk_values::is_desk(desk)
}

// A line is answered, and its reply written into the lent buffer.
#[unsafe(no_mangle)]
pub extern "C" fn desk_line(desk: &mut Desk, line: &[u8], out: &mut [u8]) -> Written
    ensures { ServedBy line.now desk.entry.now out.old (record { desk = desk.exit.now; answer = result })
        out.new }
{
    let s = serving::serve(*desk, line, out);
    *desk = s.desk;
    s.answer
}

// The whole lines of a piece of input are answered, and their replies written into the lent buffer, as far as it has room.
#[unsafe(no_mangle)]
pub extern "C" fn desk_feed(desk: &mut Desk, overlong: bool, input: &[u8], out: &mut [u8]) -> Fed
    ensures { FedInto overlong input.now desk.entry.now out.old
        (record { desk = desk.exit.now; answer = result }) out.new }
{
    let f = serving::feed(*desk, overlong, input, out);
    *desk = f.desk;
    f.answer
}

// A record without text is done, and its reply is the call's value.
#[unsafe(no_mangle)]
pub extern "C" fn desk_do(desk: &mut Desk, job: Job) -> Done
    ensures { record { desk = desk.exit.now; answer = result } ≡ worked (job_work job) desk.entry.now }
{
    let w = serving::work(*desk, job);
    *desk = w.desk;
    w.answer
}
