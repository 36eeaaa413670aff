// From a line of bytes to a record (document 01, "Records"): which record a line is, with its numbers, and where in the line its words
// stand. Nothing of the line is copied. `read` promises one equality with the record that the definitions of the crate `desk` give,
// for every line of bytes; the functions below it promise the same of the fields behind a letter.
#![tactic(auto)]

ghost use Rattle.std.specs.Prelude.{◌≡◌};
ghost use Rattle.higman.specs.Text.{byte};
ghost use Rattle.records.specs.Reading.{read_line};
ghost use Rattle.records.specs.Fields.{behind_letter};

use std::ops::Range;

mod fields;

// `max_line`: the most bytes of a line.
pub const MAX_LINE: usize = 1100;

// Where the first field starts, behind the letter and a tab, and where the second does, behind a field of one byte.
const FIRST: usize = 2;

const SECOND: usize = 4;

// A record, by its letter. A slot is the byte that names it, a word or code the part of the line that spells it.
// (kept: n and r as two digits: `Shape` is of the crate `words`, which this crate doesn't stand on.)
#[derive(Clone, PartialEq, Eq, Debug, Drop)]
pub enum Record {
    // P⇥slot⇥n⇥r
    Open {
        slot: u8,
        arity: u8,
        roots: u8,
    },
    // M⇥from⇥to
    Pair {
        from: Range<usize>,
        to: Range<usize>,
    },
    // E
    Close,
    // F⇥a⇥b⇥c
    Follow {
        a: u8,
        b: u8,
        c: u8,
    },
    // I⇥a⇥c
    Invert {
        a: u8,
        c: u8,
    },
    // K⇥a⇥k⇥c
    Power {
        a: u8,
        k: i32,
        c: u8,
    },
    // S⇥a⇥b
    Same {
        a: u8,
        b: u8,
    },
    // W⇥a⇥code
    Route {
        a: u8,
        code: Range<usize>,
    },
    // L⇥a
    List {
        a: u8,
    },
    // C⇥a
    Empty {
        a: u8,
    },
    // T
    Count,
    // U
    Survey,
    // X⇥slot⇥n⇥r⇥s⇥seed
    Exercise {
        slot: u8,
        arity: u8,
        roots: u8,
        splits: u8,
        seed: u64,
    },
    // Z⇥station
    Station {
        station: u8,
    },
    // G⇥station⇥slot⇥right
    Grant {
        station: u8,
        slot: u8,
        right: u8,
    },
    // H
    Sum,
}

// The fields behind a letter, a function for each. (kept: `read_invert` and `read_same`, `read_list` and `read_empty`, which differ in the
// record made alone; `read_open` and `read_follow` differ in that the first reads digits. Tried: in `read_fields` in their place `singles`
// and a `map` to the record; five goals stay open that these functions close without an answer.)

// A slot and two digits.
#[tactic(auto, using(crate::proofs::Readers::open_read))]
fn read_open(fields: &[u8]) -> Option<Record>
    ensures { result ≡ behind_letter (byte "P") fields.now }
{
    let [slot, arity, roots] = fields::singles::<3>(fields)?;
    Some(Record::Open {
        slot,
        arity: fields::digit(arity)?,
        roots: fields::digit(roots)?,
    })
}

// A word up to the next tab, and one up to the end of the line.
#[tactic(auto, using(crate::proofs::Readers::pair_read))]
fn read_pair(fields: &[u8]) -> Option<Record>
    ensures { result ≡ behind_letter (byte "M") fields.now }
{
    let (from, rest) = fields::first(fields)?;
    let to = fields::last(rest)?;
    let middle = FIRST + from.len();
    let behind = middle + 1;
    Some(Record::Pair {
        from: FIRST..middle,
        to: behind..behind + to.len(),
    })
}

// Three slots.
#[tactic(auto, using(crate::proofs::Readers::follow_read))]
fn read_follow(fields: &[u8]) -> Option<Record>
    ensures { result ≡ behind_letter (byte "F") fields.now }
{
    let [a, b, c] = fields::singles::<3>(fields)?;
    Some(Record::Follow { a, b, c })
}

// Two slots.
#[tactic(auto, using(crate::proofs::Readers::invert_read))]
fn read_invert(fields: &[u8]) -> Option<Record>
    ensures { result ≡ behind_letter (byte "I") fields.now }
{
    let [a, c] = fields::singles::<2>(fields)?;
    Some(Record::Invert { a, c })
}

// A slot, a number and a slot.
#[tactic(auto, using(crate::proofs::Readers::power_read))]
fn read_power(fields: &[u8]) -> Option<Record>
    ensures { result ≡ behind_letter (byte "K") fields.now }
{
    let (a, rest) = fields::single(fields)?;
    let (k, rest) = fields::first(rest)?;
    let k = fields::signed(k)?;
    let [c] = fields::singles::<1>(rest)?;
    Some(Record::Power { a, k, c })
}

// Two slots.
#[tactic(auto, using(crate::proofs::Readers::same_read))]
fn read_same(fields: &[u8]) -> Option<Record>
    ensures { result ≡ behind_letter (byte "S") fields.now }
{
    let [a, b] = fields::singles::<2>(fields)?;
    Some(Record::Same { a, b })
}

// A slot, and a code up to the end of the line.
#[tactic(auto, using(crate::proofs::Readers::route_read))]
fn read_route(fields: &[u8]) -> Option<Record>
    ensures { result ≡ behind_letter (byte "W") fields.now }
{
    let (a, rest) = fields::single(fields)?;
    let code = fields::last(rest)?;
    Some(Record::Route {
        a,
        code: SECOND..SECOND + code.len(),
    })
}

// One slot.
#[tactic(auto, using(crate::proofs::Readers::list_read))]
fn read_list(fields: &[u8]) -> Option<Record>
    ensures { result ≡ behind_letter (byte "L") fields.now }
{
    let [a] = fields::singles::<1>(fields)?;
    Some(Record::List { a })
}

// One slot.
#[tactic(auto, using(crate::proofs::Readers::empty_read))]
fn read_empty(fields: &[u8]) -> Option<Record>
    ensures { result ≡ behind_letter (byte "C") fields.now }
{
    let [a] = fields::singles::<1>(fields)?;
    Some(Record::Empty { a })
}

// A slot, two digits and two numbers.
#[tactic(auto, using(crate::proofs::Readers::exercise_read))]
fn read_exercise(fields: &[u8]) -> Option<Record>
    ensures { result ≡ behind_letter (byte "X") fields.now }
{
    let (slot, rest) = fields::single(fields)?;
    let (arity, rest) = fields::single(rest)?;
    let arity = fields::digit(arity)?;
    let (roots, rest) = fields::single(rest)?;
    let roots = fields::digit(roots)?;
    let (splits, rest) = fields::first(rest)?;
    let splits = fields::number(splits, fields::MAX_SPLITS_NUMERAL)?;
    let seed = fields::last(rest)?;
    let seed = fields::number(seed, fields::MAX_SEED_NUMERAL)?;
    Some(Record::Exercise {
        slot,
        arity,
        roots,
        splits: splits as u8,
        seed,
    })
}

// One digit.
#[tactic(auto, using(crate::proofs::Readers::station_read))]
fn read_station(fields: &[u8]) -> Option<Record>
    ensures { result ≡ behind_letter (byte "Z") fields.now }
{
    let [station] = fields::singles::<1>(fields)?;
    Some(Record::Station {
        station: fields::digit(station)?,
    })
}

// A digit, a slot and a digit from 0 to 2.
#[tactic(auto, using(crate::proofs::Readers::grant_read))]
fn read_grant(fields: &[u8]) -> Option<Record>
    ensures { result ≡ behind_letter (byte "G") fields.now }
{
    let [station, slot, right] = fields::singles::<3>(fields)?;
    let station = fields::digit(station)?;
    let right = fields::digit(right)?;
    if 2 < right {
        return None;
    }
    Some(Record::Grant {
        station,
        slot,
        right,
    })
}

// A letter, and the fields behind it, with a tab in front of each.
#[tactic(auto, using(crate::proofs::Readers::letters_alone))]
fn read_fields(letter: u8, fields: &[u8]) -> Option<Record>
    ensures { result ≡ behind_letter letter fields.now }
{
    match letter {
        b'P' => read_open(fields),
        b'M' => read_pair(fields),
        b'E' if fields.is_empty() => Some(Record::Close),
        b'F' => read_follow(fields),
        b'I' => read_invert(fields),
        b'K' => read_power(fields),
        b'S' => read_same(fields),
        b'W' => read_route(fields),
        b'L' => read_list(fields),
        b'C' => read_empty(fields),
        b'T' if fields.is_empty() => Some(Record::Count),
        b'U' if fields.is_empty() => Some(Record::Survey),
        b'X' => read_exercise(fields),
        b'Z' => read_station(fields),
        b'G' => read_grant(fields),
        b'H' if fields.is_empty() => Some(Record::Sum),
        _ => None,
    }
}

// The record that a line is: its letter decides which form is looked for behind it.
pub fn read(line: &[u8]) -> Option<Record>
    ensures { result ≡ read_line line.now }
{
    match line {
        [letter, fields @ ..] if line.len() <= MAX_LINE => read_fields(*letter, fields),
        _ => None,
    }
}
