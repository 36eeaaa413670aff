// Matching and routing a code by a plan's columns (document 01, "Plans"). A from-word has at most sixteen digits, so it begins a code
// exactly if it begins the code's front; behind it stands the tail, which goes behind the to-word.
ghost use Rattle.std.specs.Prelude.{◌≡◌, ◌≤◌, length, take, drop};
ghost use Rattle.higman.specs.Limits.{max_digits};
ghost use Rattle.higman.specs.Tables.{image};
ghost use Rattle.higman.specs.Places.{place_of};
ghost use Rattle.words.specs.Packed.{unpack};
ghost use Rattle.higman.specs.Text.{word_of};
ghost use Rattle.higman.specs.Buffers.{written};
ghost use Rattle.columns.specs.Packed.{words_of, table};
ghost use Rattle.columns.specs.Columns.{begun_at};
ghost use Rattle.tables.specs.Spreading.{Operand};
ghost use Rattle.tables.specs.Routing.{IsCode, Searchable, matched_digits, unmatched, further, at_place, routed_in, routed_into};

// An image in a buffer: the number of its bytes, and the place of the pair that it comes from, counted from 1.
#[derive(Clone, Copy, PartialEq, Eq)]
pub struct Image {
    pub length: usize,
    pub place: usize,
}

// Why a code has no image in a buffer.
#[derive(Clone, Copy, PartialEq, Eq)]
pub enum RouteError {
    // no from-word begins the code
    TooShort,
    // the image has more bytes than the buffer
    NoRoom,
}

// What a column matches of a code: the unmatched tail, as a part of the code, which is what stands behind the from-word that begins it, or
// the whole code where none does; and the place of that word, counted from 1.
#[derive(Clone, Copy)]
pub struct Match<'a> {
    pub tail: &'a [u8],
    pub place: Option<usize>,
}

// The first digits of a code, packed: as many as a plan word may have, or all where there are fewer.
pub fn front(code: &[u8]) -> u64
    requires { IsCode code.now }
    ensures { unpack result ≡ take max_digits (word_of code.now) }
{
    if code.len() <= words::MAX_DIGITS {
        words::pack(code)
    } else {
        words::pack(&code[..words::MAX_DIGITS])
    }
}

// Where in the column the from-word stands that begins a code, counted from 0.
pub fn place_of(from: &[u64], code: &[u8]) -> Option<usize>
    requires searchable { Searchable from.now }
    requires code { IsCode code.now }
    ensures { result ≡ begun_at (words_of from.now) (word_of code.now) }
{
    columns::begun_by(from, front(code))
}

// The part of a code behind a word that begins it.
fn behind(w: u64, code: &[u8]) -> &[u8]
    requires { length (unpack w) ≤ length code.now }
    ensures result_value { result.now ≡ drop (length (unpack w)) code.now }
    ensures ref_ptr_value { result.ref_ptr ≡ further (length (unpack w)) code.entry.ref_ptr }
{
    let start = words::length(w) as usize;
    &code[start..]
}

// Matches a code by a column of from-words.
pub fn unmatched<'a>(from: &[u64], code: &'a [u8]) -> Match<'a>
    requires searchable { Searchable from.now }
    requires code { IsCode code.now }
    ensures tail { result.tail.now ≡ unmatched (words_of from.now) code.now }
    ensures tail_ref_ptr { result.tail.ref_ptr ≡ further (matched_digits (words_of from.now) (word_of code.now)) code.entry.ref_ptr }
    ensures place { result.place ≡ at_place (place_of (words_of from.now) (word_of code.now)) }
{
    match place_of(from, code) {
        Some(k) => Match {
            tail: behind(from[k], code),
            place: Some(k + 1),
        },
        None => Match {
            tail: code,
            place: None,
        },
    }
}

// Copies a tail over as many bytes. (kept: a loop, since `copy_from_slice` would have the archive for C need `memmove`.)
fn copy(tail: &[u8], out: &mut [u8])
    requires { length tail.now ≡ length out.old }
    ensures { out.new ≡ tail.now }
{
    for i in 0..tail.len() {
        out[i] = tail[i];
    }
}

// Routes a code: writes its image from the start of a buffer on, the to-word and right behind it the tail, and tells the pair's place.
pub fn route_into(
    from: &[u64],
    to: &[u64],
    code: &[u8],
    out: &mut [u8],
) -> Result<Image, RouteError>
    requires operand { Operand from.now to.now }
    requires code { IsCode code.now }
    ensures value { result ≡ routed_in (place_of (words_of from.now) (word_of code.now))
        (image (table from.now to.now) (word_of code.now)) (length out.old) }
    ensures out_after { out.new ≡ routed_into (image (table from.now to.now) (word_of code.now)) out.old }
{
    let Some(k) = place_of(from, code) else {
        return Err(RouteError::TooShort);
    };
    let tail = behind(from[k], code);
    let head = words::length(to[k]) as usize;
    if out.len() < head {
        return Err(RouteError::NoRoom);
    }
    if out.len() - head < tail.len() {
        return Err(RouteError::NoRoom);
    }
    let end = words::writing::write(to[k], out, 0);
    let length = end + tail.len();
    copy(tail, &mut out[end..length]);
    Ok(Image {
        length,
        place: k + 1,
    })
}
