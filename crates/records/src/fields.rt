// The fields of a line and their forms (document 01, "Field forms"): fields of one byte, which slots, the numbers n and r, stations and
// rights are; a field up to the next tab; a field that is the last; numbers of several digits; and the number k. A reader takes its field
// with the tab in front of it off what stands behind the field before, and gives back what is left.
ghost use Rattle.std.specs.Prelude.{◌≡◌, ◌+◌, ◌≤◌, length, IfSome, MatchOption, Some, None};
ghost use Rattle.higman.specs.Text.{no_leading_zero};
ghost use Rattle.desk.specs.Limits.{max_numeral};
ghost use Rattle.desk.specs.Records.{no_tab, number_field, signed_field};
ghost use Rattle.records.specs.Fields.{single, singles, first, last, digit, given};

// `tab`: what parts fields.
const TAB: u8 = b'\t';

// `max_numeral`: the most digits of k.
const MAX_NUMERAL: usize = 4;

// `max_splits_numeral`: the most digits of X's splits.
pub const MAX_SPLITS_NUMERAL: usize = 2;

// `max_seed_numeral`: the most digits of X's seed.
pub const MAX_SEED_NUMERAL: usize = 10;

// A field of one byte, and what stands behind it.
pub fn single(fields: &[u8]) -> Option<(u8, &[u8])>
    ensures { MatchOption result (single fields.now ≡ None) (λ p. single fields.now ≡ Some (p.0, p.1.now)) }
{
    match fields {
        [TAB, b, rest @ ..] if *b != TAB => Some((*b, rest)),
        _ => None,
    }
}

// N fields of one byte each, and no more.
pub fn singles<const N: usize>(fields: &[u8]) -> Option<[u8; N]>
    ensures { result ≡ singles N fields.now }
{
    let mut bytes = [0; N];
    let mut rest = fields;
    for byte in &mut bytes {
        let (b, others) = single(rest)?;
        *byte = b;
        rest = others;
    }
    if rest.is_empty() { Some(bytes) } else { None }
}

// A field up to the next tab, and what stands from there on.
pub fn first(fields: &[u8]) -> Option<(&[u8], &[u8])>
    ensures read { MatchOption result (first fields.now ≡ None) (λ p. first fields.now ≡ Some (p.0.now, p.1.now)) }
    ensures within { IfSome result (λ p. length p.0.now + length p.1.now ≤ length fields.now) }
{
    let [TAB, rest @ ..] = fields else {
        return None;
    };
    let end = rest.iter().position(|&b| b == TAB).unwrap_or(rest.len());
    Some(rest.split_at(end))
}

// A field up to the end of the line.
pub fn last(fields: &[u8]) -> Option<&[u8]>
    ensures read { MatchOption result (last fields.now ≡ None) (λ p. last fields.now ≡ Some p.now) }
    ensures within { IfSome result (λ p. length p.now ≤ length fields.now) }
{
    match fields {
        [TAB, field @ ..] if no_tab(field) => Some(field),
        _ => None,
    }
}

// Whether a field has no tab in it. The bytes are all looked at, many at a time: a loop that ended at the first tab would take them one
// by one.
fn no_tab(field: &[u8]) -> bool
    ensures { result ≡ no_tab field.now }
{
    let mut none = true;
    for &b in field {
        none &= b != TAB;
    }
    none
}

// The digit from 0 to 9 that a byte spells.
pub fn digit(b: u8) -> Option<u8>
    ensures { result ≡ digit b }
{
    match b {
        b'0'..=b'9' => Some(b - b'0'),
        _ => None,
    }
}

// Whether digits are a number's, by the first of them: "no leading zero".
fn no_leading_zero(field: &[u8]) -> bool
    ensures { result ≡ no_leading_zero field.now }
{
    match field {
        [] => false,
        [_] => true,
        [first, ..] => b'1' <= *first,
    }
}

// The number that a field spells, if it has at most so many digits, nothing else and no leading zero. A number of ten digits fits u64.
pub fn number(field: &[u8], most: usize) -> Option<u64>
    requires { most ≤ 10 }
    ensures { result ≡ given (number_field most field.now) }
{
    if most < field.len() || !no_leading_zero(field) {
        return None;
    }
    let mut n: u64 = 0;
    for &b in field {
        n = n * 10 + digit(b)? as u64;
    }
    Some(n)
}

// The number k: a number, or a minus and a number that is not 0.
pub fn signed(field: &[u8]) -> Option<i32>
    ensures { result ≡ given (signed_field max_numeral field.now) }
{
    let [b'-', digits @ ..] = field else {
        return Some(number(field, MAX_NUMERAL)? as i32);
    };
    let n = number(digits, MAX_NUMERAL)?;
    if n == 0 {
        return None;
    }
    Some(-(n as i32))
}
