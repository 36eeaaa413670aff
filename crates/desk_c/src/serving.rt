// The work of the calls, by value: a value that is no desk is refused with 15 and comes back as it came, a line or a record is answered by
// the desk's code, and what is left is packed into one value again. A reply is written into a buffer of this module's own first, so
// that "a lent buffer then holds what it held before" at a refusal, 14 included.
ghost use Rattle.std.specs.Prelude.{◌≡◌, ◌≤◌, length, OnErr};
ghost use Rattle.operations.specs.Refusals.{number_of};
ghost use Rattle.replies.specs.Sizes.{max_reply};
ghost use Rattle.desk.specs.Replies.{line_operation};
ghost use Rattle.slots.specs.Desks.{desk_of, HoldsDesk};
ghost use Rattle.slots.specs.Works.{work_of};
ghost use Rattle.slots.specs.Refused.{letter_of};
ghost use Rattle.asking.specs.Asked.{Asked};
ghost use Rattle.desk.specs.Buffers.{plain_call};
ghost use Rattle.desk_c.specs.Calls.{column_byte, line_call, LentBy, ServedBy, job_work, plain_of, worked};
ghost use Rattle.desk.specs.Feeds.{between, fed_within};
ghost use Rattle.desk_c.specs.Feeding.{unfed_with, FedOn, FedInto};
ghost use Rattle.desk_c.specs.Settling.{RepliedTo, stepped, JobDone, value_of};

use crate::{Done, Fed, Job, Written};
use desk_core::feeding;
use desk_core::feeding::{MAX_LINE, MAX_REPLY, State};
use desk_values::Desk;
use operations::Column;
use operations::refusals::Refusal;
use slots::{COLUMNS, Head, Refused, Reply};
use words::Shape;

// "s one or two digits" (change request E3)
const MAX_SPLITS: u8 = 99;

// The desk after a call, and what the call answers.
#[derive(Drop)]
pub struct Served<A> {
    pub desk: Desk,
    pub answer: A,
}

impl From<Refused> for Written {
    ghost use Rattle.slots.specs.Refused.{outcome_of};
    ghost use Rattle.desk_c.specs.Calls.{written_of};
    ghost use Rattle.std.specs.Prelude.{Err};

    ghost from_gives = { λ refused written. written ≡ written_of (outcome_of (Err refused)) };

    fn from(refused: Refused) -> Written {
        Written {
            number: refused.refusal.into(),
            column: letter(refused.column),
            length: 0,
        }
    }
}

impl From<Refused> for Done {
    ghost use Rattle.slots.specs.Refused.{outcome_of};
    ghost use Rattle.desk_c.specs.Calls.{done_of};
    ghost use Rattle.std.specs.Prelude.{Err};

    ghost from_gives = { λ refused done. done ≡ done_of (outcome_of (Err refused)) };

    fn from(refused: Refused) -> Done {
        Done {
            number: refused.refusal.into(),
            column: letter(refused.column),
            value: 0,
        }
    }
}

// The letter of the column that a refusal names, or 0.
fn letter(column: Option<Column>) -> u8
    ensures { result ≡ column_byte (letter_of column) }
{
    match column {
        Some(column) => column.into(),
        None => 0,
    }
}

// A line is read and worked, and its reply written where the caller's buffer has room for it; else it is refused with 14.
fn answer(
    head: &mut Head,
    columns: &mut [u64],
    line: &[u8],
    out: &mut [u8],
    room: usize,
) -> Result<usize, Refused>
    requires { Asked head.old columns.old out.old }
    ensures { RepliedTo (line_operation (desk_of head.old columns.old) line.now) room out.old (stepped head.new result) columns.new out.new }
{
    let reply = lines::work(head, columns, line, out)?;
    let used = lines::write_reply(reply, out);
    if room < used {
        return Err(Refusal::BufferTooShort.into());
    }
    Ok(used)
}

// A line is answered, and its reply written into a lent buffer. Where it is refused, for 14 too, the line is not done.
fn lend(head: Head, columns: [u64; COLUMNS], line: &[u8], out: &mut [u8]) -> Served<Written>
    requires { HoldsDesk head columns }
    ensures { LentBy (line_call (desk_of head columns) line.now out.old) result out.new }
{
    let mut next = head;
    let mut words = columns;
    let mut bytes = [0; MAX_REPLY];
    match answer(&mut next, &mut words, line, &mut bytes, out.len()) {
        Ok(n) => {
            out[..n].copy_from_slice(&bytes[..n]);
            Served {
                desk: desk_values::packed(next, words),
                answer: Written {
                    number: 0,
                    column: 0,
                    length: n,
                },
            }
        }
        Err(refused) => Served {
            desk: desk_values::packed(lines::dropped(head), columns),
            answer: refused.into(),
        },
    }
}

// What a line does to a desk that somebody made: 15 before all other numbers.
pub fn serve(desk: Desk, line: &[u8], out: &mut [u8]) -> Served<Written>
    ensures { ServedBy line.now desk out.old result out.new }
{
    if !desk_values::is_desk(desk) {
        return Served {
            desk,
            answer: Written::from(Refused::from(Refusal::InvalidValue)),
        };
    }
    lend(desk_values::head_of(desk), desk.columns, line, out)
}

// Nothing of a piece of input is taken.
fn unfed(desk: Desk, overlong: bool, refusal: Refusal) -> Served<Fed>
    ensures { result ≡ unfed_with desk overlong (number_of refusal) }
{
    Served {
        desk,
        answer: Fed {
            number: refusal.into(),
            overlong,
            taken: 0,
            length: 0,
        },
    }
}

// The lines of a piece of input are answered on a desk. What `feed` holds of a line that has begun was not taken: the caller keeps it.
fn feed_lines(
    head: Head,
    columns: [u64; COLUMNS],
    overlong: bool,
    input: &[u8],
    out: &mut [u8],
) -> Served<Fed>
    requires holds_desk { HoldsDesk head columns }
    requires max_reply_in_bounds { max_reply ≤ length out.old }
    ensures { FedOn (fed_within max_reply (length out.old) (between (desk_of head columns) overlong) input.now)
        input.now out.old result out.new }
{
    let state = State {
        head: head,
        columns: columns,
        line: [0u8; MAX_LINE],
        begun: 0,
        overlong: overlong,
    };
    let fed = feeding::feed(state, input, out);
    let after = fed.state;
    let words = after.columns;
    let left = desk_values::packed(after.head, words);
    Served {
        desk: left,
        answer: Fed {
            number: 0,
            overlong: after.overlong,
            taken: fed.taken - after.begun,
            length: fed.used,
        },
    }
}

// What a piece of input does to a desk that somebody made: 15 first, and then 14, before any line is read.
pub fn feed(desk: Desk, overlong: bool, input: &[u8], out: &mut [u8]) -> Served<Fed>
    ensures { FedInto overlong input.now desk out.old result out.new }
{
    if !desk_values::is_desk(desk) {
        return unfed(desk, overlong, Refusal::InvalidValue);
    }
    if out.len() < MAX_REPLY {
        return unfed(desk, overlong, Refusal::BufferTooShort);
    }
    feed_lines(
        desk_values::head_of(desk),
        desk.columns,
        overlong,
        input,
        out,
    )
}

// The work of a record without text, by its letter.
fn perform(head: &mut Head, columns: &mut [u64], job: Job) -> Result<Reply, Refused>
    requires { HoldsDesk head.old columns.old }
    ensures done { JobDone job head.old columns.old (work_of head.new result) columns.new }
    ensures kept { OnErr result (head.new ≡ head.old) }
{
    let shape = Shape {
        arity: job.b,
        roots: job.c,
    };
    match job.letter {
        b'P' => opening::open(head, job.a, shape),
        b'E' => changing::close(head, columns),
        b'F' => changing::follow(head, columns, job.a, job.b, job.c),
        b'I' => changing::invert(head, columns, job.a, job.b),
        b'K' => changing::power(head, columns, job.a, job.k, job.b),
        b'S' => asking::compare(head, columns, job.a, job.b),
        b'C' => changing::empty(head, columns, job.a),
        b'T' => asking::count(head),
        b'X' if job.splits <= MAX_SPLITS => {
            changing::exercise(head, columns, job.a, shape, job.splits, job.seed)
        }
        b'Z' => stations::name(head, job.a),
        b'G' => stations::grant(head, job.a, job.b, job.c),
        b'H' => asking::sum(head),
        _ => Err(Refusal::NoRecord.into()),
    }
}

// The number that a reply has.
fn value(reply: Reply) -> u32
    ensures { result ≡ value_of reply }
{
    match reply {
        Reply::Number(k) => k,
        Reply::Silent | Reply::Ok | Reply::Written(_) => 0,
    }
}

// A record without text is done on a desk.
fn done_on(head: Head, columns: [u64; COLUMNS], job: Job) -> Served<Done>
    requires { HoldsDesk head columns }
    ensures { result ≡ plain_of (plain_call (desk_of head columns) (job_work job)) }
{
    let mut next = head;
    let mut words = columns;
    match perform(&mut next, &mut words, job) {
        Ok(reply) => Served {
            desk: desk_values::packed(next, words),
            answer: Done {
                number: 0,
                column: 0,
                value: value(reply),
            },
        },
        Err(refused) => Served {
            desk: desk_values::packed(lines::dropped(head), words),
            answer: refused.into(),
        },
    }
}

// What it does to a desk that somebody made: 15 before all other numbers.
pub fn work(desk: Desk, job: Job) -> Served<Done>
    ensures { result ≡ worked (job_work job) desk }
{
    if !desk_values::is_desk(desk) {
        return Served {
            desk,
            answer: Done::from(Refused::from(Refusal::InvalidValue)),
        };
    }
    done_on(desk_values::head_of(desk), desk.columns, job)
}
