// The desk's answer to a line of bytes (document 01, "Records"): the line becomes a record, the record is worked on a head and lent
// columns, and the reply is written at the front of the lent output. `step` promises an equality with `respond_line` of the crate `desk`,
// through the desk that the head and columns hold. (kept: a head and its columns side by side, as `slots::Head` says.)
#![tactic(auto)]

ghost use Rattle.std.specs.Prelude.{◌≡◌, ◌≤◌, length, Ok, Err, OnErr};
ghost use Rattle.replies.specs.Sizes.{max_reply};
ghost use Rattle.desk.specs.Replies.{respond_line};
ghost use Rattle.asking.specs.Asked.{Asked};
ghost use Rattle.slots.specs.Desks.{desk_of};
ghost use Rattle.slots.specs.Works.{work_of};
ghost use Rattle.lines.specs.Lines.{Working, LineDone, LineWorked, dropped_head, SettledBy, AnswersWork, Answered};

use operations::refusals::Refusal;
use records::Record;
use slots::{Head, Refused, Reply};
use words::Shape;

// A line that was answered: the head after it, and how many bytes its reply has.
#[derive(Drop)]
pub struct Stepped {
    pub head: Head,
    pub used: usize,
}

// "Any refusal drops an open plan and changes nothing else."
pub fn dropped(head: Head) -> Head
    ensures { result ≡ dropped_head head }
{
    let mut next = head;
    next.draft = None;
    next
}

// The reply is written, unless it stands in the output already: so many bytes.
pub fn write_reply(reply: Reply, out: &mut [u8]) -> usize
    requires { max_reply ≤ length out.old }
    ensures { SettledBy (Ok reply) out.old result out.new }
{
    match reply {
        Reply::Silent => 0,
        Reply::Written(used) => used,
        Reply::Ok => replies::ok(out, 0),
        Reply::Number(k) => replies::ok_number(k, out, 0),
    }
}

// The refusal is written: so many bytes.
pub fn write_refusal(refused: Refused, out: &mut [u8]) -> usize
    requires { max_reply ≤ length out.old }
    ensures { SettledBy (Err refused) out.old result out.new }
{
    let number = u8::from(refused.refusal);
    match refused.column {
        None => replies::no(number, out, 0),
        Some(column) => replies::no_column(number, column.into(), out, 0),
    }
}

// What the work of a record comes to: its reply is written, and a refusal drops the open plan. So many bytes.
pub fn answer(head: &mut Head, reply: Result<Reply, Refused>, out: &mut [u8]) -> usize
    requires { max_reply ≤ length out.old }
    ensures { AnswersWork head.old reply out.old (record { head = head.new; used = result }) out.new }
{
    match reply {
        Ok(reply) => write_reply(reply, out),
        Err(refused) => {
            *head = dropped(*head);
            write_refusal(refused, out)
        }
    }
}

// The work of the record that was read of a line.
pub fn perform(
    head: &mut Head,
    columns: &mut [u64],
    line: &[u8],
    record: Record,
    out: &mut [u8],
) -> Result<Reply, Refused>
    requires { Working head.old columns.old line.now «record» out.old }
    ensures done { LineDone head.old columns.old line.now «record» out.old (work_of head.new result) columns.new out.new }
    ensures kept { OnErr result (head.new ≡ head.old) }
{
    match record {
        Record::Open { slot, arity, roots } => {
            let shape = Shape { arity, roots };
            opening::open(head, slot, shape)
        }
        Record::Pair { from, to } => opening::pair(head, columns, &line[from], &line[to]),
        Record::Close => changing::close(head, columns),
        Record::Follow { a, b, c } => changing::follow(head, columns, a, b, c),
        Record::Invert { a, c } => changing::invert(head, columns, a, c),
        Record::Power { a, k, c } => changing::power(head, columns, a, k, c),
        Record::Same { a, b } => asking::compare(head, columns, a, b),
        Record::Route { a, code } => asking::route(head, columns, a, &line[code], out),
        Record::List { a } => asking::list(head, columns, a, out),
        Record::Empty { a } => changing::empty(head, columns, a),
        Record::Count => asking::count(head),
        Record::Survey => asking::survey(head, out),
        Record::Exercise {
            slot,
            arity,
            roots,
            splits,
            seed,
        } => {
            let shape = Shape { arity, roots };
            changing::exercise(head, columns, slot, shape, splits, seed)
        }
        Record::Station { station } => stations::name(head, station),
        Record::Grant {
            station,
            slot,
            right,
        } => stations::grant(head, station, slot, right),
        Record::Sum => asking::sum(head),
    }
}

// The work of a line: what is read of it is done, and a line that is no record is refused.
pub fn work(
    head: &mut Head,
    columns: &mut [u64],
    line: &[u8],
    out: &mut [u8],
) -> Result<Reply, Refused>
    requires { Asked head.old columns.old out.old }
    ensures done { LineWorked head.old columns.old line.now out.old (work_of head.new result) columns.new out.new }
    ensures kept { OnErr result (head.new ≡ head.old) }
{
    let record = records::read(line).ok_or(Refusal::NoRecord)?;
    perform(head, columns, line, record, out)
}

// One line: the reply at the front of the output, and how long it is.
pub fn step(head: Head, columns: &mut [u64], line: &[u8], out: &mut [u8]) -> Stepped
    requires { Asked head columns.old out.old }
    ensures { Answered (respond_line (desk_of head columns.old) line.now) out.old result
        columns.new out.new }
{
    let mut next = head;
    let reply = work(&mut next, columns, line, out);
    let used = answer(&mut next, reply, out);
    Stepped { head: next, used }
}
