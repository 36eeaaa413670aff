// Input in pieces (document 01, "Records": "The desk program reads standard input, one record a line .. lines ended by byte 10"). Between
// two pieces there is the desk and the beginning of a line, of which no more is held than a line may have; a whole line is answered where
// it lies in the piece. The promises are `feed` and `finish` of the crate `desk`.
// (kept: a head and its columns side by side, as `slots::Head` says.)
ghost use Rattle.std.specs.Prelude.{◌≡◌, ◌+◌, ◌≤◌, ◌<◌, length, take, IfSome, unwrap_or};
ghost use Rattle.higman.specs.Buffers.{written};
ghost use Rattle.desk.specs.Desk.{fresh_desk};
ghost use Rattle.desk.specs.Session.{idle, effect_of};
ghost use Rattle.asking.specs.Asked.{Asked};
ghost use Rattle.lines.specs.Lines.{Answered};
ghost use Rattle.desk_core.specs.Feeding.{state_of, begun_at, HoldsState, Held, GrownBy, LineEnd};
ghost use Rattle.desk_core.specs.Feeding.{LineAnswered, FedBy, Finishing, LastAnswered, FinishedBy};

use lines::Stepped;
use operations::refusals::Refusal;
use slots::{BLOCKS, COLUMNS, Desk, Head, Size};

// `max_line`: the most bytes of a line. (kept: written again, though it is `records::MAX_LINE`, since crates.txt has this crate stand on
// `lines` and not on `records`.)
pub const MAX_LINE: usize = 1100;

// `max_reply` of replies' Sizes.antt: the most bytes of a reply.
pub const MAX_REPLY: usize = 5127;

// The desk and the beginning of a line; whether that line is too long already, and what it held was let go. (to do: `begun` and `overlong`
// are still a value and a flag beside it, here and in `Begun`. One `Option<usize>` could be both, `None` where the line is too long:
// nothing of it is held then. `desk_feed` hands the flag in and out for C, and could go over to the Option inside.)
#[derive(Drop)]
pub struct State {
    pub head: Head,
    pub columns: [u64; COLUMNS],
    pub line: [u8; MAX_LINE],
    pub begun: usize,
    pub overlong: bool,
}

// What was fed: the state after it, how many bytes of the input were taken, and how many bytes of replies were written.
#[derive(Drop)]
pub struct Fed {
    pub state: State,
    pub taken: usize,
    pub used: usize,
}

// What is left when the input ends: the desk, and the bytes of the last reply.
#[derive(Drop)]
pub struct Finished {
    pub desk: Desk,
    pub used: usize,
}

// The beginning of a line that has grown by some bytes: how many of it are held, and whether it is too long.
#[derive(Drop)]
struct Begun {
    begun: usize,
    overlong: bool,
}

// "A fresh desk has empty slots and count 0."
pub fn fresh() -> State
    ensures { HoldsState result × (state_of result ≡ idle fresh_desk) }
{
    let none = Size {
        arity: 0,
        roots: 0,
        pairs: 0,
    };
    State {
        head: Head {
            sizes: [none; BLOCKS],
            draft: None,
            control: slots::fresh_control(),
        },
        columns: [0u64; COLUMNS],
        line: [0u8; MAX_LINE],
        begun: 0,
        overlong: false,
    }
}

// The place of the first byte 10 from a place on, if there is one.
fn line_end(input: &[u8], at: usize) -> Option<usize>
    requires { at ≤ length input.now }
    ensures inside { IfSome result (λ end. end < length input.now) }
    ensures first { LineEnd input.now at (unwrap_or result (length input.now)) }
{
    let length = input[at..].iter().position(|&byte| byte == b'\n')?;
    Some(at + length)
}

// Bytes copied behind the beginning of a line.
pub fn copy(line: &mut [u8], begun: usize, part: &[u8])
    requires { begun + length part.now ≤ length line.old }
    ensures { line.new ≡ written line.old begun part.now }
{
    line[begun..begun + part.len()].copy_from_slice(part);
}

// The beginning of a line grows by some bytes, none of them 10.
fn grow(line: &mut [u8], begun: usize, overlong: bool, part: &[u8]) -> Begun
    requires { Held line.old begun overlong }
    ensures { GrownBy line.old begun overlong part.now result line.new }
{
    if overlong {
        return Begun {
            begun,
            overlong: true,
        };
    }
    if MAX_LINE - begun < part.len() {
        return Begun {
            begun: 0,
            overlong: true,
        };
    }
    copy(line, begun, part);
    Begun {
        begun: begun + part.len(),
        overlong: false,
    }
}

// A line is whole: "a longer one, up to its byte 10, is one refusal".
fn end_line(head: Head, columns: &mut [u64], line: &[u8], overlong: bool, out: &mut [u8]) -> Stepped
    requires { Asked head columns.old out.old }
    ensures { Answered (effect_of (begun_at head columns.old line.now overlong)) out.old result
        columns.new out.new }
{
    if overlong {
        // As `lines::answer` does, which has one caller so: with two it would be handed the work of every line through memory.
        return Stepped {
            head: lines::dropped(head),
            used: lines::write_refusal(Refusal::NoRecord.into(), out),
        };
    }
    lines::step(head, columns, line, out)
}

// The rest of a line that has begun, up to its byte 10. A line that lies whole in the input is answered where it lies.
fn whole_line(
    head: Head,
    columns: &mut [u64],
    line: &mut [u8],
    begun: usize,
    overlong: bool,
    part: &[u8],
    out: &mut [u8],
) -> Stepped
    requires asked { Asked head columns.old out.old }
    requires held { Held line.old begun overlong }
    ensures line_answered { LineAnswered head columns.old (take begun line.old) overlong part.now out.old result
        columns.new out.new }
    ensures line_len_unchanged { length line.new ≡ length line.old }
{
    if begun == 0 && !overlong {
        return lines::step(head, columns, part, out);
    }
    let grown = grow(line, begun, overlong, part);
    end_line(head, columns, &line[..grown.begun], grown.overlong, out)
}

// Every whole line of a piece of input, as long as the output has room for any reply; the beginning of a line is carried over. (kept: a
// `while`, since no index is counted: each turn goes on by a line and its reply, which are of any length.)
pub fn feed(state: State, input: &[u8], out: &mut [u8]) -> Fed
    requires { HoldsState state }
    ensures { FedBy state input.now out.old result out.new }
{
    let mut head = state.head;
    let mut columns = state.columns;
    let mut line = state.line;
    let mut begun = state.begun;
    let mut overlong = state.overlong;
    let mut at = 0;
    let mut used = 0;
    while at < input.len() && MAX_REPLY <= out.len() - used {
        let Some(end) = line_end(input, at) else {
            let grown = grow(&mut line, begun, overlong, &input[at..]);
            return Fed {
                state: State {
                    head,
                    columns,
                    line,
                    begun: grown.begun,
                    overlong: grown.overlong,
                },
                taken: input.len(),
                used,
            };
        };
        let s = whole_line(
            head,
            &mut columns,
            &mut line,
            begun,
            overlong,
            &input[at..end],
            &mut out[used..],
        );
        head = s.head;
        begun = 0;
        overlong = false;
        used += s.used;
        at = end + 1;
    }
    Fed {
        state: State {
            head,
            columns,
            line,
            begun,
            overlong,
        },
        taken: at,
        used,
    }
}

// The last line, which no byte 10 ends: it is answered, and then the open plan is dropped.
fn last_line(
    head: Head,
    columns: [u64; COLUMNS],
    line: [u8; MAX_LINE],
    n: usize,
    overlong: bool,
    out: &mut [u8],
) -> Finished
    requires asked { Asked head columns out.old }
    requires held { Held line n overlong }
    ensures { LastAnswered (effect_of (begun_at head columns (take n line) overlong)) out.old result out.new }
{
    let mut columns = columns;
    let s = end_line(head, &mut columns, &line[..n], overlong, out);
    Finished {
        desk: Desk {
            head: lines::dropped(s.head),
            columns,
        },
        used: s.used,
    }
}

// The end of input: "A last line without that byte counts if it isn't empty. .. An open plan is dropped at the end of input."
pub fn finish(state: State, out: &mut [u8]) -> Finished
    requires { Finishing state out.old }
    ensures { FinishedBy state out.old result out.new }
{
    let head = state.head;
    let columns = state.columns;
    let line = state.line;
    if state.begun == 0 && !state.overlong {
        return Finished {
            desk: Desk {
                head: lines::dropped(head),
                columns,
            },
            used: 0,
        };
    }
    last_line(head, columns, line, state.begun, state.overlong, out)
}
