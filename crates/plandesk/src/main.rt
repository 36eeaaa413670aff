// The desk program (document 01, "Records": "The desk program reads standard input, one record a line .. Replies are lines ended the same
// way"): the desk of the crate `desk_core`, fed what each read brings, its replies written before the next read. The functions take any
// reader and writer. Where it is known which bytes these have left and hold, the promises are of those bytes; of standard input and output
// it is not, since what read and write do there is the system's.
#![tactic(auto)]

ghost use Rattle.std.specs.Prelude.{◌≡◌, ◌≤◌, ◌<◌, length, take, is_ok, IfOk, OnOk, OnErr, IfSome};
ghost use Rattle.std.specs.Io.KnownBytes.{Appends, Consumes, IsAtEnd, Keeps};
ghost use Rattle.replies.specs.Sizes.{max_reply};
ghost use Rattle.desk.specs.Session.{session};
ghost use Rattle.desk_core.specs.Feeding.{HoldsState};
ghost use Rattle.plandesk.specs.Session.{FedAll, ReachedFrom, replies_of, Sent, Conversed};

use desk_core::feeding;
use desk_core::feeding::State;
use std::io::{ErrorKind, Read, Write};
use std::process::ExitCode;

// How often a call that moves nothing is made before it counts as a fault. One that a signal interrupted is made again like any other.
const TRIES: u64 = 1000;

// The bytes of a buffer.
const LARGE: usize = 65536;

// The status of a program that is ended because nobody reads what it writes: that of a shell for the signal of a closed pipe.
const CLOSED: u8 = 141;

// Why nothing more is answered: a read failed, a write did, or the reader of the replies went away.
#[derive(Clone, Copy)]
enum Fault {
    Unread,
    Unwritten,
    Closed,
}

// A state, and whether all replies on the way to it were written.
#[derive(Drop)]
struct Answered {
    pub state: State,
    pub written: Result<(), Fault>,
}

// After a read: the state, and how many bytes were read and fed, none at the end of input.
#[derive(Drop)]
struct Turned {
    pub state: State,
    pub fed: Result<usize, Fault>,
}

// After the last read: the state, and whether all of the input was fed and its replies written.
#[derive(Drop)]
struct Ended {
    pub state: State,
    pub whole: Result<(), Fault>,
}

// One write that takes some of the bytes, and how many. A closed pipe stays closed, and is not tried again.
fn write_some<W: Write>(to: &mut W, bytes: &[u8]) -> Result<usize, Fault>
    ensures some { IfOk result (λ n. 0 < n) }
    ensures bound { IfOk result (λ n. n ≤ length bytes.now) }
    ensures appended { IfOk result (λ n. Appends (W.contents to.old) (W.contents to.new) (take n bytes.now)) }
    ensures none { OnErr result (Keeps (W.contents to.old) (W.contents to.new)) }
{
    for _ in 0..TRIES {
        match to.write(bytes) {
            Ok(0) => {}
            Ok(put) => return Ok(put),
            Err(error) => {
                if error.kind() == ErrorKind::BrokenPipe {
                    return Err(Fault::Closed);
                }
            }
        }
    }
    Err(Fault::Unwritten)
}

// All of the bytes, in as many writes as that takes. (kept: a `while`, since no index is counted: each turn goes on by what a write took.)
fn write_out<W: Write>(to: &mut W, bytes: &[u8]) -> Result<(), Fault>
    ensures { Sent (W.contents to.old) (W.contents to.new) bytes.now (is_ok result) }
{
    let mut done = 0;
    while done < bytes.len() {
        done += write_some(to, &bytes[done..])?;
    }
    Ok(())
}

// All of a piece, fed, and its replies written whenever the output is full and at its end. (kept: a `while`, since no index is counted:
// each turn goes on by what `feed` took.)
fn answer<W: Write>(state: State, piece: &[u8], out: &mut [u8], to: &mut W) -> Answered
    requires holds_state { HoldsState state }
    requires max_reply_in_bounds { max_reply ≤ length out.old }
    ensures holds_state_2 { HoldsState result.state }
    ensures fed_all { OnOk result.written (FedAll state piece.now result.state) }
    ensures replied { Sent (W.contents to.old) (W.contents to.new) (replies_of state piece.now)
        (is_ok result.written) }
{
    let mut s = state;
    let mut at = 0;
    while at < piece.len() {
        let fed = feeding::feed(s, &piece[at..], out);
        s = fed.state;
        if let Err(fault) = write_out(to, &out[..fed.used]) {
            return Answered {
                state: s,
                written: Err(fault),
            };
        }
        at += fed.taken;
    }
    Answered {
        state: s,
        written: Ok(()),
    }
}

// What one read brings, from the front of a buffer on: how many bytes.
fn read_piece<R: Read>(from: &mut R, input: &mut [u8]) -> Result<usize, Fault>
    ensures bound { IfOk result (λ n. n ≤ length input.new) }
    ensures read { IfOk result (λ n. Consumes (R.remaining from.old) (R.remaining from.new)
        (take n input.new)) }
    ensures end { IfOk result (λ n. n ≡ 0 → 0 < length input.old → IsAtEnd (R.remaining from.new)) }
    ensures none { OnErr result (Keeps (R.remaining from.old) (R.remaining from.new)) }
{
    for _ in 0..TRIES {
        if let Ok(got) = from.read(input) {
            return Ok(got);
        }
    }
    Err(Fault::Unread)
}

// Reads one piece and answers it. At a fault of a read nothing more is answered: what was read of a line may be the beginning of another
// record, as `K⇥A⇥1` is of `K⇥A⇥12`, and only the end of input says that it is whole.
fn turn<R: Read, W: Write>(
    state: State,
    input: &mut [u8],
    out: &mut [u8],
    from: &mut R,
    to: &mut W,
) -> Turned
    requires holds_state { HoldsState state }
    requires max_reply_in_bounds { max_reply ≤ length out.old }
    ensures holds_state_2 { HoldsState result.state }
    ensures fed_all { IfOk result.fed (λ n. FedAll state (take n input.new) result.state) }
    ensures conversed { Conversed state (R.remaining from.old) (R.remaining from.new)
        (W.contents to.old) (W.contents to.new) (is_ok result.fed) result.state }
    ensures end { IfOk result.fed (λ n. n ≡ 0 → 0 < length input.old → IsAtEnd (R.remaining from.new)) }
{
    match read_piece(from, input) {
        Ok(n) => {
            let a = answer(state, &input[..n], out, to);
            Turned {
                state: a.state,
                fed: a.written.and(Ok(n)),
            }
        }
        Err(fault) => Turned {
            state: state,
            fed: Err(fault),
        },
    }
}

// All of the input, from a state on. The turns are counted because a loop must end; no machine makes so many.
fn read_all<R: Read, W: Write>(start: State, out: &mut [u8], from: &mut R, to: &mut W) -> Ended
    requires holds_state { HoldsState start }
    requires max_reply_in_bounds { max_reply ≤ length out.old }
    ensures holds_state_2 { HoldsState result.state }
    ensures reached_from { OnOk result.whole (ReachedFrom start result.state) }
    ensures conversed { Conversed start (R.remaining from.old) (R.remaining from.new)
        (W.contents to.old) (W.contents to.new) (is_ok result.whole) result.state }
    ensures end { OnOk result.whole (IsAtEnd (R.remaining from.new)) }
{
    let mut input = [0u8; LARGE];
    let mut state = start;
    for _ in 0..u64::MAX {
        let t = turn(state, &mut input, out, from, to);
        state = t.state;
        match t.fed {
            Ok(0) => {
                return Ended {
                    state: state,
                    whole: Ok(()),
                };
            }
            Ok(_) => {}
            Err(fault) => {
                return Ended {
                    state: state,
                    whole: Err(fault),
                };
            }
        }
    }
    Ended {
        state: state,
        whole: Err(Fault::Unread),
    }
}

// All of the input, from a fresh desk on, and its end.
fn run<R: Read, W: Write>(out: &mut [u8], from: &mut R, to: &mut W) -> Result<(), Fault>
    requires { max_reply ≤ length out.old }
    ensures session { IfSome (R.remaining from.old) (λ input. Sent (W.contents to.old)
        (W.contents to.new) (session input) (is_ok result)) }
    ensures end { OnOk result (IsAtEnd (R.remaining from.new)) }
{
    let ended = read_all(feeding::fresh(), out, from, to);
    ended.whole?;
    let last = feeding::finish(ended.state, out);
    write_out(to, &out[..last.used])
}

// The one line of a fault goes to standard error, and nothing is left to do where that can't be written either.
fn main(rt: HostRuntime) -> ExitCode {
    let mut out = [0u8; LARGE];
    let line = match run(&mut out, &mut rt.stdin(), &mut rt.stdout()) {
        Ok(()) => return ExitCode::SUCCESS,
        Err(Fault::Closed) => return ExitCode::from(CLOSED),
        Err(Fault::Unread) => "plandesk: standard input can't be read\n",
        Err(Fault::Unwritten) => "plandesk: standard output can't be written\n",
    };
    let _ = write_out(&mut rt.stderr(), line.as_bytes());
    ExitCode::SUCCESS
}
