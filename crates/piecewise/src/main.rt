// A test program: the desk of the crate `desk_core`, fed its standard input in pieces of odd sizes, so that lines are cut anywhere and
// several lines come in one piece. Its replies go to standard output, where `tests/compare` holds them to the second implementation.
// With an argument, whatever it is, it takes pieces as large as its buffer, to be measured (`bench/`).
#![tactic(auto)]

ghost use Rattle.std.specs.Prelude.{◌≤◌, length};
ghost use Rattle.replies.specs.Sizes.{max_reply};
ghost use Rattle.desk_core.specs.Feeding.{HoldsState};

use desk_core::feeding;
use desk_core::feeding::State;
use std::env::{Env, FillError};
use std::io::{Read, Write};

// Room for three of the longest replies. An odd piece may ask for more, and `feed` then stops and is called again.
const ROOM: usize = 13854;

// The bytes of a buffer.
const LARGE: usize = 65536;

// The size of the next piece: always the same large one, or 1, 2, 4, 7, 11 and so on up to 472, and from 1 again.
fn next(size: usize, large: bool) -> usize
    ensures { result ≤ 65536 }
{
    if large {
        return LARGE;
    }
    if 314 < size {
        return 1;
    }
    size + size / 2 + 1
}

// The replies to a piece, written each time that `feed` stops. One that can't be written is lost.
fn answer<W: Write>(state: State, piece: &[u8], out: &mut [u8], to: &mut W) -> State
    requires { HoldsState state }
    ensures { HoldsState result }
{
    let mut s = state;
    let mut at = 0;
    for _ in 0..piece.len() {
        let fed = feeding::feed(s, &piece[at..], out);
        let _ = to.write_all(&out[..fed.used]);
        at += fed.taken;
        s = fed.state;
        if piece.len() <= at {
            return s;
        }
    }
    s
}

// All of the input, in pieces. A read that fails ends it.
fn read_all<R: Read, W: Write>(large: bool, out: &mut [u8], from: &mut R, to: &mut W) -> State
    ensures { HoldsState result }
{
    let mut input = [0u8; LARGE];
    let mut state = feeding::fresh();
    let mut size = next(0, large);
    for _ in 0..u64::MAX {
        let n = from.read(&mut input[..size]).unwrap_or(0);
        if n == 0 {
            return state;
        }
        state = answer(state, &input[..n], out, to);
        size = next(size, large);
    }
    state
}

// All of the input, and its end.
fn run<R: Read, W: Write>(large: bool, out: &mut [u8], from: &mut R, to: &mut W)
    requires { max_reply ≤ length out.old }
{
    let state = read_all(large, out, from, to);
    let last = feeding::finish(state, out);
    let _ = to.write_all(&out[..last.used]);
}

#[tactic(auto, unfolding(replies::specs::Sizes::max_reply))]
fn main(rt: HostRuntime) {
    let mut out = [0u8; LARGE];
    let from = &mut rt.stdin();
    let to = &mut rt.stdout();
    if let Err(FillError::NotPresent) = rt.arg(1, &mut []) {
        run(false, &mut out[..ROOM], from, to);
    } else {
        run(true, &mut out, from, to);
    }
}
