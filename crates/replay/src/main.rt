// The replay of recorded nights: a file of days on standard input, a line for each day on standard output. All that it
// says stands in the crate replay_judge; here are the buffers, the reading in portions, and what is said on standard error
// where the file cannot be read to its end or a line not written.
#![tactic(auto)]

ghost use Rattle.std.specs.Prelude.{◌≡◌, ◌≤◌, IfOk, IfSome, IsOk, OnOk, take};
ghost use Rattle.std.specs.Io.KnownBytes.{Appends, Consumes, IsAtEnd};
ghost use Rattle.base_places.specs.Lengths.{told_bytes};
ghost use Rattle.replay_days.specs.Judged.{judged};
ghost use Rattle.replay_judge.specs.Carried.{buffers_of};
ghost use Rattle.replay.specs.ReadOnce.{ReadOnce, onward};

use base_places::{LONGEST_OUTPUT, PORTION, TOLD};
use replay_judge::{Judge, begin};
use std::fmt;
use std::io::{Read, Write};
use text_program::{MOST_PORTIONS, NightBuffers};

// Why a run ended before all days were told of. The text program has a type of its own: one for both would need both
// programs' words.
#[derive(Clone, Copy, Debug, PartialEq, Eq)]
enum Failed {
    Unread,
    Unwritten,
    TooLong,
}

impl fmt::Display for Failed {
    fn fmt<W: fmt::Write>(&self, f: &mut fmt::Formatter<W>) -> fmt::Result {
        match self {
            Failed::Unread => write!(f, "the file could not be read to its end"),
            Failed::Unwritten => write!(f, "a day's line could not be written"),
            Failed::TooLong => write!(f, "the file is too long"),
        }
    }
}

// After a portion: what is carried on, how many bytes were read, how many are told of them, and whether there may be more to
// read.
#[derive(Clone, Copy)]
struct Reading {
    judge: Judge,
    read: usize,
    count: usize,
    more: bool,
}

// Reads once, and tells of the days that end there. Where the read fails, it is as if no byte was read.
fn replay_some<R: Read>(
    from: &mut R,
    j: Judge,
    portion: &mut [u8; PORTION],
    night: &mut NightBuffers,
    out: &mut [u8; LONGEST_OUTPUT],
    told: &mut [u8; TOLD],
) -> Result<Reading, Failed>
    ensures once { ReadOnce j (buffers_of night.old) out.old told.old (onward j result)
        portion.new (buffers_of night.new) out.new told.new }
    ensures taken { Consumes (R.remaining from.old) (R.remaining from.new) (take (onward j result).read portion.new) }
    ensures at_end { IfOk result (λ on. on.read ≡ 0 → IsAtEnd (R.remaining from.new)) }
    ensures fits { IfOk result (λ on. on.count ≤ told_bytes) }
{
    let Ok(n) = from.read(&mut *portion) else {
        return Err(Failed::Unread);
    };
    let t = j.read(&*portion, n, night, out, told);
    Ok(Reading {
        judge: t.judge,
        read: n,
        count: t.at,
        more: 0 < n,
    })
}

// Writes what is told.
fn write_told<W: Write>(to: &mut W, told: &[u8]) -> Result<(), Failed>
    ensures { OnOk result (Appends (W.contents to.old) (W.contents to.new) told.now) }
{
    to.write_all(told).map_err(|_| Failed::Unwritten)
}

// Portion after portion, each turn with what the one before left; then the end. With so many portions a day's number stays
// below 2^63. Where all went well, what is to be said of the file's days was written, and nothing else.
fn replay_all<R: Read, W: Write>(from: &mut R, to: &mut W) -> Result<(), Failed>
    ensures { IsOk result → IfSome (R.remaining from.old)
        (λ file. Appends (W.contents to.old) (W.contents to.new) (judged file)) }
{
    let mut portion = [0; PORTION];
    let mut night = NightBuffers::zeros();
    let mut out = [0; LONGEST_OUTPUT];
    let mut told = [0; TOLD];
    let mut j = begin();
    for _ in 0..MOST_PORTIONS {
        let on = replay_some(&mut *from, j, &mut portion, &mut night, &mut out, &mut told)?;
        write_told(&mut *to, &told[..on.count])?;
        j = on.judge;
        if !on.more {
            let k = j.end(&mut night, &mut out, &mut told);
            return write_told(to, &told[..k]);
        }
    }
    Err(Failed::TooLong)
}

fn main(rt: HostRuntime) {
    if let Err(failed) = replay_all(&mut rt.stdin(), &mut rt.stdout()) {
        // where that cannot be written, there is nobody left to tell
        let _ = eprintln!(rt; "replay: {failed}");
    }
}
