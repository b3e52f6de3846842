// The text program: a night's text on standard input, its answer on standard output. All that it does stands in the crates
// text_read and text_program; here are the buffers, the reading in portions, which ends after a bad line too, and what is
// said on standard error where the input cannot be read to its end or the answer not written.
#![tactic(auto)]

ghost use Rattle.std.specs.Prelude.{◌≡◌, ◌≤◌, IfOk, IfSome, IsOk, length, take};
ghost use Rattle.std.specs.Io.KnownBytes.{Appends, Consumes, IsAtEnd};
ghost use Rattle.text_output.specs.Output.{output};
ghost use Rattle.text_program.specs.Tables.{cells_of};
ghost use Rattle.sheet.specs.Once.{AnsweredOnce, ReadOnce, onward};

use base_places::{LONGEST_OUTPUT, PORTION};
use std::fmt;
use std::io::{Read, Write};
use text_program::{MOST_PORTIONS, NightBuffers, front};
use text_read::Reader;

// Why a run ended before the answer was written. The replay has a type of its own: one for both would need both programs' words.
#[derive(Clone, Copy, Debug, PartialEq, Eq)]
enum Failed {
    Unread,
    Unwritten,
    TooLong,
}

impl fmt::Display for Failed {
    fn fmt<W: fmt::Write>(&self, f: &mut fmt::Formatter<W>) -> fmt::Result {
        match self {
            Failed::Unread => write!(f, "the input could not be read to its end"),
            Failed::Unwritten => write!(f, "the answer could not be written"),
            Failed::TooLong => write!(f, "the input is too long"),
        }
    }
}

// After a portion: what is carried on, how many bytes were read, and whether there may be more to read that matters.
#[derive(Clone, Copy)]
struct Reading {
    reader: Reader,
    read: usize,
    more: bool,
}

// Reads once. A read of no bytes is the end, and none comes after it: at a terminal one more would wait for a second
// Ctrl-D. Where the read fails, it is as if no byte was read.
fn read_some<R: Read>(
    from: &mut R,
    k: Reader,
    portion: &mut [u8; PORTION],
    night: &mut NightBuffers,
) -> Result<Reading, Failed>
    ensures once { ReadOnce k night.old.line (cells_of night.old) (onward k result)
        portion.new night.new.line (cells_of night.new) }
    ensures taken { Consumes (R.remaining from.old) (R.remaining from.new) (take (onward k result).read portion.new) }
    ensures at_end { IfOk result (λ on. on.read ≡ 0 → IsAtEnd (R.remaining from.new)) }
{
    let Ok(n) = from.read(&mut *portion) else {
        return Err(Failed::Unread);
    };
    let reader = night.portion(k, front(&*portion, n));
    Ok(Reading {
        reader,
        read: n,
        more: (0 < n) & reader.bad.is_none(),
    })
}

// The end of the input: its answer, at the buffer's front, and how long that is.
fn answer(k: Reader, night: &mut NightBuffers, out: &mut [u8; LONGEST_OUTPUT]) -> usize
    ensures once { AnsweredOnce k night.old.line (cells_of night.old) out.old out.new result }
    ensures fits { result ≤ length out.new }
{
    let reader = night.end(k);
    night.answer(reader, out)
}

// Portion after portion, each turn with what the one before left; then the end. The loop never comes to its last turn: a
// text has at most 641 lines, each of at most 160 bytes, and ends before or is bad. Where all went well, the text's output
// was written, and nothing else.
fn answer_all<R: Read, W: Write>(from: &mut R, to: &mut W) -> Result<(), Failed>
    ensures { IsOk result → IfSome (R.remaining from.old)
        (λ text. Appends (W.contents to.old) (W.contents to.new) (output text)) }
{
    let mut portion = [0; PORTION];
    let mut night = NightBuffers::zeros();
    let mut out = [0; LONGEST_OUTPUT];
    let mut k = text_read::begin();
    for _ in 0..MOST_PORTIONS {
        let on = read_some(&mut *from, k, &mut portion, &mut night)?;
        k = on.reader;
        if !on.more {
            let n = answer(k, &mut night, &mut out);
            return to.write_all(&out[..n]).map_err(|_| Failed::Unwritten);
        }
    }
    Err(Failed::TooLong)
}

fn main(rt: HostRuntime) {
    if let Err(failed) = answer_all(&mut rt.stdin(), &mut rt.stdout()) {
        // where that cannot be written, there is nobody left to tell
        let _ = eprintln!(rt; "sheet: {failed}");
    }
}
