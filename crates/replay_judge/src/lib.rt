// A file of recorded nights, judged as its bytes come, in portions of any length: what a program carries from one
// portion to the next, and what it tells of each day. A day's input is read as it comes, into the program's tables; held
// beside them are the bytes of a line that has not ended, and the day's output.
#![tactic(auto)]

ghost use Rattle.std.specs.Prelude.{◌≡◌, ◌≤◌, ◌<◌, length, take};
ghost use Rattle.text_digits.specs.Wrote.{SameBuffer, Wrote};
ghost use Rattle.text_fields.specs.Fields.{Free};
ghost use Rattle.base_places.specs.Lengths.{told_bytes};
ghost use Rattle.replay_days.specs.Judged.{judged};
ghost use Rattle.replay_days.specs.Going.{finish};
ghost use Rattle.replay_judge.specs.Carried.{buffers, buffers_of, differing_after, next_day, next_line};
ghost use Rattle.replay_judge.specs.Stands.{Begins, EndsComparing, EndsDay, EndsInput, EndsLine, FeedsInput, Finishes, GoesOn, Portion, Read, Tells, TurnsTo, turned};

use base_places::{
    BODY_WIDTH, FLOATS_WIDTH, LONGEST_OUTPUT, MOST_IN_LINE, NUMBERS_WIDTH, PORTION, PROGRAM_BODIES,
    PROGRAM_CONTACTS, PROGRAM_STEPS, STEP_WIDTH, TOLD, one_more,
};
use replay_compare::{
    LineSoFar, Spot, compare_run, end_number, holds_only, longer, met, next_byte, tell,
    tell_counted_verdict,
};
use text_digits::Page;
use text_fields::run_end;
use text_program::{NightBuffers, front};
use text_read::Reader;

// A day's input so far: the reader of it, and whether a line of it has ended. A line that holds only D so far is not fed to
// the reader before it goes on: it may be the end of the input.
#[derive(Clone, Copy)]
pub struct Feeding {
    pub reader: Reader,
    pub any: bool,
}

// In a day's input; in its recorded output; or there after a line that differs.
#[derive(Clone, Copy)]
pub enum Part {
    Input(Feeding),
    Comparing(Spot),
    Differing,
}

// What is carried from one line, or part of one, to the next.
#[derive(Clone, Copy)]
pub struct Judge {
    pub day: usize,
    pub line: LineSoFar,
    pub part: Part,
}

// What is carried on, and the place after what was told.
#[derive(Clone, Copy)]
pub struct Turned {
    pub judge: Judge,
    pub at: usize,
}

// What is carried on, and the place in the portion after what was judged.
#[derive(Clone, Copy)]
struct Turn {
    judge: Judge,
    next: usize,
}

// A line ended in a day's input: the D, after which the output of what was read is there to compare with, or one line
// more. (That output is lent beside the buffers of the input, and not in a struct with them: `go_on` and `end_comparing` only
// read it.)
fn end_input(
    line: LineSoFar,
    f: Feeding,
    input: &mut NightBuffers,
    out: &mut [u8; LONGEST_OUTPUT],
) -> Part
    ensures { EndsInput line f (buffers_of input.old) out.old result (buffers_of input.new) out.new }
{
    if holds_only(line, b'D') {
        let k = input.end(f.reader);
        let len = input.answer(k, out);
        Part::Comparing(Spot {
            len,
            start: 0,
            at: Some(0),
            number: 1,
        })
    } else {
        let reader = input.portion(f.reader, &[10]);
        Part::Input(Feeding { reader, any: true })
    }
}

// The line of a day's input goes on with a run of bytes, and is then `after`.
fn feed_run(
    before: LineSoFar,
    after: LineSoFar,
    f: Feeding,
    run: &[u8],
    input: &mut NightBuffers,
) -> Feeding
    ensures { FeedsInput before after f run.now (buffers_of input.old) result (buffers_of input.new) }
{
    if holds_only(after, b'D') {
        return f;
    }
    if holds_only(before, b'D') {
        let with = input.portion(f.reader, &[b'D']);
        let reader = input.portion(with, run);
        return Feeding { reader, any: f.any };
    }
    let reader = input.portion(f.reader, run);
    Feeding { reader, any: f.any }
}

// The day after.
fn next_day(day: usize) -> Judge
    ensures { result ≡ next_day day }
{
    let reader = text_read::begin();
    Judge {
        day: one_more(day),
        line: LineSoFar::Empty,
        part: Part::Input(Feeding { reader, any: false }),
    }
}

// The output's line after one that was met, from `start` on.
fn next_line(day: usize, p: Spot, start: usize) -> Judge
    ensures { result ≡ next_line day p start }
{
    let part = Part::Comparing(Spot {
        len: p.len,
        start,
        at: Some(start),
        number: one_more(p.number),
    });
    Judge {
        day,
        line: LineSoFar::Empty,
        part,
    }
}

// A recorded line ended: the Z, the output's next line, or one that differs.
fn end_comparing(day: usize, line: LineSoFar, p: Spot, out: &[u8], page: &mut Page) -> Judge
    requires { page.old.at ≤ length page.old.out.now }
    ensures ends { EndsComparing day line p out.now page.old.out.now page.old.at (turned result page.new.at) page.new.out.now }
    ensures same { SameBuffer page.old page.new }
{
    if holds_only(line, b'Z') {
        tell_counted_verdict(page, day, end_number(p));
        return next_day(day);
    }
    match met(p, next_byte(p, out), line) {
        Some(start) => next_line(day, p, start),
        None => {
            tell_counted_verdict(page, day, Some(p.number));
            Judge {
                day,
                line: LineSoFar::Empty,
                part: Part::Differing,
            }
        }
    }
}

// A recorded line ended after one that differed: the Z, or any other.
fn end_differing(day: usize, line: LineSoFar) -> Judge
    ensures { result ≡ differing_after day line }
{
    if holds_only(line, b'Z') {
        return next_day(day);
    }
    Judge {
        day,
        line: LineSoFar::Empty,
        part: Part::Differing,
    }
}

// A line ended.
fn end_line(
    j: Judge,
    input: &mut NightBuffers,
    out: &mut [u8; LONGEST_OUTPUT],
    page: &mut Page,
) -> Judge
    requires { page.old.at ≤ length page.old.out.now }
    ensures ends { EndsLine j (buffers_of input.old) out.old page.old.out.now page.old.at (turned result page.new.at)
        (buffers_of input.new) out.new page.new.out.now }
    ensures same { SameBuffer page.old page.new }
{
    match j.part {
        Part::Input(f) => {
            let part = end_input(j.line, f, input, out);
            Judge {
                day: j.day,
                line: LineSoFar::Empty,
                part,
            }
        }
        Part::Comparing(p) => end_comparing(j.day, j.line, p, &*out, page),
        Part::Differing => end_differing(j.day, j.line),
    }
}

// The line goes on with a run of bytes.
fn go_on(j: Judge, run: &[u8], input: &mut NightBuffers, out: &[u8]) -> Judge
    requires { Free 10 run.now }
    ensures { GoesOn j run.now (buffers_of input.old) out.now result (buffers_of input.new) }
{
    let line = longer(j.line, run);
    let part = match j.part {
        Part::Input(f) => Part::Input(feed_run(j.line, line, f, run, input)),
        Part::Comparing(p) => Part::Comparing(compare_run(p, out, run)),
        Part::Differing => Part::Differing,
    };
    Judge {
        day: j.day,
        line,
        part,
    }
}

// The line of a portion from byte i on, which ends or goes on with all of the portion's bytes.
fn judge_line(
    j: Judge,
    s: &[u8],
    i: usize,
    input: &mut NightBuffers,
    out: &mut [u8; LONGEST_OUTPUT],
    page: &mut Page,
) -> Turn
    requires { (page.old.at ≤ length page.old.out.now) × (i < length s.now) }
    ensures turns { TurnsTo j (buffers_of input.old) out.old page.old.out.now page.old.at s.now i result
        (buffers_of input.new) out.new page.new.out.now page.new.at }
    ensures same { SameBuffer page.old page.new }
{
    let end = run_end(s, i, 10);
    let judge = go_on(j, &s[i..end], &mut *input, &*out);
    if end == s.len() {
        return Turn { judge, next: end };
    }
    let next = end + 1;
    let judge = end_line(judge, input, out, page);
    Turn { judge, next }
}

// The beginning of a file.
pub fn begin() -> Judge
    ensures { Begins result }
{
    let reader = text_read::begin();
    Judge {
        day: 1,
        line: LineSoFar::Empty,
        part: Part::Input(Feeding { reader, any: false }),
    }
}

// A portion of a file, no longer than a machine's memory: what it tells stands at the front of `told`, as far as there is
// room.
fn judge_portion(
    j: Judge,
    portion: &[u8],
    input: &mut NightBuffers,
    out: &mut [u8; LONGEST_OUTPUT],
    told: &mut [u8],
) -> Turned
    ensures portion { Portion j (buffers_of input.old) out.old told.old portion.now result (buffers_of input.new) out.new told.new }
    ensures portion_len_bound { length portion.now < 9223372036854775808 }
{
    let mut page = Page { out: told, at: 0 };
    let mut judge = j;
    let mut i = 0;
    // from one line to the next, as `text_read` does; the library's `split_inclusive` takes four times as long
    while i < portion.len() {
        let t = judge_line(judge, portion, i, &mut *input, &mut *out, &mut page);
        judge = t.judge;
        i = t.next;
    }
    Turned { judge, at: page.at }
}

// The end of a file after whole lines.
fn end_day(j: Judge, page: &mut Page)
    requires { page.old.at ≤ length page.old.out.now }
    ensures ends { EndsDay j page.old.out.now page.old.at page.new.out.now page.new.at }
    ensures same { SameBuffer page.old page.new }
{
    match j.part {
        Part::Input(f) => {
            if f.any {
                tell(page, j.day, 2);
            }
        }
        Part::Comparing(p) => tell_counted_verdict(page, j.day, end_number(p)),
        Part::Differing => {}
    }
}

// The end of a file: what stands after the last byte 10, if anything, is a line too.
fn end_file(j: Judge, input: &mut NightBuffers, out: &mut [u8; LONGEST_OUTPUT], page: &mut Page)
    requires { page.old.at ≤ length page.old.out.now }
    ensures tells { Tells j (buffers_of input.old) out.old page.old.out.now page.old.at 1 finish page.new.out.now page.new.at }
    ensures same { SameBuffer page.old page.new }
{
    if j.line == LineSoFar::Empty {
        return end_day(j, page);
    }
    let judge = end_line(j, input, out, page);
    end_day(judge, page);
}

// The same in a buffer from a place on: the place after what is told. (A page is borrowed from its buffer, and ends with the
// call that made it.)
fn tell_end(
    j: Judge,
    input: &mut NightBuffers,
    out: &mut [u8; LONGEST_OUTPUT],
    told: &mut [u8],
    at: usize,
) -> usize
    requires { at ≤ length told.old }
    ensures { Tells j (buffers_of input.old) out.old told.old at 1 finish told.new result }
{
    let mut page = Page { out: told, at };
    end_file(j, input, out, &mut page);
    page.at
}

impl Judge {
    // A portion of a file, of which n bytes were read: what it tells stands at the front of `told`, which has room for all. That
    // hangs on the array's length: of a slice it would have to be asked.
    pub fn read(
        self,
        portion: &[u8; PORTION],
        n: usize,
        input: &mut NightBuffers,
        out: &mut [u8; LONGEST_OUTPUT],
        told: &mut [u8; TOLD],
    ) -> Turned
        ensures read { Read self (buffers_of input.old) out.old told.old (take n portion.now) result (buffers_of input.new) out.new told.new }
        ensures at_le_told_bytes { result.at ≤ told_bytes }
    {
        judge_portion(self, front(portion, n), input, out, told)
    }

    // The end of a file that came in portions: what it tells stands at the front of `told`, which has room for all.
    pub fn end(
        self,
        input: &mut NightBuffers,
        out: &mut [u8; LONGEST_OUTPUT],
        told: &mut [u8; TOLD],
    ) -> usize
        ensures finishes { Finishes self (buffers_of input.old) out.old told.old told.new result }
        ensures upper_bound { result ≤ told_bytes }
    {
        tell_end(self, input, out, told, 0)
    }
}

// As `Judge::read`, for who holds the line and the tables apart: they are laid together, and what is left goes back.
pub fn judge_read(
    j: Judge,
    portion: &[u8; PORTION],
    n: usize,
    held: &mut [u8; MOST_IN_LINE],
    bodies: &mut [u32; PROGRAM_BODIES * BODY_WIDTH],
    numbers: &mut [u16; PROGRAM_CONTACTS * NUMBERS_WIDTH],
    floats: &mut [u32; PROGRAM_CONTACTS * FLOATS_WIDTH],
    steps: &mut [u16; PROGRAM_STEPS * STEP_WIDTH],
    out: &mut [u8; LONGEST_OUTPUT],
    told: &mut [u8; TOLD],
) -> Turned
    ensures read { Read j (buffers held.old bodies.old numbers.old floats.old steps.old) out.old told.old (take n portion.now) result
        (buffers held.new bodies.new numbers.new floats.new steps.new) out.new told.new }
    ensures at_le_told_bytes { result.at ≤ told_bytes }
{
    let mut input = NightBuffers {
        line: *held,
        bodies: *bodies,
        numbers: *numbers,
        floats: *floats,
        steps: *steps,
    };
    let turned = j.read(portion, n, &mut input, out, told);
    *held = input.line;
    *bodies = input.bodies;
    *numbers = input.numbers;
    *floats = input.floats;
    *steps = input.steps;
    turned
}

// As `Judge::end`, in the same way. (The tables are left as they came: nobody is told what they hold then.)
pub fn judge_end(
    j: Judge,
    held: &mut [u8; MOST_IN_LINE],
    bodies: &mut [u32; PROGRAM_BODIES * BODY_WIDTH],
    numbers: &mut [u16; PROGRAM_CONTACTS * NUMBERS_WIDTH],
    floats: &mut [u32; PROGRAM_CONTACTS * FLOATS_WIDTH],
    steps: &mut [u16; PROGRAM_STEPS * STEP_WIDTH],
    out: &mut [u8; LONGEST_OUTPUT],
    told: &mut [u8; TOLD],
) -> usize
    ensures finishes { Finishes j (buffers held.old bodies.old numbers.old floats.old steps.old) out.old told.old told.new result }
    ensures upper_bound { result ≤ told_bytes }
{
    let mut input = NightBuffers {
        line: *held,
        bodies: *bodies,
        numbers: *numbers,
        floats: *floats,
        steps: *steps,
    };
    j.end(&mut input, out, told)
}

// A whole file in one piece: what is written of it, as far as there is room.
pub fn judge_file(file: &[u8], told: &mut [u8]) -> usize
    ensures { Wrote told.old 0 (judged file.now) told.new result }
{
    let mut input = NightBuffers::zeros();
    let mut out = [0; LONGEST_OUTPUT];
    let t = judge_portion(begin(), file, &mut input, &mut out, &mut *told);
    tell_end(t.judge, &mut input, &mut out, told, t.at)
}
