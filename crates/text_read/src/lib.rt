// A text that arrives in portions, read line by line into tables. What is carried from one portion to the next is a reader, and
// the bytes of the line that has not ended.
#![tactic(auto)]

ghost use Rattle.std.specs.Prelude.{◌≡◌, ◌∷◌, [], ◌++◌, ◌+◌, ◌≤◌, ◌<◌, length};
ghost use Rattle.text_fields.specs.Fields.{Free};
ghost use Rattle.base_places.specs.Lengths.{most_in_line};
ghost use Rattle.text_line.specs.Filled.{Appended, SameTables, lent_cells, reason_number};
ghost use Rattle.text_read.specs.Carried.{Ends, ReadWhole, Takes, fresh, settled_in};
ghost use Rattle.text_read.specs.Handed.{Closes, Fed, GoesOn, Sound, Turned, after_line, closed_reader, refused_for, settled};

use base_places::{MOST_IN_LINE, one_more};
use text_fields::{Counts, run_end};
use text_line::{BadLine, Place, State, Tables, in_contact, read_line};

// What ends a line.
const LINE_END: u8 = 10;

// Whether the end was announced; why a line was bad, if one was (any byte, since a host's words hold any: document 01's reasons are
// `text_line::BadLine`); the number of the line that has not ended, or of the bad one; the place in the order of lines and how far the
// tables are filled; how many bytes there are of the line that has not ended. Those stand in the host's memory, and not here.
#[derive(Clone, Copy)]
pub struct Reader {
    pub over: bool,
    pub bad: Option<u8>,
    pub number: usize,
    pub st: State,
    pub len: usize,
}

// After a line, or a part of one: the place in the portion after it.
#[derive(Clone, Copy)]
struct Turn {
    reader: Reader,
    at: usize,
}

// A state of any fields as one of tables that hold so many numbers: none is filled past its end.
pub fn within(st: State, room: Counts) -> State
    ensures { result ≡ settled_in st room }
{
    State {
        place: st.place,
        bodies: st.bodies.min(room.bodies),
        numbers: st.numbers.min(room.numbers),
        floats: st.floats.min(room.floats),
        steps: st.steps.min(room.steps),
    }
}

// A reader whose text is not refused, and of any other fields, as one that can be fed.
fn settle(k: Reader, room: Counts) -> Reader
    ensures { result ≡ settled k room }
{
    Reader {
        over: false,
        bad: None,
        number: k.number,
        st: within(k.st, room),
        len: k.len.min(MOST_IN_LINE),
    }
}

fn refuse(k: Reader, reason: BadLine) -> Reader
    ensures { result ≡ refused_for k (reason_number reason) }
{
    Reader {
        bad: Some(u8::from(reason)),
        ..k
    }
}

fn after_line(k: Reader, read: Result<State, BadLine>) -> Reader
    ensures { result ≡ after_line k read }
{
    match read {
        Ok(st) => Reader {
            over: k.over,
            bad: None,
            number: one_more(k.number),
            st,
            len: 0,
        },
        Err(reason) => refuse(k, reason),
    }
}

// A run's bytes, held after the first `at` of a line; and how far it is held then. (Byte by byte: `append`, which copies in one go,
// has the archive for hosts call memmove here, a name that their linker may not have.)
fn hold(line: &mut [u8], at: usize, run: &[u8]) -> usize
    requires { at + length run.now ≤ length line.old }
    ensures { Appended line.old at run.now line.new result }
{
    let mut end = at;
    for b in run {
        line[end] = *b;
        end += 1;
    }
    end
}

// The line goes on with a run of bytes, and does not end: no table is looked at, so what is said holds of any. (The line's
// bytes come as a slice, here and below: a part of an array behind a reference can't be lent.)
fn go_on(k: Reader, run: &[u8], line: &mut [u8]) -> Reader
    requires { (k.len ≤ most_in_line) × Free 10 run.now × (length line.old ≡ most_in_line) }
    ensures { GoesOn k line.old run.now result line.new }
{
    if MOST_IN_LINE - k.len < run.len() {
        return refuse(k, BadLine::TooLong);
    }
    let len = hold(line, k.len, run);
    Reader { len, ..k }
}

// The line goes on with a run of bytes, and ends.
fn end_line(k: Reader, run: &[u8], line: &mut [u8], tables: &mut Tables<'_>) -> Reader
    requires { Sound k (lent_cells tables.old) × Free 10 run.now × (length line.old ≡ most_in_line) }
    ensures same { SameTables tables.old tables.new }
    ensures fed { Fed k line.old (lent_cells tables.old) (run.now ++ (10 ∷ [])) result line.new (lent_cells tables.new) }
{
    if MOST_IN_LINE - k.len < run.len() {
        return refuse(k, BadLine::TooLong);
    }
    if k.len == 0 {
        return after_line(k, read_line(k.st, run, tables));
    }
    let all = hold(&mut *line, k.len, run);
    after_line(k, read_line(k.st, &line[..all], tables))
}

// The line of a portion from byte i on, which ends or goes on with all of the portion's bytes.
fn feed_line(k: Reader, s: &[u8], i: usize, line: &mut [u8], tables: &mut Tables<'_>) -> Turn
    requires { Sound k (lent_cells tables.old) × (i < length s.now) × (length line.old ≡ most_in_line) }
    ensures same { SameTables tables.old tables.new }
    ensures turned { Turned k line.old (lent_cells tables.old) s.now i result line.new (lent_cells tables.new) }
{
    let end = run_end(s, i, LINE_END);
    if end == s.len() {
        let reader = go_on(k, &s[i..], line);
        return Turn { reader, at: end };
    }
    let next = end + 1;
    let reader = end_line(k, &s[i..end], line, tables);
    Turn { reader, at: next }
}

// A portion, line by line. By index: the library's `split_inclusive` looks at one byte after the other, where `run_end` looks at
// sixteen (measured in Rust: 0.8 ns a byte for 0.2).
fn feed(k: Reader, s: &[u8], line: &mut [u8], tables: &mut Tables<'_>) -> Reader
    requires { Sound k (lent_cells tables.old) × (length line.old ≡ most_in_line) }
    ensures same { SameTables tables.old tables.new }
    ensures fed { Fed k line.old (lent_cells tables.old) s.now result line.new (lent_cells tables.new) }
{
    let mut t = k;
    let mut i = 0;
    while i < s.len() {
        let turn = feed_line(t, s, i, &mut *line, &mut *tables);
        t = turn.reader;
        i = turn.at;
        if t.bad.is_some() {
            return t;
        }
    }
    t
}

// Nothing has been read.
pub fn begin() -> Reader
    ensures { result ≡ fresh }
{
    Reader {
        over: false,
        bad: None,
        number: 1,
        st: State {
            place: Place::Bodies,
            bodies: 0,
            numbers: 0,
            floats: 0,
            steps: 0,
        },
        len: 0,
    }
}

// A portion. After the end, and after a bad line, it changes nothing.
pub fn portion(
    k: Reader,
    s: &[u8],
    line: &mut [u8; MOST_IN_LINE],
    tables: &mut Tables<'_>,
) -> Reader
    ensures same { SameTables tables.old tables.new }
    ensures takes { Takes k line.old (lent_cells tables.old) s.now result line.new (lent_cells tables.new) }
{
    if k.over | k.bad.is_some() {
        return k;
    }
    let t = settle(k, tables.room());
    feed(t, s, line, tables)
}

// After the last line: a contact may be cut short.
fn close(k: Reader) -> Reader
    ensures { result ≡ closed_reader k }
{
    let t = Reader { over: true, ..k };
    if k.bad.is_none() & in_contact(k.st.place) {
        refuse(t, BadLine::OutOfOrder)
    } else {
        t
    }
}

// The line that has not ended, by the end of the text.
fn last_line(k: Reader, line: &[u8], tables: &mut Tables<'_>) -> Reader
    requires { Sound k (lent_cells tables.old) × (length line.now ≡ most_in_line) }
    ensures same { SameTables tables.old tables.new }
    ensures closes { Closes k line.now (lent_cells tables.old) result (lent_cells tables.new) }
{
    if k.len == 0 {
        return k;
    }
    after_line(k, read_line(k.st, &line[..k.len], tables))
}

// The announced end. A second one changes nothing.
pub fn end(k: Reader, line: &[u8; MOST_IN_LINE], tables: &mut Tables<'_>) -> Reader
    ensures same { SameTables tables.old tables.new }
    ensures ends { Ends k line.now (lent_cells tables.old) result line.now (lent_cells tables.new) }
{
    if k.over {
        return k;
    }
    if k.bad.is_some() {
        return close(k);
    }
    let t = settle(k, tables.room());
    close(last_line(t, line, tables))
}

// A whole text, read into the tables from their front: one portion, and the end.
pub fn read_text(input: &[u8], tables: &mut Tables<'_>) -> Reader
    ensures same { SameTables tables.old tables.new }
    ensures whole { ReadWhole input.now (lent_cells tables.old) result (lent_cells tables.new) }
{
    let mut line = [0; MOST_IN_LINE];
    let k = portion(begin(), input, &mut line, &mut *tables);
    end(k, &line, tables)
}
