// The call, and the reader of a text in portions, for programs in C and in Rust, with a reader as words, which a host keeps
// between its calls. The crate romaludiv_c exports the four public functions.
#![tactic(auto)]

ghost use Rattle.std.specs.Prelude.{◌≡◌};
ghost use Rattle.list_rules.specs.Sweep.{tables};
ghost use Rattle.call_rules.specs.Call.{end as Call·end};
ghost use Rattle.call_rules.specs.Call.{lend};
ghost use Rattle.call_rules.specs.Demands.{Demand2};
ghost use Rattle.text_line.specs.Filled.{Sane, cells};
ghost use Rattle.text_read.specs.Carried.{Begins, Ends, Takes, fresh};
ghost use Rattle.romaludiv.specs.Words.{CountedIn, came_of, place_number, place_of, reader_of, words_of};

use base_places::MOST_IN_LINE;
use call::call;
use text_fields::Counts;
use text_line::{Place, State, Tables};
use text_read::{Reader, begin, end, portion, within};

// As `call::call`: the result is the number that refuses the whole call, or 0; how many steps were done and how many
// of those were refused go out through the last two parameters.
pub fn romaludiv_call(
    bodies: &mut [f32],
    numbers: &[u16],
    floats: &mut [f32],
    steps: &[u16],
    room: &mut [u16],
    budget: usize,
    done: &mut usize,
    refused: &mut usize,
) -> u16
    ensures { Demand2 (lend (tables bodies.old numbers.now floats.old) steps.now room.old) budget (Call·end result done.new refused.new (tables bodies.new numbers.now floats.new) room.new) }
{
    match call(bodies, numbers, floats, steps, room, budget) {
        Ok(ended) => {
            *done = ended.done;
            *refused = ended.refused;
            0
        }
        Err(refusal) => {
            *done = 0;
            *refused = 0;
            u16::from(refusal)
        }
    }
}

// A reader crosses to the host as so many words, in the order that specs/Words.antt says. A host can put anything into its
// memory, and a word, unlike a bool or an enum, holds anything.
pub const WORDS: usize = 10;

const LARGEST_REASON: usize = u8::MAX as usize;

// Any number past the places is the last one. A function and no `From`, as those below: the types are those of the crates
// below, which know nothing of a host's words.
#[tactic(auto, using(crate::proofs::Keeping::past_places), unfolding(crate::specs::Words::place_of))]
fn place_of(n: usize) -> Place
    ensures { result ≡ place_of n }
{
    match n {
        0 => Place::Bodies,
        1 => Place::NormalA,
        2 => Place::TangentA,
        3 => Place::NormalB,
        4 => Place::TangentB,
        5 => Place::Contacts,
        6.. => Place::Steps,
    }
}

fn place_number(p: Place) -> usize
    ensures { result ≡ place_number p }
{
    p as usize
}

// Why a line was bad, if one was; a reason past a byte is the largest byte.
fn came_of(bad: usize, reason: usize) -> Option<u8>
    ensures { result ≡ came_of bad reason }
{
    if bad == 0 {
        None
    } else {
        Some(reason.min(LARGEST_REASON) as u8)
    }
}

// The reader that any words are.
#[tactic(auto, unfolding(crate::specs::Words::reader_of))]
fn reader_of(words: &[usize; WORDS]) -> Reader
    ensures { result ≡ reader_of words.now }
{
    Reader {
        over: words[0] != 0,
        bad: came_of(words[1], words[2]),
        number: words[3],
        st: State {
            place: place_of(words[4]),
            bodies: words[5],
            numbers: words[6],
            floats: words[7],
            steps: words[8],
        },
        len: words[9],
    }
}

// The words that a reader becomes: nothing of it is lost.
fn words_of(k: Reader) -> [usize; WORDS]
    ensures value { result ≡ words_of k }
    ensures result_value { reader_of result ≡ k }
{
    [
        usize::from(k.over),
        usize::from(k.bad.is_some()),
        usize::from(k.bad.unwrap_or(0)),
        k.number,
        place_number(k.st.place),
        k.st.bodies,
        k.st.numbers,
        k.st.floats,
        k.st.steps,
        k.len,
    ]
}

// What a reader carries, with no count past the end of its table, in tables that hold so many numbers.
fn counted(k: Reader, room: Counts) -> Reader
    ensures { CountedIn k room result }
{
    Reader {
        st: within(k.st, room),
        ..k
    }
}

// As `text_read::begin`: nothing has been read.
pub fn romaludiv_begin(words: &mut [usize; WORDS])
    ensures words_after { words.new ≡ words_of fresh }
    ensures begins { Begins (reader_of words.new) }
{
    *words = words_of(begin());
}

// As `text_read::portion`, for any words: a portion of the text, or nothing after the end and after a bad line.
pub fn romaludiv_portion(
    words: &mut [usize; WORDS],
    line: &mut [u8; MOST_IN_LINE],
    text: &[u8],
    bodies: &mut [u32],
    numbers: &mut [u16],
    floats: &mut [u32],
    steps: &mut [u16],
)
    ensures takes { Takes (reader_of words.old) line.old (cells bodies.old numbers.old floats.old steps.old)
        text.now (reader_of words.new) line.new
        (cells bodies.new numbers.new floats.new steps.new) }
    ensures sane { Sane (reader_of words.new).st (cells bodies.new numbers.new floats.new steps.new) }
{
    let mut tables = Tables {
        bodies,
        numbers,
        floats,
        steps,
    };
    let after = portion(reader_of(&*words), text, line, &mut tables);
    *words = words_of(counted(after, tables.room()));
}

// As `text_read::end`, for any words: the announced end, or nothing where it was announced before.
pub fn romaludiv_end(
    words: &mut [usize; WORDS],
    line: &[u8; MOST_IN_LINE],
    bodies: &mut [u32],
    numbers: &mut [u16],
    floats: &mut [u32],
    steps: &mut [u16],
)
    ensures ends { Ends (reader_of words.old) line.now (cells bodies.old numbers.old floats.old steps.old)
        (reader_of words.new) line.now
        (cells bodies.new numbers.new floats.new steps.new) }
    ensures sane { Sane (reader_of words.new).st (cells bodies.new numbers.new floats.new steps.new) }
{
    let mut tables = Tables {
        bodies,
        numbers,
        floats,
        steps,
    };
    let after = end(reader_of(&*words), line, &mut tables);
    *words = words_of(counted(after, tables.room()));
}
