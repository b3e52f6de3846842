// The call, and the reader of a text in portions, exported to programs in C and in Rust: the static library libromaludiv.a has
// them, and host/romaludiv.h declares them. A stretch is passed as a pointer and a length, in elements; an array, whose length
// never changes, as a pointer. What nothing here can test, and the host owes, stands in that header. Each export promises what
// the function of its name in the crate romaludiv does.
#![tactic(auto)]

ghost use Rattle.std.specs.Prelude.{◌≡◌};
ghost use Rattle.list_rules.specs.Sweep.{tables};
ghost use Rattle.call_rules.specs.Call.{end as Call·end};
ghost use Rattle.call_rules.specs.Call.{lend};
ghost use Rattle.call_rules.specs.Demands.{Demand2};
ghost use Rattle.text_line.specs.Filled.{Sane, cells};
ghost use Rattle.text_read.specs.Carried.{Begins, Ends, Takes, fresh};
ghost use Rattle.romaludiv.specs.Words.{reader_of, words_of};

use base_places::MOST_IN_LINE;
use romaludiv::WORDS;

// As `call::call`: the result is the number that refuses the whole call, or 0; how many steps were done and how many
// of those were refused go out through the last two parameters.
#[unsafe(no_mangle)]
pub extern "C" fn romaludiv_call(
    bodies: &mut [f32],
    numbers: &[u16],
    floats: &mut [f32],
    steps: &[u16],
    room: &mut [u16],
    budget: usize,
    done: &mut usize,
    refused: &mut usize,
) -> u16
    ensures { Demand2 (lend (tables bodies.old numbers.now floats.old) steps.now room.old) budget (Call·end result done.new refused.new (tables bodies.new numbers.now floats.new) room.new) }
{
    romaludiv::romaludiv_call(bodies, numbers, floats, steps, room, budget, done, refused)
}

// As `text_read::begin`: nothing has been read.
#[unsafe(no_mangle)]
pub extern "C" fn romaludiv_begin(words: &mut [usize; WORDS])
    ensures words_after { words.new ≡ words_of fresh }
    ensures begins { Begins (reader_of words.new) }
{
    romaludiv::romaludiv_begin(words);
}

// As `text_read::portion`, for any words: a portion of the text, or nothing after the end and after a bad line.
#[unsafe(no_mangle)]
pub extern "C" fn romaludiv_portion(
    words: &mut [usize; WORDS],
    line: &mut [u8; MOST_IN_LINE],
    text: &[u8],
    bodies: &mut [u32],
    numbers: &mut [u16],
    floats: &mut [u32],
    steps: &mut [u16],
)
    ensures takes { Takes (reader_of words.old) line.old (cells bodies.old numbers.old floats.old steps.old)
        text.now (reader_of words.new) line.new
        (cells bodies.new numbers.new floats.new steps.new) }
    ensures sane { Sane (reader_of words.new).st (cells bodies.new numbers.new floats.new steps.new) }
{
    romaludiv::romaludiv_portion(words, line, text, bodies, numbers, floats, steps);
}

// As `text_read::end`, for any words: the announced end, or nothing where it was announced before.
#[unsafe(no_mangle)]
pub extern "C" fn romaludiv_end(
    words: &mut [usize; WORDS],
    line: &[u8; MOST_IN_LINE],
    bodies: &mut [u32],
    numbers: &mut [u16],
    floats: &mut [u32],
    steps: &mut [u16],
)
    ensures ends { Ends (reader_of words.old) line.now (cells bodies.old numbers.old floats.old steps.old)
        (reader_of words.new) line.now
        (cells bodies.new numbers.new floats.new steps.new) }
    ensures sane { Sane (reader_of words.new).st (cells bodies.new numbers.new floats.new steps.new) }
{
    romaludiv::romaludiv_end(words, line, bodies, numbers, floats, steps);
}
