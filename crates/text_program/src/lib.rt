// The text program: from what a reader carries to the output's bytes, and from a whole text's bytes, by tables that start with
// every row zero.
#![tactic(auto)]

ghost use Rattle.std.specs.Prelude.{◌≡◌, [], take};
ghost use Rattle.text_line.specs.Night.{of_program};
ghost use Rattle.text_line.specs.Filled.{cells, night_of, room_of};
ghost use Rattle.text_read.specs.Carried.{Ends, Takes, text_in};
ghost use Rattle.text_digits.specs.Wrote.{Writes};
ghost use Rattle.text_output.specs.Answer.{answer};
ghost use Rattle.text_output.specs.Output.{output_of};
ghost use Rattle.text_program.specs.Answered.{Answered, AnsweredRead, InTables};
ghost use Rattle.text_program.specs.Tables.{KeptNumbers, RowsZero, cells_of};

use base_places::{
    ANSWER_WIDTH, BODY_WIDTH, FLOATS_WIDTH, LONGEST_OUTPUT, MOST_IN_LINE, NUMBERS_WIDTH,
    PROGRAM_BODIES, PROGRAM_CONTACTS, PROGRAM_STEPS, STEP_WIDTH,
};
use text_answer::{Read, Room, answer_night};
use text_digits::Page;
use text_fields::Counts;
use text_line::{State, Tables};
use text_read::{Reader, read_text, within};

// A proved loop has to end, and nothing says that a file does: no run of a program reads so many portions of one.
pub const MOST_PORTIONS: u64 = 1 << 51;

// What a program reads a night's text into: the bytes of a line that has not ended, and the tables of bodies, of contacts'
// numbers and floats, and of steps, for as many of each as the text program holds.
#[derive(Drop)]
pub struct NightBuffers {
    pub line: [u8; MOST_IN_LINE],
    pub bodies: [u32; PROGRAM_BODIES * BODY_WIDTH],
    pub numbers: [u16; PROGRAM_CONTACTS * NUMBERS_WIDTH],
    pub floats: [u32; PROGRAM_CONTACTS * FLOATS_WIDTH],
    pub steps: [u16; PROGRAM_STEPS * STEP_WIDTH],
}

// How many numbers each of its tables holds.
const ROOM: Counts = Counts {
    bodies: PROGRAM_BODIES * BODY_WIDTH,
    numbers: PROGRAM_CONTACTS * NUMBERS_WIDTH,
    floats: PROGRAM_CONTACTS * FLOATS_WIDTH,
    steps: PROGRAM_STEPS * STEP_WIDTH,
};

impl NightBuffers {
    // The tables with every row zero.
    pub fn zeros() -> NightBuffers
        ensures { RowsZero (cells_of result) }
    {
        NightBuffers {
            line: [0; MOST_IN_LINE],
            bodies: [0; PROGRAM_BODIES * BODY_WIDTH],
            numbers: [0; PROGRAM_CONTACTS * NUMBERS_WIDTH],
            floats: [0; PROGRAM_CONTACTS * FLOATS_WIDTH],
            steps: [0; PROGRAM_STEPS * STEP_WIDTH],
        }
    }

    // Takes a portion of a text, after what the reader carries.
    pub fn portion(&mut self, k: Reader, s: &[u8]) -> Reader
        ensures { Takes k self.old.line (cells_of self.old) s.now result self.new.line (cells_of self.new) }
    {
        let mut tables = Tables {
            bodies: &mut self.bodies,
            numbers: &mut self.numbers,
            floats: &mut self.floats,
            steps: &mut self.steps,
        };
        text_read::portion(k, s, &mut self.line, &mut tables)
    }

    // The end of the text. The tables are as long as document 01 says. (They are lent as in `portion`: a function that made
    // the Tables would give out borrows of four fields at once.)
    pub fn end(&mut self, k: Reader) -> Reader
        ensures ends { Ends k self.old.line (cells_of self.old) result self.new.line (cells_of self.new) }
        ensures line { self.new.line ≡ self.old.line }
        ensures room { room_of (cells_of self.old) ≡ of_program }
    {
        let mut tables = Tables {
            bodies: &mut self.bodies,
            numbers: &mut self.numbers,
            floats: &mut self.floats,
            steps: &mut self.steps,
        };
        text_read::end(k, &self.line, &mut tables)
    }

    // The answer to what the reader carries, as `answer_read` gives it.
    pub fn answer(&mut self, k: Reader, out: &mut [u8; LONGEST_OUTPUT]) -> usize
        ensures answered { AnsweredRead k (cells_of self.old) out.old out.new result }
        ensures kept { KeptNumbers self.old self.new }
    {
        answer_read(
            k,
            &mut self.bodies,
            &self.numbers,
            &mut self.floats,
            &self.steps,
            out,
        )
    }
}

// The answer to a night, from the program's tables, filled as far as the state says. They come as slices: a part of an array
// behind a reference can't be lent.
fn answer_state(
    st: State,
    bodies: &mut [u32],
    numbers: &[u16],
    floats: &mut [u32],
    steps: &[u16],
    page: &mut Page,
)
    requires { InTables st (cells bodies.old numbers.now floats.old steps.now) }
    ensures { Writes page.old
        (answer (night_of st (cells bodies.old numbers.now floats.old steps.now)))
        page.new }
{
    let mut body_values = [0.0f32; PROGRAM_BODIES * BODY_WIDTH];
    let mut contact_values = [0.0f32; PROGRAM_CONTACTS * FLOATS_WIDTH];
    let mut answers = [0u16; PROGRAM_STEPS * ANSWER_WIDTH];
    let mut read = Read {
        bodies: &mut bodies[..st.bodies],
        numbers: &numbers[..st.numbers],
        floats: &mut floats[..st.floats],
        steps: &steps[..st.steps],
    };
    let mut room = Room {
        bodies: &mut body_values[..st.bodies],
        contacts: &mut contact_values[..st.floats],
        answers: &mut answers,
    };
    answer_night(&mut read, &mut room, page);
}

// What is written of what a reader carries: the answer to what was read, or the bad line. The tables come one by one, here and
// below: who calls may hold them apart, and two of them are only read.
fn write_read(
    k: Reader,
    bodies: &mut [u32; PROGRAM_BODIES * BODY_WIDTH],
    numbers: &[u16; PROGRAM_CONTACTS * NUMBERS_WIDTH],
    floats: &mut [u32; PROGRAM_CONTACTS * FLOATS_WIDTH],
    steps: &[u16; PROGRAM_STEPS * STEP_WIDTH],
    page: &mut Page,
)
    ensures { Writes page.old
        (output_of (text_in k [] (cells bodies.old numbers.now floats.old steps.now)))
        page.new }
{
    match k.bad {
        None => {
            let st = within(k.st, ROOM);
            answer_state(st, bodies, numbers, floats, steps, page);
        }
        Some(reason) => text_write::x_line(page, k.number, reason as usize),
    }
}

// The same from a buffer's front on; how many bytes that are is told.
pub fn answer_read(
    k: Reader,
    bodies: &mut [u32; PROGRAM_BODIES * BODY_WIDTH],
    numbers: &[u16; PROGRAM_CONTACTS * NUMBERS_WIDTH],
    floats: &mut [u32; PROGRAM_CONTACTS * FLOATS_WIDTH],
    steps: &[u16; PROGRAM_STEPS * STEP_WIDTH],
    out: &mut [u8; LONGEST_OUTPUT],
) -> usize
    ensures { AnsweredRead k (cells bodies.old numbers.now floats.old steps.now)
        out.old out.new result }
{
    let mut page = Page { out, at: 0 };
    write_read(k, bodies, numbers, floats, steps, &mut page);
    page.at
}

// The output of a whole text: the buffer has room for any.
pub fn answer_text(input: &[u8], out: &mut [u8; LONGEST_OUTPUT]) -> usize
    ensures { Answered input.now out.old out.new result }
{
    let mut night = NightBuffers::zeros();
    let mut tables = Tables {
        bodies: &mut night.bodies,
        numbers: &mut night.numbers,
        floats: &mut night.floats,
        steps: &mut night.steps,
    };
    let k = read_text(input, &mut tables);
    night.answer(k, out)
}

// The first n bytes; all of them where n is past the end.
pub fn front(bytes: &[u8], n: usize) -> &[u8]
    ensures { result.now ≡ take n bytes.now }
{
    &bytes[..n.min(bytes.len())]
}
