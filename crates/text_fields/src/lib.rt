// Fields of a line: its letter, and what the fields after the letter say.
#![tactic(auto)]

ghost use Rattle.std.specs.Prelude.{◌≡◌, ◌+◌, ◌≤◌, eqb, length, drop};
ghost use Rattle.base_places.specs.Places.{normal_width};
ghost use Rattle.text_fields.specs.Fields.{until};
ghost use Rattle.text_fields.specs.Letters.{letter_of, line_letter};
ghost use Rattle.text_fields.specs.Got.{Adds, ReadField, ReadFields, ReadRow};
ghost use Rattle.text_fields.specs.declared.Form.TheVariants.{Decimal, Hex};

use base_places::{BODY_WIDTH, HEAD_WIDTH, NORMAL_WIDTH, NUMBERS_WIDTH, STEP_WIDTH, TANGENT_WIDTH};

// What parts two fields.
const TAB: u8 = b'\t';

// So many bytes are looked at together.
const BLOCK: usize = 16;

#[derive(Clone, Copy, PartialEq, Eq)]
pub enum Letter {
    Body,
    Contact,
    Normal,
    Tangent,
    Step,
    // It is asked about as the others are (what it adds, where it leads), and so it is a letter and no None.
    Other,
}

// How a number is written: decimal, or as eight hex digits.
#[derive(Clone, Copy)]
pub enum Form {
    Decimal,
    Hex,
}

// So many numbers of each table: bodies' floats, contacts' numbers and floats, steps' numbers.
#[derive(Clone, Copy, Default)]
pub struct Counts {
    pub bodies: usize,
    pub numbers: usize,
    pub floats: usize,
    pub steps: usize,
}

// What a field says, and the byte after the tab that ends it.
#[derive(Clone, Copy)]
pub struct Field {
    pub value: u32,
    pub next: usize,
}

// What a line says after its letter, from the front. No line has more of one form than an N line. How many there are of each,
// its letter says.
#[derive(Clone, Copy)]
pub struct Row {
    pub numbers: [u32; NORMAL_WIDTH],
    pub bits: [u32; NORMAL_WIDTH],
}

// B, C, N, T and S; any other byte is no known letter.
impl From<u8> for Letter {
    ghost from_gives = { λ b l. l ≡ letter_of b };

    #[tactic(auto, unfolding(crate::specs::Letters::letter_of))]
    fn from(b: u8) -> Letter {
        match b {
            b'B' => Letter::Body,
            b'C' => Letter::Contact,
            b'N' => Letter::Normal,
            b'T' => Letter::Tangent,
            b'S' => Letter::Step,
            _ => Letter::Other,
        }
    }
}

// The place from `at` on of the first byte `end`, byte after byte; the end of s, where there is none. (By index: with
// `position`, tried, `search` doesn't come from what that promises, a run of its test, to `until`.)
#[tactic(auto, using(crate::proofs::Until::end, crate::proofs::Until::here, crate::proofs::Until::on))]
fn seek(s: &[u8], at: usize, end: u8) -> usize
    requires { at ≤ length s.now }
    ensures { (result ≡ at + until end (drop at s.now)) × (at ≤ result) × (result ≤ length s.now) }
{
    for i in at..s.len() {
        if s[i] == end {
            return i;
        }
    }
    s.len()
}

// Whether no byte is `end`. All are looked at, so that a processor can do so with many at once; with `contains` or `any`,
// which stop at the first, a night takes a third longer or more to read.
#[tactic(auto, using(crate::proofs::Blocks::clear_all, crate::proofs::Blocks::clear_on))]
fn lacks(s: &[u8], end: u8) -> bool
    ensures { result ≡ eqb (until end s.now) (length s.now) }
{
    let mut free = true;
    for b in s {
        free = free & (*b != end);
    }
    free
}

// The same place, by blocks of bytes that lack it: for runs that are long, as lines are. The place is counted beside the
// blocks: an `enumerate` would have it as a sum and a product, no plainer.
pub fn run_end(s: &[u8], at: usize, end: u8) -> usize
    requires { at ≤ length s.now }
    ensures { (result ≡ at + until end (drop at s.now)) × (at ≤ result) × (result ≤ length s.now) }
{
    let mut i = at;
    for block in s[at..].chunks_exact(BLOCK) {
        if !lacks(block, end) {
            return seek(s, i, end);
        }
        i += BLOCK;
    }
    seek(s, i, end)
}

// Where a line's first field ends: after one byte in every good line.
#[tactic(auto, using(crate::proofs::Until::tab_second))]
fn first_end(line: &[u8]) -> usize
    ensures { (result ≡ 0 + until 9 (drop 0 line.now)) × (result ≤ length line.now) }
{
    if 1 < line.len() {
        if (line[0] != TAB) & (line[1] == TAB) {
            return 1;
        }
    }
    seek(line, 0, TAB)
}

// The letter that a line's first field is.
#[tactic(auto, using(crate::proofs::Rows::one_byte, crate::proofs::Rows::no_letter))]
pub fn line_letter(line: &[u8]) -> Letter
    ensures { result ≡ line_letter line.now }
{
    let end = first_end(line);
    if end == 1 {
        Letter::from(line[0])
    } else {
        Letter::Other
    }
}

// How many numbers a line adds to each table.
pub fn adds(l: Letter) -> Counts
    ensures { Adds l result }
{
    let mut counts = Counts::default();
    match l {
        Letter::Body => counts.bodies = BODY_WIDTH,
        Letter::Contact => {
            counts.numbers = NUMBERS_WIDTH;
            counts.floats = HEAD_WIDTH;
        }
        Letter::Normal => counts.floats = NORMAL_WIDTH,
        Letter::Tangent => counts.floats = TANGENT_WIDTH,
        Letter::Step => counts.steps = STEP_WIDTH,
        Letter::Other => {}
    }
    counts
}

// The decimal field that starts at byte `at`.
#[tactic(auto, using(crate::proofs::Turn::holds, crate::proofs::Turn::no_field, crate::proofs::Turn::no_number))]
fn read_decimal(s: &[u8], at: usize) -> Option<Field>
    ensures { ReadField Decimal s.now at result }
{
    if s.len() < at {
        return None;
    }
    let end = seek(s, at, TAB);
    let value = text_digits::dec(&s[at..end])?;
    Some(Field {
        value,
        next: end + 1,
    })
}

// Whether a field may end at byte `at`: a tab stands there, or the line ends.
#[tactic(auto, using(crate::proofs::Until::line_over, crate::proofs::Until::tab_there))]
fn ends(s: &[u8], at: usize) -> bool
    requires { at ≤ length s.now }
    ensures { result ≡ eqb (until 9 (drop at s.now)) 0 }
{
    if at < s.len() { s[at] == TAB } else { true }
}

// The float that starts at byte `at`: eight digits, so its end need not be looked for.
#[tactic(auto, using(crate::proofs::Turn::no_field, crate::proofs::Eight::eight_go_on, crate::proofs::Eight::eight_held, crate::proofs::Eight::eight_no, crate::proofs::Eight::eight_short))]
fn read_float(s: &[u8], at: usize) -> Option<Field>
    ensures { ReadField Hex s.now at result }
{
    if s.len() < at {
        return None;
    }
    if s.len() - at < 8 {
        return None;
    }
    let end = at + 8;
    if !ends(s, end) {
        return None;
    }
    let value = text_digits::hex(&s[at..end])?;
    Some(Field {
        value,
        next: end + 1,
    })
}

// The field that starts at byte `at`.
fn read_field(form: Form, s: &[u8], at: usize) -> Option<Field>
    ensures { ReadField form s.now at result }
{
    match form {
        Form::Decimal => read_decimal(s, at),
        Form::Hex => read_float(s, at),
    }
}

// A field for each of `values`, from byte `from` on, and the byte after the tab that ends them.
fn read_fields(form: Form, s: &[u8], from: usize, values: &mut [u32]) -> Option<usize>
    ensures { ReadFields form s.now from (length values.old) values.new result }
{
    let mut next = from;
    for value in values.iter_mut() {
        let field = read_field(form, s, next)?;
        *value = field.value;
        next = field.next;
    }
    Some(next)
}

// What a line of a letter says; nothing, where its fields are not of the letter's number or form.
pub fn read_row(l: Letter, line: &[u8]) -> Option<Row>
    ensures { ReadRow l line.now result }
{
    let counts = adds(l);
    let end = first_end(line);
    let mut numbers = [0u32; NORMAL_WIDTH];
    let mut bits = [0u32; NORMAL_WIDTH];
    let decimals = counts.numbers + counts.steps;
    let floats = counts.bodies + counts.floats;
    let middle = read_fields(Form::Decimal, line, end + 1, &mut numbers[..decimals])?;
    let next = read_fields(Form::Hex, line, middle, &mut bits[..floats])?;
    if line.len() < next {
        Some(Row { numbers, bits })
    } else {
        None
    }
}
