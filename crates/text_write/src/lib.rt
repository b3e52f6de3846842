// A line of fields, and the lines of one number or two: E, R and X, written on a page as far as it has room. Floats come
// as the bits that are printed.
#![tactic(auto)]

ghost use Rattle.std.specs.Prelude.{[], ◌∷◌, ◌++◌, ◌≡◌, ◌≤◌, length, min};
ghost use Rattle.text_digits.specs.Digits.{dec_field, hex_field};
ghost use Rattle.text_digits.specs.Wrote.{Writes};
ghost use Rattle.text_write.specs.Lines.{e_line, joined, line, r_line, x_line};

use text_digits::Page;

// Where writing starts: at `at`, or at the buffer's end.
pub fn start(out: &[u8], at: usize) -> usize
    ensures { result ≡ min (length out.now) at }
{
    at.min(out.len())
}

// A field for each number.
fn dec_fields(page: &mut Page, numbers: &[u16])
    requires { page.old.at ≤ length page.old.out.now }
    ensures { Writes page.old (joined dec_field numbers.now) page.new }
{
    for x in numbers {
        page.dec_field(*x as u64);
    }
}

// A line's end: floats by their bits, and byte 10. One loop for these fields and those of numbers would have to be told
// what the function writes that it is given: no plainer than two lines twice.
fn end_line(page: &mut Page, bits: &[u32])
    requires { page.old.at ≤ length page.old.out.now }
    ensures { Writes page.old (joined hex_field bits.now ++ (10 ∷ [])) page.new }
{
    for x in bits {
        page.hex_field(*x);
    }
    page.put(10);
}

// A letter, a row's numbers, floats by their bits, and byte 10.
pub fn row_line(page: &mut Page, letter: u8, numbers: &[u16], bits: &[u32])
    ensures { Writes page.old (line letter numbers.now bits.now) page.new }
{
    page.put(letter);
    dec_fields(page, numbers);
    end_line(page, bits);
}

// A letter, two counts, floats by their bits, and byte 10. (One function for counts and for a row's narrower numbers would
// need a trait of numbers, to say no more than these two.)
pub fn pair_line(page: &mut Page, letter: u8, one: usize, two: usize, bits: &[u32])
    ensures { Writes page.old (line letter (one ∷ two ∷ []) bits.now) page.new }
{
    page.put(letter);
    page.dec_field(one as u64);
    page.dec_field(two as u64);
    end_line(page, bits);
}

// Steps done, and how many of them were refused.
pub fn e_line(page: &mut Page, done: usize, refused: usize)
    ensures { Writes page.old (e_line done refused) page.new }
{
    pair_line(page, b'E', done, refused, &[]);
}

// The number that refused the whole call.
pub fn r_line(page: &mut Page, refusal: u16)
    ensures { Writes page.old (r_line refusal) page.new }
{
    row_line(page, b'R', &[refusal], &[]);
}

// The first bad line of a text, and the reason.
pub fn x_line(page: &mut Page, number: usize, reason: usize)
    ensures { Writes page.old (x_line number reason) page.new }
{
    pair_line(page, b'X', number, reason, &[]);
}
