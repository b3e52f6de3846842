// A recorded output beside the output, byte after byte: of a recorded line no more is kept than whether it is empty, one
// byte or longer, and how far it agrees with the output's next line. And the lines that tell of a day.
#![tactic(auto)]

ghost use Rattle.std.specs.Prelude.{◌≡◌, take};
ghost use Rattle.text_digits.specs.Digits.{dec_field};
ghost use Rattle.text_digits.specs.Wrote.{Writes};
ghost use Rattle.text_write.specs.Lines.{joined};
ghost use Rattle.replay_days.specs.Judged.{day_line, verdict};
ghost use Rattle.replay_days.specs.Going.{counted_verdict};
ghost use Rattle.replay_compare.specs.Spots.{compared_all, compared_to, end_number, holds_only, longer_by, met_by, next_of};

use text_digits::Page;

// What is known of the line so far.
#[derive(Clone, Copy, PartialEq, Eq)]
pub enum LineSoFar {
    Empty,
    One(u8),
    More,
}

// A spot in the output that a recorded one is compared with: how long the output is, where its line starts, and how far
// that line and the recorded one agree, as long as they do; and the line's number. No slice: it is carried from one portion
// of a file to the next, and the output's buffer is lent anew with each.
#[derive(Clone, Copy)]
pub struct Spot {
    pub len: usize,
    pub start: usize,
    pub at: Option<usize>,
    pub number: usize,
}

// The line with a run of bytes more.
#[tactic(auto, using(crate::proofs::Runs::byte_more, crate::proofs::Runs::bytes_more))]
pub fn longer(line: LineSoFar, run: &[u8]) -> LineSoFar
    ensures { result ≡ longer_by line run.now }
{
    match (line, run) {
        (_, []) => line,
        (LineSoFar::Empty, [b]) => LineSoFar::One(*b),
        _ => LineSoFar::More,
    }
}

// The definitions' word for a line of one byte.
pub fn holds_only(line: LineSoFar, b: u8) -> bool
    ensures { result ≡ holds_only line b }
{
    line == LineSoFar::One(b)
}

// The output's next byte and the place after it, while the two lines agree and the output goes on. The output is the first
// `len` bytes of the buffer.
pub fn next_byte(p: Spot, out: &[u8]) -> Option<(u8, usize)>
    ensures { result ≡ next_of (take p.len out.now) p.at }
{
    match p.at {
        Some(at) if at < p.len && at < out.len() => Some((out[at], at + 1)),
        _ => None,
    }
}

// A recorded byte beside the output's next.
fn compare(p: Spot, next: Option<(u8, usize)>, b: u8) -> Spot
    ensures { result ≡ compared_to p next b }
{
    let at = match next {
        Some((c, after)) if c == b => Some(after),
        _ => None,
    };
    Spot { at, ..p }
}

// A run of recorded bytes beside the output, which is the first `len` bytes of the buffer.
pub fn compare_run(p: Spot, out: &[u8], run: &[u8]) -> Spot
    ensures { result ≡ compared_all p (take p.len out.now) run.now }
{
    let mut q = p;
    for b in run {
        q = compare(q, next_byte(q, out), *b);
    }
    q
}

// The end of a recorded line beside the output's next byte: where the line after it starts, if it is the output's. The
// output's last line may end with the output.
pub fn met(p: Spot, next: Option<(u8, usize)>, line: LineSoFar) -> Option<usize>
    ensures { result ≡ met_by p next line }
{
    let at = p.at?;
    match next {
        Some((10, after)) => Some(after),
        None if line != LineSoFar::Empty => Some(at),
        _ => None,
    }
}

// A day's line: its number, and these fields.
fn day_line(page: &mut Page, day: usize, fields: &[u64])
    ensures { Writes page.old (day_line day (joined dec_field fields.now)) page.new }
{
    page.dec_number(day as u64);
    for x in fields {
        page.dec_field(*x);
    }
    page.put(10);
}

// A day's line of two fields.
pub fn tell(page: &mut Page, day: usize, second: u64)
    ensures { Writes page.old (day_line day (dec_field second)) page.new }
{
    day_line(page, day, &[second]);
}

// The same, or the first differing line, whatever its number.
#[tactic(auto, unfolding(replay_days::specs::Judged::verdict))]
pub fn tell_verdict(page: &mut Page, day: usize, differing: Option<usize>)
    ensures { Writes page.old (verdict day differing) page.new }
{
    match differing {
        None => tell(page, day, 0),
        Some(n) => day_line(page, day, &[1, n as u64]),
    }
}

// The same, or the first differing line. Lines are counted from 1: a line 0 is none.
pub fn tell_counted_verdict(page: &mut Page, day: usize, differing: Option<usize>)
    ensures { Writes page.old (counted_verdict day differing) page.new }
{
    let n = differing.unwrap_or(0);
    if n == 0 {
        tell(page, day, 0);
    } else {
        day_line(page, day, &[1, n as u64]);
    }
}

// The number of the line that is missing where the recorded output ends, if one is.
pub fn end_number(p: Spot) -> Option<usize>
    ensures { result ≡ end_number p }
{
    (p.start < p.len).then_some(p.number)
}

#[cfg(test)]
mod tests {
    use super::*;

    // What is told of day 7, line after line; a line 0 among them, which no run comes to.
    #[test]
    fn tells_of_any_line(rt: HostRuntime) {
        let mut out = [0u8; 20];
        let mut page = Page {
            out: &mut out,
            at: 0,
        };
        tell_verdict(&mut page, 7, None);
        tell_verdict(&mut page, 7, Some(0));
        tell_verdict(&mut page, 7, Some(3));
        tell_counted_verdict(&mut page, 7, Some(0));
        assert_eq!(rt; out, *b"7\t0\n7\t1\t0\n7\t1\t3\n7\t0\n");
    }
}
