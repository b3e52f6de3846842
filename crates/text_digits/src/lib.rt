// Numbers of the text form: one digit, eight hex digits and a decimal number, read and written; and patterns
// of 32 bits as floats. What is written goes into a lent buffer as far as it has room.
#![tactic(auto)]

ghost use Rattle.std.specs.Prelude.{◌≡◌, [], ◌∷◌, ◌&&◌, ◌+◌, ◌-◌, ◌*◌, ◌≤◌, ◌<◌, leb, length};
ghost use Rattle.base_words.specs.Choice.{if◌then◌otherwise◌};
ghost use Rattle.text_digits.specs.Digits.{digit_of, number_from, hex_of, dec_of, dec_bytes, dec_digits, hex_digits, dec_field, hex_field};
ghost use Rattle.text_digits.specs.Digits.{glyph as Digits·glyph};
ghost use Rattle.text_digits.specs.Bits.{value_of, printed};
ghost use Rattle.text_digits.specs.Wrote.{Writes};

use std::num::f32_from_bits_with_nan;

// What a byte counts as a digit among the letters: 16 where it is none.
fn letter(b: u8) -> u64
    ensures { result ≡ (if leb 97 b && leb b 102 then b - 87 otherwise 16) }
{
    match b {
        b'a'..=b'f' => (b - b'a' + 10) as u64,
        _ => 16,
    }
}

// What a byte counts as a digit: 16 where it is none. Each of the two ranges chooses between two numbers that are there:
// of that the compiler makes no branch, which a processor would guess wrong at many a digit. With one match of three
// arms, or with None for 16, a night takes three times as long to read.
#[tactic(auto, unfolding(crate::specs::Digits::digit_of))]
pub fn digit(b: u8) -> u64
    ensures { result ≡ digit_of b }
{
    let other = letter(b);
    match b {
        b'0'..=b'9' => (b - b'0') as u64,
        _ => other,
    }
}

// Eight lower-case hex digits, all of which are looked at before any is judged, so that a processor can do so in one go.
pub fn hex(s: &[u8]) -> Option<u32>
    ensures { result ≡ hex_of s.now }
{
    if s.len() != 8 {
        return None;
    }
    let mut n: u64 = 0;
    let mut all = true;
    for b in s {
        let d = digit(*b);
        all = all & (d < 16);
        n = n * 16 + d;
    }
    if all { Some(n as u32) } else { None }
}

// Decimal digits, highest first, up to 65535.
#[tactic(auto, using(crate::proofs::Turn::no_digit, crate::proofs::Turn::over, crate::proofs::Turn::too_large, crate::proofs::Turn::turn))]
fn dec_digits(s: &[u8]) -> Option<u32>
    ensures { result ≡ number_from 10 65535 0 s.now }
{
    let mut n: u64 = 0;
    for b in s {
        let d = digit(*b);
        if 10 <= d {
            return None;
        }
        n = n * 10 + d;
        if 65535 < n {
            return None;
        }
    }
    Some(n as u32)
}

// Decimal, 0 to 65535, no leading zero.
#[tactic(auto, unfolding(crate::specs::Digits::dec_of))]
pub fn dec(s: &[u8]) -> Option<u32>
    ensures { result ≡ dec_of s.now }
{
    if s.is_empty() {
        return None;
    }
    if (s[0] == b'0') & (1 < s.len()) {
        return None;
    }
    dec_digits(s)
}

// The float that a pattern stands for.
pub fn value_of(bits: u32) -> f32
    ensures { result ≡ value_of bits }
{
    f32_from_bits_with_nan(bits)
}

// The pattern that is printed: the one that was kept where the float is a NaN.
#[tactic(auto, unfolding(crate::specs::Bits::printed))]
pub fn bits_of(x: f32, kept: u32) -> u32
    ensures { result ≡ printed x kept }
{
    if x.is_nan() { kept } else { x.to_bits() }
}

// The byte of a digit.
#[tactic(auto, unfolding(crate::specs::Digits::glyph))]
fn glyph(d: u64) -> u8
    requires { d < 16 }
    ensures { result ≡ Digits·glyph d }
{
    if d < 10 {
        (48 + d) as u8
    } else {
        (87 + d) as u8
    }
}

// A number's last four hex digits.
fn four_digits(n: u64) -> [u8; 4]
    ensures { result ≡ hex_digits 4 n }
{
    let c = n / 16;
    let b = c / 16;
    let a = b / 16;
    [glyph(a % 16), glyph(b % 16), glyph(c % 16), glyph(n % 16)]
}

// A lent buffer, and the place where writing goes on in it. What has no room is not written, and leaves the place at the
// buffer's end.
//
// That the place is within the buffer is asked by some private functions and is no fact of the type: the others take a page
// with any place.
#[derive(Drop)]
pub struct Page<'a> {
    pub out: &'a mut [u8],
    pub at: usize,
}

impl Page<'_> {
    // One byte.
    pub fn put(&mut self, b: u8)
        ensures { Writes self.old (b ∷ []) self.new }
    {
        if self.at < self.out.len() {
            self.out[self.at] = b;
            self.at += 1;
        } else {
            self.at = self.out.len();
        }
    }

    fn put_digit(&mut self, d: u64)
        requires { d < 16 }
        ensures { Writes self.old (Digits·glyph d ∷ []) self.new }
    {
        self.put(glyph(d));
    }

    // A decimal number of at most k digits.
    fn put_digits(&mut self, n: u64, k: usize)
        requires { self.old.at ≤ length self.old.out.now }
        ensures { Writes self.old (dec_digits k n) self.new }
    {
        if k == 0 {
            return;
        }
        if n < 10 {
            self.put_digit(n);
        } else {
            self.put_digits(n / 10, k - 1);
            self.put_digit(n % 10);
        }
    }

    // A decimal number.
    pub fn dec_number(&mut self, n: u64)
        ensures { Writes self.old (dec_bytes n) self.new }
    {
        self.start();
        self.put_digits(n, 20);
    }

    // A tab and a decimal number.
    pub fn dec_field(&mut self, n: u64)
        ensures { Writes self.old (dec_field n) self.new }
    {
        self.put(9);
        self.dec_number(n);
    }

    // Bytes, one after the other.
    fn put_all(&mut self, bytes: &[u8])
        requires { self.old.at ≤ length self.old.out.now }
        ensures { Writes self.old bytes.now self.new }
    {
        for b in bytes {
            self.put(*b);
        }
    }

    // A tab and eight hex digits.
    pub fn hex_field(&mut self, bits: u32)
        ensures { Writes self.old (hex_field bits) self.new }
    {
        let n = bits as u64;
        self.put(9);
        self.put_all(&four_digits(n / 65536));
        self.put_all(&four_digits(n));
    }

    // Where writing starts: at the place, or at the buffer's end.
    pub fn start(&mut self)
        ensures { Writes self.old [] self.new }
    {
        self.at = self.at.min(self.out.len());
    }
}
