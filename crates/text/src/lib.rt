// From bytes to fields: the forms that the three texts are made of, read at a place of a text. What is read comes with
// the place after it, or is refused.
#![tactic(auto)]

pub mod write; // write.rt: numbers and bytes into a buffer

ghost use Rattle.std.specs.Prelude.{◌≡◌, ◌≤◌, length, drop};
ghost use Rattle.text.specs.Reading.{byte as byte_of, fits as fits_of};
ghost use Rattle.text.specs.Number.{digits as digitsOf, number as number_of, opens_digit};
ghost use Rattle.text.specs.Set.{hex_set};
ghost use Rattle.text.specs.Field.{number_field, set_field, line_end, last_number};
ghost use Rattle.text.specs.Internal.Place.{placed, placed_end, hex_value};

use sets::Set;

// The largest number of 32 bits.
pub const MOST: u32 = 4294967295;

// The number of digits of a set: four bits each.
const SET_DIGITS: usize = sets::WIDTH / 4;

// The longest text, in bytes.
pub const LIMIT: usize = 16384;

// Whether a text is not longer than the limit.
#[tactic(auto, unfolding(crate::specs::Reading::fits))]
pub fn fits(s: &[u8]) -> bool
    ensures { result ≡ fits_of s.now }
{
    s.len() <= LIMIT
}

// The byte b at `at`: the place after it.
pub fn byte(s: &[u8], at: usize, b: u8) -> Option<usize>
    ensures { result ≡ placed_end s.now (byte_of b (drop at s.now)) }
{
    if *s.get(at)? == b { Some(at + 1) } else { None }
}

// The end of a line: the place after it.
pub fn line_end(s: &[u8], at: usize) -> Option<usize>
    ensures { result ≡ placed_end s.now (line_end (drop at s.now)) }
{
    byte(s, at, b'\n')
}

// Whether a digit stands at `at`.
fn digit_at(s: &[u8], at: usize) -> bool
    ensures { result ≡ opens_digit (drop at s.now) }
{
    s.get(at).is_some_and(u8::is_ascii_digit)
}

// The value of the digits from `from` on, up to the bound.
fn digits(s: &[u8], from: usize, bound: u32) -> Option<(u32, usize)>
    requires { from ≤ length s.now }
    ensures { result ≡ placed s.now (digitsOf bound 0 (drop from s.now)) }
{
    let mut v: u64 = 0;
    for (i, &b) in s[from..].iter().enumerate() {
        if !b.is_ascii_digit() {
            return Some((v as u32, from + i));
        }
        v = v * 10 + u64::from(b - b'0');
        if u64::from(bound) < v {
            return None;
        }
    }
    Some((v as u32, s.len()))
}

// A number up to the bound, without needless zeros.
pub fn number(s: &[u8], at: usize, bound: u32) -> Option<(u32, usize)>
    ensures { result ≡ placed s.now (number_of bound (drop at s.now)) }
{
    match *s.get(at)? {
        b'0' => {
            if digit_at(s, at + 1) {
                None
            } else {
                Some((0, at + 1))
            }
        }
        b'1'..=b'9' => digits(s, at, bound),
        _ => None,
    }
}

// The value of a lowercase hexadecimal digit.
#[tactic(auto, unfolding(crate::specs::Set::hex_digit, crate::specs::Internal::Place::hex_value))]
fn hex_digit(b: u8) -> Option<Set>
    ensures { result ≡ hex_value b }
{
    match b {
        b'0'..=b'9' => Some(Set::from(b - b'0')),
        b'a'..=b'f' => Some(Set::from(b - b'a' + 10)),
        _ => None,
    }
}

// A set.
pub fn set(s: &[u8], at: usize) -> Option<(Set, usize)>
    ensures { result ≡ placed s.now (hex_set (drop at s.now)) }
{
    let mut m: Set = 0;
    for &b in s.get(at..)?.get(..SET_DIGITS)? {
        m = m * 16 + hex_digit(b)?;
    }
    Some((m, at + SET_DIGITS))
}

// A tab and a number up to the bound.
pub fn number_field(s: &[u8], at: usize, bound: u32) -> Option<(u32, usize)>
    ensures { result ≡ placed s.now (number_field bound (drop at s.now)) }
{
    number(s, byte(s, at, b'\t')?, bound)
}

// A tab and a set.
pub fn set_field(s: &[u8], at: usize) -> Option<(Set, usize)>
    ensures { result ≡ placed s.now (set_field (drop at s.now)) }
{
    set(s, byte(s, at, b'\t')?)
}

// A tab, a number up to the bound and the end of the line.
pub fn last_number(s: &[u8], at: usize, bound: u32) -> Option<(u32, usize)>
    ensures { result ≡ placed s.now (last_number bound (drop at s.now)) }
{
    let (v, p) = number_field(s, at, bound)?;
    Some((v, line_end(s, p)?))
}
