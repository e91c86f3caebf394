// Printed forms into a lent buffer.
ghost use Rattle.std.specs.Prelude.{◌≡◌, [], ◌∷◌, ◌+◌, ◌≤◌, length};
ghost use Rattle.std.proofs.lemmas.List.Edits.{sets};
ghost use Rattle.text.specs.Number.{decimal};
ghost use Rattle.text.specs.Internal.Writing.{written, reached};

// One byte at `at`; the place after it, or `at` where there is no room.
pub fn put_byte(out: &mut [u8], at: usize, b: u8) -> usize
    ensures value { result ≡ reached out.old at (b ∷ []) }
    ensures out_after { out.new ≡ written out.old at (b ∷ []) }
{
    if out.len() <= at {
        return at;
    }
    out[at] = b;
    at + 1
}

// How many digits a number has.
fn width(v: u32) -> usize
    ensures { result ≡ length (decimal v) }
{
    v.checked_ilog10().map_or(1, |n| n as usize + 1)
}

// The digits of a number at `at`, where they fit; the place after them. It calls itself once for each digit. (`Display`
// writes into a `fmt::Write`, and one that is a lent buffer and a place would be longer than this.)
fn put_digits(out: &mut [u8], at: usize, v: u32) -> usize
    requires { at + length (decimal v) ≤ length out.old }
    ensures value { result ≡ at + length (decimal v) }
    ensures out_after { out.new ≡ sets out.old at (decimal v) }
{
    if v < 10 {
        out[at] = b'0' + v as u8;
        return at + 1;
    }
    let p = put_digits(out, at, v / 10);
    out[p] = b'0' + (v % 10) as u8;
    p + 1
}

// A number in decimal at `at`; the place after it, or `at` where there is no room.
pub fn put_number(out: &mut [u8], at: usize, v: u32) -> usize
    ensures value { result ≡ reached out.old at (decimal v) }
    ensures out_after { out.new ≡ written out.old at (decimal v) }
{
    if out.len().saturating_sub(at) < width(v) {
        return at;
    }
    put_digits(out, at, v)
}
