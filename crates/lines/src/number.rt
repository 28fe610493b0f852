// Numbers: an optional minus and digits.
ghost use Rattle.std.specs.Prelude.{◌≡◌, ◌+◌, ◌^◌, ◌<◌, ◌≤◌, length, pos, neg_ℤ, if◌then◌else◌, ◌&&◌, int_le, Ok, Err, MatchResult};
ghost use Rattle.lines.specs.Number.{max_digits, continued, AllDigits, minus, figures, width, valued, judged, number};

use network::refusal::Refusal;

/// The least and the greatest that a number may be.
// kept: a std range of this kind is not Copy, and once it has been walked through it no longer contains its end.
#[derive(Clone, Copy, Debug, PartialEq, Eq)]
pub struct Range {
    pub low: i32,
    pub high: i32,
}

impl Range {
    /// The numbers at most so far from zero.
    pub fn around(far: u32) -> Range
        requires { far < 2 ^ 31 }
        ensures low { result.low ≡ neg_ℤ (pos far) }
        ensures high { result.high ≡ pos far }
    {
        let high = i32::try_from(far).unwrap();
        Range { low: -high, high }
    }

    // Whether the value is neither below the least nor above the greatest.
    fn contains(&self, value: i32) -> bool
        ensures { result ≡ (int_le self.now.low value && int_le value self.now.high) }
    {
        (self.low..=self.high).contains(&value)
    }
}

/// The most digits that a number may have.
const MAX_DIGITS: usize = 7;

/// The number that stands first, and how many bytes it takes.
// kept: `Cursor`, which holds both with the fact that they fit, stands in `forms`, above; here it would be taken apart at once
pub fn number_at(bytes: &[u8], place: usize, range: Range) -> Result<(i32, usize), Refusal>
    requires { place + length bytes.now < 2 ^ 63 }
    ensures { MatchResult result (λ v. (number range.low range.high bytes.now place ≡ Ok v.0) × (v.1 ≡ width bytes.now) × (v.1 ≤ length bytes.now)) (λ e. number range.low range.high bytes.now place ≡ Err e) }
{
    let numeral = Numeral::first_of(bytes, place);
    let value = numeral.value_in(range)?;
    Ok((value, numeral.width()))
}

// A sign or none, the digits that follow it, and the place of its first byte.
// kept: that a minus stands first is a yes or no, which an enum of two signs would only name again
#[derive(Clone, Copy)]
struct Numeral<'a> {
    negative: bool,
    digits: &'a [u8],
    place: usize,
    ghost all_digits: { AllDigits digits.now },
    ghost fits: { place + length digits.now < 2 ^ 63 },
}

impl<'a> Numeral<'a> {
    // What stands first, as far as digits go.
    fn first_of(bytes: &'a [u8], place: usize) -> Numeral<'a>
        requires { place + length bytes.now < 2 ^ 63 }
        ensures sign { result.negative ≡ minus bytes.now }
        ensures digits { result.digits.now ≡ figures bytes.now }
        ensures place { result.place ≡ place }
    {
        let negative = bytes.starts_with(b"-");
        let unsigned = &bytes[usize::from(negative)..];
        let len = unsigned.iter().take_while(|b| b.is_ascii_digit()).count();
        Numeral {
            negative,
            digits: &unsigned[..len],
            place,
        }
    }

    // How many bytes it takes.
    fn width(&self) -> usize
        ensures { result ≡ (if self.now.negative then 1 else 0) + length self.now.digits.now }
    {
        usize::from(self.negative) + self.digits.len()
    }

    // What it comes to.
    fn value_in(&self, range: Range) -> Result<i32, Refusal>
        ensures { result ≡ judged self.now.negative self.now.digits.now range.low range.high self.now.place }
    {
        match self.digits {
            [] => Err(Refusal::Form(self.place + usize::from(self.negative))),
            [b'0', ..] if self.negative => Err(Refusal::Form(self.place)),
            [b'0', _, ..] => Err(Refusal::Form(self.place)),
            digits if digits.len() > MAX_DIGITS => Err(Refusal::Number(self.place)),
            _ => {
                let value = self.signed();
                if range.contains(value) {
                    Ok(value)
                } else {
                    Err(Refusal::Number(self.place))
                }
            }
        }
    }

    // The number that a few digits write, with the sign.
    fn signed(&self) -> i32
        requires { length self.now.digits.now ≤ max_digits }
        ensures { result ≡ valued self.now.negative (continued 0 self.now.digits.now) }
    {
        // kept: in a `fold` nothing bounds the number so far, and `parse` wants a text, not bytes
        let mut magnitude = 0;
        for digit in self.digits {
            magnitude = magnitude * 10 + i32::from(digit - b'0');
        }
        if self.negative { -magnitude } else { magnitude }
    }
}
