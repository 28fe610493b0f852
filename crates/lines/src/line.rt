// Lines.
ghost use Rattle.std.specs.Prelude.{◌<◌, length, unwrap_or, IfSome, MatchResult};
ghost use Rattle.network.specs.Refusals.{SaysAt};
ghost use Rattle.lines.specs.Line.{LineAt, NoLine, NextEnd};

use network::refusal::Refusal;

/// The form of the line that begins at `place`: the part of `text` from there up to the next byte 10.
/// Where no byte 10 is left, and where `place` is at or past the end, the refusal is 10 at the text's length.
pub fn line(text: &[u8], place: usize) -> Result<&[u8], Refusal>
    ensures { MatchResult result (λ form. LineAt text.now place form.now) (λ e. SaysAt e 10 (length text.now) × NoLine text.now place) }
{
    let end = line_end(text, place).ok_or(Refusal::Form(text.len()))?;
    Ok(&text[place..end])
}

/// The place of the next byte 10 from `from` on.
pub fn line_end(text: &[u8], from: usize) -> Option<usize>
    ensures next { NextEnd text.now from (unwrap_or result (length text.now)) }
    ensures inside { IfSome result (λ at. at < length text.now) }
{
    text.iter()
        .skip(from)
        .position(|b| *b == b'\n')
        .map(|i| from + i)
}
