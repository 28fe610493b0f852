// Lines put into a caller's row.
ghost use Rattle.std.specs.Prelude.{◌≡◌, ◌<◌, length, MatchResult};
ghost use Rattle.network.specs.Refusals.{Says};
ghost use Rattle.print.specs.Row.{starting};

use network::refusal::Refusal;

/// Puts the bytes of `line` at the start of `row`, and answers how many they are.
/// Where they do not fit, the refusal is 15 and the row is unchanged.
pub fn put_line(row: &mut [u8], line: &[u8]) -> Result<usize, Refusal>
    ensures { MatchResult result (λ n. (n ≡ length line.now) × (row.new ≡ starting line.now row.old)) (λ e. Says e 15 × (length row.old < length line.now) × (row.new ≡ row.old)) }
{
    // kept: `get_mut` says nothing of what the row holds once its part is written
    if row.len() < line.len() {
        return Err(Refusal::LineRow);
    }
    row[..line.len()].copy_from_slice(line);
    Ok(line.len())
}
