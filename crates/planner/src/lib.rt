// What the program answers to a text.
#![tactic(auto)]

#[cfg(test)]
mod tests;

ghost use Rattle.std.specs.Prelude.{◌≡◌, IfOk, IfSome, string_bytes};
ghost use Rattle.planner.specs.Answer.{Answers};

use account::lines::account_lines;
use account::sums::account_of;
use network::limits::{MAX_ARCS, MAX_NODES, MAX_TEXT};
use network::road::Road;
use print::refused::refusal_line;
use std::alloc::{AllocError, Global};
use std::io::Read;
use text::{Sizes, read};

// One byte more than a text may have is enough to refuse it.
// kept: a cast, since a constant calls no function
const ENOUGH: u64 = MAX_TEXT as u64 + 1;

/// The account of the consignment that `text` is, or the line of its first fault.
pub fn answer(heap: Global, text: &[u8]) -> Result<String, AllocError>
    ensures { IfOk result (λ s. Answers text.now (string_bytes s)) }
{
    // kept: arrays with a count for each, since the reader of texts fills rows that are handed in, by a rule of the project
    let mut roads = [Road::default(); MAX_ARCS];
    let mut stocks = [0; MAX_NODES];
    match read(text, &mut roads, &mut stocks) {
        Ok(Sizes { nodes, arcs }) => {
            account_lines(heap, &account_of(&roads[..arcs], &stocks[..nodes]))
        }
        Err(refusal) => refusal_line(heap, refusal),
    }
}

/// The answer to the text that `source` has, of which it reads as much as the answer needs.
pub fn answer_from<R: Read + Drop>(heap: Global, source: R) -> anyhow::Result<String>
    ensures { IfOk result (λ s. IfSome (R.remaining source) (λ text. Answers text (string_bytes s))) }
{
    let mut text = Vec::new(heap);
    source.take(ENOUGH).read_to_end(&mut text)?;
    Ok(answer(heap, &text)?)
}
