// The line of a refusal.
ghost use Rattle.std.specs.Prelude.{◌≡◌, IfOk, string_bytes};
ghost use Rattle.print.specs.Refused.{refusal_line};

use network::refusal::Refusal;
use std::alloc::{AllocError, Global};

/// `(refused 8)`, or with a place `(refused 10 57)`, ended by byte 10.
pub fn refusal_line(heap: Global, refusal: Refusal) -> Result<String, AllocError>
    ensures { IfOk result (λ s. string_bytes s ≡ refusal_line refusal) }
{
    format!(in heap; "{refusal}\n")
}
