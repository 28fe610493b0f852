// The lines of an account.
ghost use Rattle.std.specs.Prelude.{◌≡◌, IfOk, Some, string_bytes};
ghost use Rattle.account.specs.Lines.{account_lines};

use crate::account::Account;
use std::alloc::{AllocError, Global};
use std::fmt;

/// Six lines, each ended by byte 10.
impl fmt::Display for Account {
    ghost output = { λ a. Some (account_lines a) };

    fn fmt<W: fmt::Write>(&self, f: &mut fmt::Formatter<W>) -> fmt::Result {
        let answer = if self.balanced() { "yes" } else { "no" };
        let (first, second) = self.reach;
        write!(f, "(nodes {})\n(arcs {})\n", self.nodes, self.arcs)?;
        write!(f, "(offered {} {})\n", self.offered, self.offering)?;
        write!(f, "(wanted {} {})\n", self.wanted, self.wanting)?;
        write!(f, "(balanced {answer})\n(reach {first} {second})\n")
    }
}

/// The six lines of an account, each ended by byte 10.
pub fn account_lines(heap: Global, account: &Account) -> Result<String, AllocError>
    ensures { IfOk result (λ s. string_bytes s ≡ account_lines account.now) }
{
    format!(in heap; "{account}")
}
