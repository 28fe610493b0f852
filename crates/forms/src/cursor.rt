// Reading a line item by item.
ghost use Rattle.std.specs.Prelude.{◌≡◌, ℕ, ◌+◌, ◌^◌, ◌<◌, List, [], ◌∷◌, ◌++◌, ◌≤◌, length, pos, ◌≤ℤ◌, IfOk, MatchOption, ◌≢◌};
ghost use Rattle.network.specs.Refusals.{SaysAt};
ghost use Rattle.lines.specs.Word.{spelt, furthest as reach};
ghost use Rattle.forms.specs.Form.{pair as twice, cost as rate};
ghost use Rattle.forms.specs.Scan.{scan, byte as mark, num, Reads, by, none, one, both, natural as whole, naturals as wholes};

use crate::rest::Cursor;
use lines::number::{Range, number_at};
use lines::word::{Word, furthest, known};
use network::limits::MAX_COST;
use network::refusal::Refusal;

impl<'a> Cursor<'a> {
    /// The word that begins a line, and what follows bracket, word and space.
    pub fn word(&self) -> Option<(Word, Cursor<'a>)>
        ensures { MatchOption result ((w : Word) (rest : List ℕ) → self.now.bytes.now ≢ spelt w ++ rest) (λ k. (self.now.bytes.now ≡ spelt k.0 ++ k.1.bytes.now) × (k.1.place ≡ self.now.place + length (spelt k.0))) }
    {
        let (word, bytes) = known(self.bytes)?;
        let place = self.place + (self.bytes.len() - bytes.len());
        Some((word, Cursor { bytes, place }))
    }

    /// The refusal of a line that begins with none of the words: at the first byte that fits none of them.
    pub fn no_word(&self, words: &[Word]) -> Refusal
        ensures { SaysAt result 10 (self.now.place + reach words.now self.now.bytes.now) }
    {
        Refusal::Form(self.place + furthest(self.bytes, words))
    }

    /// Takes this byte.
    pub fn byte(&mut self, wanted: u8) -> Result<(), Refusal>
        ensures { Reads (mark wanted ∷ []) self.old.bytes.now self.old.place (by none result) self.new.bytes.now self.new.place }
    {
        match self.bytes {
            [first, rest @ ..] if *first == wanted => {
                self.bytes = rest;
                self.place += 1;
                Ok(())
            }
            _ => Err(Refusal::Form(self.place)),
        }
    }

    /// Takes a number of the range.
    pub fn number(&mut self, range: Range) -> Result<i32, Refusal>
        ensures reads { Reads (num range.low range.high ∷ []) self.old.bytes.now self.old.place (by one result) self.new.bytes.now self.new.place }
        ensures within { IfOk result (λ v. (range.low ≤ℤ v) × (v ≤ℤ range.high)) }
    {
        let (value, width) = number_at(self.bytes, self.place, range)?;
        self.bytes = &self.bytes[width..];
        self.place += width;
        Ok(value)
    }

    /// Takes a number from `low` to `high`.
    pub fn natural(&mut self, low: u32, high: u32) -> Result<u32, Refusal>
        requires { (low < 2 ^ 31) × (high < 2 ^ 31) }
        ensures reads { Reads (num (pos low) (pos high) ∷ []) self.old.bytes.now self.old.place (by whole result) self.new.bytes.now self.new.place }
        ensures within { IfOk result (λ v. (low ≤ v) × (v ≤ high)) }
    {
        let value = self.number(Range {
            low: i32::try_from(low).unwrap(),
            high: i32::try_from(high).unwrap(),
        })?;
        Ok(u32::try_from(value).unwrap())
    }

    /// Takes a cost.
    pub fn cost(&mut self) -> Result<i32, Refusal>
        ensures { Reads (rate ∷ []) self.old.bytes.now self.old.place (by one result) self.new.bytes.now self.new.place }
    {
        self.number(Range::around(MAX_COST))
    }

    /// Takes `(a b)`, two numbers of the range.
    pub fn pair(&mut self, range: Range) -> Result<(i32, i32), Refusal>
        ensures reads { Reads (twice (num range.low range.high)) self.old.bytes.now self.old.place (by both result) self.new.bytes.now self.new.place }
        ensures within { IfOk result (λ v. (range.low ≤ℤ v.0) × (v.0 ≤ℤ range.high) × (range.low ≤ℤ v.1) × (v.1 ≤ℤ range.high)) }
    {
        self.byte(b'(')?;
        let a = self.number(range)?;
        self.byte(b' ')?;
        let b = self.number(range)?;
        self.byte(b')')?;
        Ok((a, b))
    }

    /// Takes `(a b)`, two numbers from 0 to `high`.
    pub fn naturals(&mut self, high: u32) -> Result<(u32, u32), Refusal>
        requires { high < 2 ^ 31 }
        ensures { Reads (twice (num (pos 0) (pos high))) self.old.bytes.now self.old.place (by wholes result) self.new.bytes.now self.new.place }
    {
        let high = i32::try_from(high).unwrap();
        let (a, b) = self.pair(Range { low: 0, high })?;
        Ok((u32::try_from(a).unwrap(), u32::try_from(b).unwrap()))
    }

    /// Takes `(c d)`, two costs.
    pub fn costs(&mut self) -> Result<(i32, i32), Refusal>
        ensures { Reads (twice rate) self.old.bytes.now self.old.place (by both result) self.new.bytes.now self.new.place }
    {
        self.pair(Range::around(MAX_COST))
    }

    /// Nothing is left.
    pub fn end(&self) -> Result<(), Refusal>
        ensures { scan [] self.now.bytes.now self.now.place ≡ by none result }
    {
        match self.bytes {
            [] => Ok(()),
            _ => Err(Refusal::Form(self.place)),
        }
    }
}
