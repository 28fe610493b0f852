// Filling a draft line by line.
ghost use Rattle.std.specs.Prelude.{◌≡◌, ◌<◌, ◌≤◌, [], length};
ghost use Rattle.arrayvec.specs.ArrayVec.{array_vec_len};
ghost use Rattle.network.specs.Limits.{max_text};
ghost use Rattle.text.specs.Consignment.{Sized};
ghost use Rattle.text.specs.Refused.{open_words, Begun};
ghost use Rattle.text.specs.Drafts.{Holds, StockTook, RoadTook, LineTook, LinesTook};

use crate::draft::Draft;
use crate::sizes::Sizes;
use arrayvec::ArrayVec;
use forms::form::{arc, stock};
use forms::rest::Cursor;
use lines::line::line;
use lines::word::Word;
use network::limits::MAX_NODES;
use network::refusal::Refusal;

impl Draft {
    /// An empty draft of these sizes.
    pub fn new(sizes: Sizes) -> Draft
        requires { Sized sizes.nodes sizes.arcs }
        ensures sizes { result.sizes ≡ sizes }
        ensures empty { Holds result [] [] }
    {
        Draft {
            sizes,
            stocks: [None; MAX_NODES],
            roads: ArrayVec::new(),
        }
    }

    /// Reads all lines of a text from `start` on, where the first line ends.
    pub fn take_lines(&mut self, text: &[u8], start: usize) -> Result<(), Refusal>
        requires short { length text.now ≤ max_text }
        requires begun { Begun text.now self.old.sizes.nodes self.old.sizes.arcs [] [] start }
        requires empty { Holds self.old [] [] }
        ensures { LinesTook text.now self.old self.new result }
    {
        let mut place = start;
        // kept: std's `split` gives no places and does not tell an unended last line, and an iterator of our own would say each line of this loop in its `next`
        while place < text.len() {
            let bytes = line(text, place)?;
            self.take(Cursor { bytes, place })?;
            place += bytes.len() + 1;
        }
        if self.roads.len() < self.sizes.arcs {
            return Err(Refusal::Form(text.len()));
        }
        Ok(())
    }

    // Takes a line.
    fn take(&mut self, line: Cursor<'_>) -> Result<(), Refusal>
        ensures { LineTook self.old line.entry.bytes.now line.entry.place self.new result }
    {
        match line.word() {
            Some((Word::Stock, rest)) if self.roads.is_empty() => self.take_stock(rest, line.place),
            Some((Word::Arc, rest)) if self.roads.len() < self.sizes.arcs => {
                self.take_arc(rest, line.place)
            }
            _ => Err(line.no_word(self.open_words())),
        }
    }

    // The words that may begin the next line.
    fn open_words(&self) -> &'static [Word]
        ensures { result.now ≡ open_words self.now.sizes.arcs (array_vec_len self.now.roads) }
    {
        // kept: each of the four is a list that stands in the program, so that none has to be made
        match (self.roads.is_empty(), self.roads.len() < self.sizes.arcs) {
            (true, true) => &[Word::Stock, Word::Arc],
            (true, false) => &[Word::Stock],
            (false, true) => &[Word::Arc],
            (false, false) => &[],
        }
    }

    // Takes a stock from what follows the word of the line at `place`.
    fn take_stock(&mut self, rest: Cursor<'_>, place: usize) -> Result<(), Refusal>
        ensures { StockTook self.old rest.entry.bytes.now rest.entry.place place self.new result }
    {
        // kept: here and below `as` between `u32` and `usize`, which have no `From`; a number that is cast is still the same number to the check
        let (node, amount) = stock(rest, self.sizes.nodes as u32)?;
        let i = node as usize;
        if self.stocks[i].is_some() {
            return Err(Refusal::NamedTwice(place));
        }
        self.stocks[i] = Some(amount);
        Ok(())
    }

    // Takes an arc from what follows the word of the line at `place`.
    fn take_arc(&mut self, rest: Cursor<'_>, place: usize) -> Result<(), Refusal>
        requires { array_vec_len self.old.roads < self.old.sizes.arcs }
        ensures { RoadTook self.old rest.entry.bytes.now rest.entry.place place self.new result }
    {
        let road = arc(rest, self.sizes.nodes as u32)?;
        if !road.is_passable() {
            return Err(Refusal::Impassable(place));
        }
        self.roads.push(road);
        Ok(())
    }
}
