// Reading a whole text.
ghost use Rattle.std.specs.Prelude.{◌≡◌, ◌≤◌, ◌++◌, length, take, drop, map};
ghost use Rattle.network.specs.Limits.{max_text};
ghost use Rattle.arrayvec.specs.ArrayVec.{array_vec_len};
ghost use Rattle.text.specs.Reader.{Answered, FirstRead};
ghost use Rattle.text.specs.Drafts.{stock_said};

use crate::draft::Draft;
use crate::sizes::Sizes;
use forms::form::net;
use forms::rest::Cursor;
use lines::line::line;
use lines::word::Word;
use network::limits::MAX_TEXT;
use network::refusal::Refusal;
use network::road::Road;

/// Reads a consignment into the first entries of a row of roads and a row of stocks, and answers its sizes.
///
/// Every other entry stays as it was, and a refusal leaves both rows as they were. A text is accepted exactly where it is
/// the rendering of a consignment that fits the rows; otherwise the refusal is its first fault.
// kept: the rows that it fills are handed in as two slices, by a rule of the project
pub fn read(text: &[u8], roads: &mut [Road], stocks: &mut [i32]) -> Result<Sizes, Refusal>
    ensures { Answered text.now roads.old stocks.old result roads.new stocks.new }
{
    if text.len() > MAX_TEXT {
        return Err(Refusal::TextSize);
    }
    let form = line(text, 0)?;
    let sizes = first_line(form)?;
    if roads.len() < sizes.arcs || stocks.len() < sizes.nodes {
        return Err(Refusal::TextRows);
    }
    let mut draft = Draft::new(sizes);
    draft.take_lines(text, form.len() + 1)?;
    draft.copy_into(roads, stocks);
    Ok(sizes)
}

// The numbers of nodes and arcs that the first line names.
fn first_line(form: &[u8]) -> Result<Sizes, Refusal>
    requires { length form.now ≤ max_text }
    ensures { FirstRead form.now result }
{
    let line = Cursor {
        bytes: form,
        place: 0,
    };
    match line.word() {
        Some((Word::Net, rest)) => {
            let (nodes, arcs) = net(rest)?;
            // kept: `usize` has no `From<u32>`, and a `try_from` with `unwrap` says no more than a cast that is proved to lose nothing
            Ok(Sizes {
                nodes: nodes as usize,
                arcs: arcs as usize,
            })
        }
        _ => Err(line.no_word(&[Word::Net])),
    }
}

impl Draft {
    // Copies what the draft holds to the front of the rows.
    fn copy_into(&self, roads: &mut [Road], stocks: &mut [i32])
        requires roads { array_vec_len self.now.roads ≤ length roads.old }
        requires stocks { self.now.sizes.nodes ≤ length stocks.old }
        ensures roads { roads.new ≡ self.now.roads.items ++ drop (array_vec_len self.now.roads) roads.old }
        ensures stocks { stocks.new ≡ map stock_said (take self.now.sizes.nodes self.now.stocks) ++ drop self.now.sizes.nodes stocks.old }
    {
        roads[..self.roads.len()].copy_from_slice(self.roads.as_slice());
        let nodes = self.sizes.nodes;
        fill(&mut stocks[..nodes], &self.stocks);
    }
}

// Fills a row with what is said of the first nodes, 0 where no line names one.
fn fill(row: &mut [i32], said: &[Option<i32>])
    requires { length row.old ≤ length said.now }
    ensures { row.new ≡ map stock_said (take (length row.old) said.now) }
{
    // kept: `map` over the array copies it several times, and the library for C then needs `memcpy` from outside
    for (i, stock) in row.iter_mut().enumerate() {
        *stock = said[i].unwrap_or(0);
    }
}
