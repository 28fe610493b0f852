// Words.
ghost use Rattle.std.specs.Prelude.{◌≡◌, ℕ, ◌≤◌, List, ◌++◌, length, MatchOption, ◌≢◌};
ghost use Rattle.lines.specs.Word.{spelt, agree, furthest as reach};

/// The word that says which form a line has.
#[derive(Clone, Copy, Debug, PartialEq, Eq)]
pub enum Word {
    Net,
    Stock,
    Arc,
}

impl Word {
    // Bracket, word and space.
    fn spelling(self) -> &'static [u8]
        ensures { result.now ≡ spelt self }
    {
        match self {
            Word::Net => b"(net ",
            Word::Stock => b"(stock ",
            Word::Arc => b"(arc ",
        }
    }

    // How many bytes of a form agree with them at the front.
    fn agreement(self, form: &[u8]) -> usize
        ensures value { result ≡ agree self form.now }
        ensures bound { result ≤ length form.now }
    {
        self.spelling()
            .iter()
            .zip(form)
            .take_while(|(a, b)| a == b)
            .count()
    }
}

/// A form taken apart: its word, and what follows bracket, word and space.
pub fn known(form: &[u8]) -> Option<(Word, &[u8])>
    ensures { MatchOption result ((w : Word) (rest : List ℕ) → form.now ≢ spelt w ++ rest) (λ k. form.now ≡ spelt k.0 ++ k.1.now) }
{
    // kept: that slice patterns take bracket, word and rest of a form apart is a rule of the project; so the words stand here a second time
    match form {
        [b'(', b'n', b'e', b't', b' ', rest @ ..] => Some((Word::Net, rest)),
        [b'(', b's', b't', b'o', b'c', b'k', b' ', rest @ ..] => Some((Word::Stock, rest)),
        [b'(', b'a', b'r', b'c', b' ', rest @ ..] => Some((Word::Arc, rest)),
        _ => None,
    }
}

/// How many bytes of a form agree with one of the words: the byte after them fits none.
pub fn furthest(form: &[u8], words: &[Word]) -> usize
    ensures value { result ≡ reach words.now form.now }
    ensures bound { result ≤ length form.now }
{
    words
        .iter()
        .fold(0, |far, word| far.max(word.agreement(form)))
}
