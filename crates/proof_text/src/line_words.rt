//! The words of a line, one after another: however many they are, no list of them is held.
ghost use Rattle.std.specs.Prelude.{◌≡◌, ◌==◌, ◌<◌, ◌^◌, ◌∷◌, [], List, ℕ, length, take, IsNone, IfSome, IfOk};
ghost use Rattle.std.specs.List.{list_all, position};
ghost use Rattle.std.specs.Iterator.{YieldsFirstBy, item_count};
ghost use Rattle.proof_text.specs.Numbers.{is_run};
ghost use Rattle.proof_text.specs.Shapes.{parts_of, words_of};

use crate::numbers::is_run;
use crate::word::Word;
use cay_base::NoMemory;
use std::alloc::Global;
use std::marker::Model;

fn space(bytes: &[u8]) -> Option<usize>
    ensures { result ≡ position (λ b. b == 32) bytes.now }
{
    bytes.iter().position(|byte| *byte == b' ')
}

/// The first so many of the words that stand between the spaces of a text: contracts see their list.
#[derive(Drop)]
pub(crate) struct Words<'a> {
    text: &'a [u8],
    count: usize,
}

impl<'a> Model for Words<'a> {
    ghost Value = { List (List ℕ) };

    ghost view = { λ words. take words.count (words_of words.text.now) };
}

impl<'a> Words<'a> {
    /// All words of the line.
    pub(crate) fn of(line: &'a [u8]) -> Words<'a>
        ensures { result ≡ words_of line.now }
    {
        Words {
            text: line,
            count: line.len() + 1,
        }
    }

    /// The same words once more.
    pub(crate) fn again(&self) -> Words<'a>
        ensures same { result ≡ self.now }
        ensures few { length self.now < 2 ^ 64 }
    {
        Words {
            text: self.text,
            count: self.count,
        }
    }

    /// The first so many of the words.
    pub(crate) fn front(&self, count: usize) -> Words<'a>
        ensures { result ≡ take count self.now }
    {
        Words {
            text: self.text,
            count: if count < self.count {
                count
            } else {
                self.count
            },
        }
    }
}

impl<'a> Iterator for Words<'a> {
    type Item = Word<'a>;

    ghost next_gives = { YieldsFirstBy (λ word. word) (λ words. words) };

    ghost remaining = { item_count (λ words. words) };

    fn next(&mut self) -> Option<Word<'a>> {
        if self.count == 0 {
            return None;
        }
        let text = self.text;
        match space(text) {
            Some(end) => {
                self.text = &text[end + 1..];
                self.count -= 1;
                Some(Word::of(&text[..end]))
            }
            None => {
                self.count = 0;
                Some(Word::of(text))
            }
        }
    }
}

/// How many words there are.
pub(crate) fn count(words: &Words) -> usize
    ensures { result ≡ length words.now }
{
    words.again().count()
}

/// Whether there is no word.
pub(crate) fn is_empty(words: &Words) -> bool
    ensures { result ≡ (length words.now == 0) }
{
    words.again().next().is_none()
}

/// Whether all words are names by their shape.
pub(crate) fn are_names(words: &Words) -> bool
    ensures { result ≡ list_all is_run words.now }
{
    for word in words.again() {
        if !is_run(word.bytes()) {
            return false;
        }
    }
    true
}

/// The list of the words, which are few.
pub(crate) fn list<'a>(alloc: Global, words: &Words<'a>) -> Result<Vec<Word<'a>>, NoMemory>
    ensures { IfOk result (λ list. list.items ≡ words.now) }
{
    let mut list = Vec::new(alloc);
    for word in words.again() {
        list.push(word)?;
    }
    Ok(list)
}

/// The words in front of the first semicolon, and those behind it.
pub(crate) fn cut<'a>(words: &Words<'a>) -> Option<(Words<'a>, Words<'a>)>
    ensures some { IfSome result (λ two. parts_of words.now ≡ two.0 ∷ parts_of two.1) }
    ensures none { IsNone result → parts_of words.now ≡ words.now ∷ [] }
{
    let mut rest = words.again();
    let mut before = 0;
    while let Some(word) = rest.next() {
        if word.is(b";") {
            return Some((words.front(before), rest));
        }
        before += 1;
    }
    None
}
