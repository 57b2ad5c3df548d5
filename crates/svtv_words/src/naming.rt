// Names by their places.
ghost use Rattle.std.specs.Prelude.{◌≡◌, [], length, get_or, option_map};
ghost use Rattle.svtv_words.specs.Reading.{one_more};
ghost use Rattle.svtv_words.specs.Seen.{names_are};

use crate::positionals::{MOST_POSITIONALS, Names};

impl<'a> Names<'a> {
    pub(crate) fn none() -> Names<'a>
        ensures { names_are result ≡ [] }
    {
        let empty: &'a [u8] = b"";
        Names {
            words: [empty; MOST_POSITIONALS],
            count: 0,
        }
    }

    pub(crate) fn count(self) -> usize
        ensures { result ≡ length (names_are self.entry) }
    {
        self.count
    }

    /// The name at this place, or an empty word where there is none.
    pub(crate) fn at(self, place: usize) -> &'a [u8]
        ensures { result.now ≡ get_or (names_are self.entry) place [] }
    {
        if place < self.count {
            self.words[place]
        } else {
            b""
        }
    }

    /// These and one more behind them, if there is room.
    pub(crate) fn one_more(self, word: &'a [u8]) -> Option<Names<'a>>
        ensures { option_map names_are result ≡ one_more (names_are self.entry) word.now }
    {
        let count = self.count;
        if count >= MOST_POSITIONALS {
            return None;
        }
        let mut words = self.words;
        words[count] = word;
        Some(Names {
            words,
            count: count + 1,
        })
    }
}
