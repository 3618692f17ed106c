// Characters that come by pairs, and which pairs were seen: what the name and the text have in common.
ghost use Rattle.std.specs.Prelude.{◌≡◌, ◌*◌};
ghost use Rattle.station.specs.Record.{no_pairs};
ghost use Rattle.station.specs.Update.{pairs_stored};

// The character at every place where nothing was stored.
const SPACE: u8 = 32;

// The characters, and for each pair of them whether it was seen.
#[derive(Clone, Copy)]
pub struct Pairs<const CHARACTERS: usize, const PAIRS: usize> {
    pub characters: [u8; CHARACTERS],
    pub seen: [bool; PAIRS],
}

impl<const CHARACTERS: usize, const PAIRS: usize> Pairs<CHARACTERS, PAIRS> {
    // Spaces, none seen.
    pub(crate) fn none() -> Self
        ensures { result ≡ no_pairs CHARACTERS PAIRS }
    {
        Pairs {
            characters: [SPACE; CHARACTERS],
            seen: [false; PAIRS],
        }
    }

    // With the two characters of a word stored as a pair that is marked seen; unchanged where there is no such pair.
    #[tactic(auto, unfolding(crate::specs::Update::pairs_stored))]
    pub(crate) fn stored(self, pair: usize, word: u16) -> Self
        requires { CHARACTERS ≡ 2 * PAIRS }
        ensures { result ≡ pairs_stored self.entry pair word }
    {
        if PAIRS <= pair {
            return self;
        }
        let mut more = self;
        more.characters[2 * pair] = groups::fields::first(word);
        more.characters[2 * pair + 1] = groups::fields::second(word);
        more.seen[pair] = true;
        more
    }
}
