// The class of a sample (docs/RULES.md, 'Sample word'): which classes there are, and words that hold
// no class because it stands beside them. A list is judged to its end, with no early return, whatever
// was found before.
#![tactic(auto)]

ghost use Rattle.std.specs.Prelude.{◌≡◌};
ghost use Rattle.laws.specs.Refusal.{both};
ghost use Rattle.sample.specs.Storable.{storable};
ghost use Rattle.class.specs.Class.{class_over, all_bare};
ghost use Rattle.class.specs.Inner.{word_right};

// Film.
pub const LAST_CLASS: u8 = 4;

// Some class of the list is over `last`.
pub fn some_over(last: u8, classes: &[u8]) -> bool
    ensures { result ≡ class_over last classes.now }
{
    let mut over = false;
    for class in classes {
        over |= last < *class;
    }
    over
}

// The word may be stored at the place `least` or later, its class beside it: motions in range, no
// class bit set.
pub fn word_right(least: u32, word: u32) -> bool
    ensures { result ≡ word_right least word }
{
    sample::in_range(word) & (least <= sample::place_of(word)) & (sample::class_of(word) == 0)
}

// The words may be stored with their classes beside them: motions in range, (R, C) rising, no class
// bit set.
pub fn all_right(words: &[u32]) -> bool
    ensures { result ≡ both (storable words.now) (all_bare words.now) }
{
    let mut right = true;
    let mut least = 0;
    for word in words {
        right &= word_right(least, *word);
        least = sample::place_of(*word) + 1;
    }
    right
}
