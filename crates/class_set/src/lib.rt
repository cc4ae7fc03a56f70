// A set of classes (docs/RULES.md, 'Sets of classes'): a byte whose bit c names class c. In go a set,
// words and a class for each; out come the words of the named classes, in their order, at the front of
// a buffer. Order 14 of the change requests.
#![tactic(auto)]

ghost use Rattle.std.specs.Prelude.{◌≡◌, ◌≤◌, length};
ghost use Rattle.laws.specs.Chosen.{Front};
ghost use Rattle.class_set.specs.Set.{names, names_over, chosen, named_count};

use class::LAST_CLASS;

// Classes 0 to 4.
pub const ALL_CLASSES: u8 = 31;

pub fn names(set: u8, class: u8) -> bool
    ensures { result ≡ names set class }
{
    class <= LAST_CLASS && (set >> class) % 2 == 1
}

// Row 4: the set names a class over the last.
pub fn names_over(set: u8) -> bool
    ensures { result ≡ names_over set }
{
    set > ALL_CLASSES
}

// The words of the named classes, moved to the front, and how many they are. Each word is stored where
// the next named one belongs and then counted or not: no store hangs on its class, only the count.
pub fn choose(set: u8, words: &[u32], classes: &[u8], out: &mut [u32]) -> usize
    requires words_len { length words.now ≡ length classes.now }
    requires words_in_bounds { length words.now ≤ length out.old }
    ensures { Front (chosen set words.now classes.now) out.new result }
{
    let mut n = 0;
    for (word, class) in words.iter().zip(classes) {
        out[n] = *word;
        if names(set, *class) {
            n += 1;
        }
    }
    n
}

pub fn count_named(set: u8, classes: &[u8]) -> usize
    ensures { result ≡ named_count set classes.now }
{
    classes.iter().filter(|class| names(set, **class)).count()
}
