//! The options of regular expressions, whose order does not count.

ghost use Rattle.std.specs.Prelude.{◌≡◌, ◌↔◌, chars, IsTrue};
ghost use Rattle.bson_base.specs.Options.{sorted_text};
ghost use Rattle.bson_meaning.specs.Counts.{count, StandAlike};

/// Whether two texts have the same characters equally often. Texts that are equal, or differ in length, are decided at
/// once.
pub(crate) fn same_options(options: &str, others: &str) -> bool
    ensures { IsTrue result ↔ (sorted_text options.now ≡ sorted_text others.now) }
{
    if options == others {
        return true;
    }
    if options.len() != others.len() {
        return false;
    }
    has_counts_of(options, others) && has_counts_of(others, options)
}

/// Whether each character of the second text occurs equally often in both.
fn has_counts_of(text: &str, other: &str) -> bool
    ensures { IsTrue result ↔ StandAlike (chars text.now) (chars other.now) (chars other.now) }
{
    for character in other.chars() {
        if count_of(character, text) != count_of(character, other) {
            return false;
        }
    }
    true
}

/// How often a character occurs in a text.
fn count_of(character: char, text: &str) -> usize
    ensures { result ≡ count character (chars text.now) }
{
    let mut count = 0;
    for other in text.chars() {
        if other == character {
            count += 1;
        }
    }
    count
}
