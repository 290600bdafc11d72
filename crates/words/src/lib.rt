// The words of a text, one after another.
#![tactic(auto)]

ghost use Rattle.std.specs.Prelude.{◌≡◌, drop};
ghost use Rattle.text.specs.Text.{words};
ghost use Rattle.words.specs.Words.{word_at};

// The first word, empty where there is none.
// Kept (1): no word is empty, so that an empty part says none; no number and no method is read of it, as none would be of an `Option`.
pub fn word(s: &[u8]) -> &[u8]
    ensures { result.now ≡ word_at 0 s.now }
{
    text::first_word(s).text(s)
}

// What stands after the first word.
pub fn after_word(s: &[u8]) -> &[u8]
    ensures { words result.now ≡ drop 1 (words s.now) }
{
    let w = text::first_word(s);
    &s[w.end()..]
}
