//! The values of options, as the words say them.
ghost use Rattle.std.specs.Prelude.{◌≡◌, ◌⊎◌, [], ◌++◌, IfSome, MatchOption, Some, codes, map, option_map};
ghost use Rattle.command.specs.Options.{IsDecimal, IsOptionNumber, IsOptionText, LacksOption, option_words};

/// The number that the words say of the option with this name and default. `None` where they say none.
pub fn option_number(words: &[&str], name: &str, default: &str) -> Option<u32>
    ensures { IfSome result (IsOptionNumber (map (λ w. w.now) words.now) name.now default.now) }
{
    number_of(option_text(option_words(words), name, default)?)
}

/// The words that may be options.
pub fn option_words<'a>(words: &'a [&'a str]) -> &'a [&'a str]
    ensures { map (λ w. w.now) result.now ≡ option_words (map (λ w. w.now) words.now) }
{
    for i in 0..words.len() {
        if words[i] == "--" {
            return &words[..i];
        }
    }
    words
}

/// The text that the words say of an option. `None` where the word that begins with it gives none.
fn option_text<'a>(words: &'a [&'a str], name: &str, default: &'a str) -> Option<&'a str>
    ensures { IfSome result (λ text. IsOptionText (map (λ w. w.now) words.now) (codes "--" ++ name.now) default.now text.now) }
{
    for i in 0..words.len() {
        if let Some(rest) = after_option(words[i], name) {
            return text_of(rest, words.get(i + 1).copied());
        }
    }
    Some(default)
}

/// The text that a word gives, by what follows the option in it: what stands after `=`, or the next word.
fn text_of<'a>(rest: &'a str, next: Option<&'a str>) -> Option<&'a str>
    ensures { IfSome result (λ text. (rest.now ≡ codes "=" ++ text.now)
        ⊎ ((rest.now ≡ []) × (option_map (λ w. w.now) next.entry ≡ Some text.now))) }
{
    if rest.is_empty() {
        next
    } else {
        rest.strip_prefix('=')
    }
}

/// What follows the option in the word, where it begins with it.
fn after_option<'a>(word: &'a str, name: &str) -> Option<&'a str>
    ensures { MatchOption result (LacksOption (codes "--" ++ name.now) word.now)
        (λ rest. word.now ≡ (codes "--" ++ name.now) ++ rest.now) }
{
    word.strip_prefix("--")?.strip_prefix(name)
}

/// The number that a text is, where it fits 32 bits.
fn number_of(text: &str) -> Option<u32>
    ensures { IfSome result (λ n. IsDecimal n text.now) }
{
    match text.parse::<i64>() {
        Ok(number) => u32::try_from(number).ok(),
        Err(_) => None,
    }
}
