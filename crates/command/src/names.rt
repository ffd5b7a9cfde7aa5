//! The names of files among the words of `gate check-all`.
ghost use Rattle.std.specs.Prelude.{◌≡◌, ◌∷◌, [], IfOk, IsTrue, codes, map};
ghost use Rattle.std.specs.List.{list_any};
ghost use Rattle.command.specs.Options.{option_words};
ghost use Rattle.command.specs.Names.{file_names, flag_letter, is_flag as flag_meant, name_next, name_stands};
ghost use Rattle.command.specs.Names.{input_path as path_meant, is_option as option_meant, takes_number as number_meant};

use crate::option_values::option_words;
use std::alloc::{AllocError, Global};

/// What the next word may be.
#[derive(Clone, Copy, PartialEq, Eq)]
pub enum Next {
    /// A name or an option.
    Any,
    /// The number of the option before it.
    Number,
    /// A name, whatever it looks like.
    Name,
}

/// Whether the word is an option alone whose number is the next word.
fn takes_number(word: &str) -> bool
    ensures { result ≡ number_meant word.now }
{
    word == "--workers" || word == "--piece"
}

/// Whether the word is an option: it begins with `-`, and is not that alone.
fn is_option(word: &str) -> bool
    ensures { result ≡ option_meant word.now }
{
    word.as_bytes().first() == Some(&b'-') && word.len() > 1
}

/// Whether the word is a name.
fn is_name(next: Next, word: &str) -> bool
    ensures { result ≡ name_stands next word.now }
{
    match next {
        Next::Any => !is_option(word),
        Next::Number => false,
        Next::Name => true,
    }
}

/// What the word after this one may be.
fn after(next: Next, word: &str) -> Next
    ensures { result ≡ name_next next word.now }
{
    match next {
        Next::Any if word == "--" => Next::Name,
        Next::Any if takes_number(word) => Next::Number,
        Next::Any | Next::Number => Next::Any,
        Next::Name => Next::Name,
    }
}

/// The words after the command's name that are names.
pub fn file_names<'a>(alloc: Global, words: &'a [&'a str]) -> Result<Vec<&'a str>, AllocError>
    ensures { IfOk result (λ names. map (λ n. n.now) names.items ≡ file_names (map (λ w. w.now) words.now)) }
{
    let mut names = Vec::new(alloc);
    let mut next = Next::Any;
    for i in 1..words.len() {
        let word = words[i];
        let stands = is_name(next, word);
        next = after(next, word);
        if stands {
            names.push(word)?;
        }
    }
    Ok(names)
}

/// Whether the only name is `-`.
pub fn is_list(names: &[&str]) -> bool
    ensures { IsTrue result → map (λ n. n.now) names.now ≡ codes "-" ∷ [] }
{
    match names {
        [name] => *name == "-",
        _ => false,
    }
}

/// Whether the letter is among short options.
fn has_letter(word: &[u8], letter: u8) -> bool
    ensures { result ≡ flag_letter letter word.now }
{
    match word {
        [b'-', b'-', ..] => false,
        [b'-', letters @ ..] => letters.contains(&letter),
        _ => false,
    }
}

/// Whether the word says the option with this long form and this letter.
fn is_flag(word: &str, long: &str, letter: u8) -> bool
    ensures { result ≡ flag_meant long.now letter word.now }
{
    word == long || has_letter(word.as_bytes(), letter)
}

/// Whether a word that may be an option says the one with this long form and this letter.
pub fn says_flag(words: &[&str], long: &str, letter: u8) -> bool
    ensures { result ≡ list_any (flag_meant long.now letter) (option_words (map (λ w. w.now) words.now)) }
{
    let options = option_words(words);
    for word in options {
        if is_flag(word, long, letter) {
            return true;
        }
    }
    false
}

/// The file that a module is read from whose name is this: for `-` standard input.
pub fn input_path<'a>(name: &'a str) -> &'a str
    ensures { result.now ≡ path_meant name.now }
{
    if name == "-" { "/dev/stdin" } else { name }
}
