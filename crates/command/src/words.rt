//! Words among words.
ghost use Rattle.std.specs.Prelude.{◌≡◌, ◌<◌, ◌≤◌, Contains, IfSome, IsTrue, length, map};
ghost use Rattle.command.specs.Requests.{BeginsWith, ContainsFront, StandsAt, first_word};

/// The first word, the empty one where there is none.
pub fn first_word<'a>(words: &'a [&'a str]) -> &'a str
    ensures { result.now ≡ first_word (map (λ w. w.now) words.now) }
{
    match words.first() {
        Some(word) => word,
        None => "",
    }
}

/// Whether the word begins with this text.
pub fn begins_with(word: &str, front: &str) -> bool
    ensures { IsTrue result → BeginsWith front.now word.now }
{
    word.strip_prefix(front).is_some()
}

/// The first position from `start` on where the word is this text.
pub fn find_word(words: &[&str], start: usize, text: &str) -> Option<usize>
    ensures from { IfSome result (λ i. start ≤ i) }
    ensures within { IfSome result (λ i. i < length words.now) }
    ensures stands { IfSome result (λ i. StandsAt (map (λ w. w.now) words.now) i text.now) }
{
    for i in start..words.len() {
        if words[i] == text {
            return Some(i);
        }
    }
    None
}

/// Whether one of the words is this text.
pub fn contains_word(words: &[&str], text: &str) -> bool
    ensures { IsTrue result → Contains (map (λ w. w.now) words.now) text.now }
{
    match find_word(words, 0, text) {
        Some(_) => true,
        None => false,
    }
}

/// Whether one of the words begins with this text.
pub fn contains_front(words: &[&str], front: &str) -> bool
    ensures { IsTrue result → ContainsFront (map (λ w. w.now) words.now) front.now }
{
    for word in words {
        if begins_with(word, front) {
            return true;
        }
    }
    false
}
