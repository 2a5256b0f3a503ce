//! The words of inputs.
ghost use Rattle.std.specs.Prelude.{◌≡◌, IfOk};
ghost use Rattle.std.specs.List.{list_all};
ghost use Rattle.std.specs.Char.{is_ascii_digit};
ghost use Rattle.tca_program.specs.Words.{AreAsked, IsSplit, is_session, session_in, texts};

use std::alloc::{AllocError, Global};

/// What the word of an input asks for: the file at a path, as an input of a session.
#[derive(Clone, Copy, Debug)]
pub struct Asked<'a> {
    pub session: u32,
    pub path: &'a str,
}

// Whether all octets of a text are ASCII digits.
fn all_digits(text: &str) -> bool
    ensures { result ≡ list_all is_ascii_digit text.now }
{
    text.bytes().all(|octet| octet.is_ascii_digit())
}

// Whether a text has the digits of a session.
fn has_digits(text: &str) -> bool
    ensures { result ≡ is_session text.now }
{
    !text.is_empty() && text.len() <= 10 && all_digits(text)
}

// The session of a text, where it is one.
fn session(text: &str) -> Option<u32>
    ensures { result ≡ session_in text.now }
{
    if !has_digits(text) {
        return None;
    }
    let number = text.parse::<u64>().ok()?;
    u32::try_from(number).ok()
}

/// The session and the path of the word of an input. `N@PATH` is an input of session N, where N has 1 to 10 digits and is at most
/// 4294967295, and PATH isn't empty; the first at sign is the one that counts. Any other word is a path, of session 0.
pub fn split_word(word: &str) -> (u32, &str)
    ensures { IsSplit word.now result.0 result.1.now }
{
    let Some((front, path)) = word.split_once('@') else {
        return (0, word);
    };
    if path.is_empty() {
        return (0, word);
    }
    match session(front) {
        Some(number) => (number, path),
        None => (0, word),
    }
}

/// What the words of inputs ask for, in their order. `AllocError` where a growth was refused.
pub fn asked_by<'a>(alloc: Global, words: &[&'a str]) -> Result<Vec<Asked<'a>>, AllocError>
    ensures { IfOk result (λ all. AreAsked (texts words.now) all.items) }
{
    let mut all = Vec::new(alloc);
    for word in words {
        let (session, path) = split_word(word);
        all.push(Asked { session, path })?;
    }
    Ok(all)
}
