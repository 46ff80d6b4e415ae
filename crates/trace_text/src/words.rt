ghost use Rattle.std.specs.Prelude.{◌≡◌, ◌^◌, Some, MatchOption, None};
ghost use Rattle.std.specs.Bool.{Decides};
ghost use Rattle.std.specs.Str.{IsUtf8};
ghost use Rattle.trace_text.specs.Parsing.{cut, natural, integer};

use itoa::Buffer;
use std::str;

// The bytes before and after the first of this byte.
pub fn cut(bytes: &[u8], at: u8) -> Option<(&[u8], &[u8])>
    ensures { MatchOption result (cut at bytes.now ≡ None) (λ parts. cut at bytes.now ≡ Some (parts.0.now, parts.1.now)) }
{
    for end in 0..bytes.len() {
        if bytes[end] == at {
            return Some((&bytes[..end], &bytes[end + 1..]));
        }
    }
    None
}

// The text of a word, where it is text.
fn text_of(word: &[u8]) -> Option<&str>
    ensures { MatchOption result (IsUtf8 word.now → ⊥) (λ text. text.now ≡ word.now) }
{
    str::from_utf8(word).ok()
}

// Whether a word is what was printed.
fn is_printed(word: &[u8], printed: &str) -> bool
    ensures { Decides result (word.now ≡ printed.now) }
{
    word == printed.as_bytes()
}

// The number that a word spells just as it is printed. Parsing takes more spellings, so the number is printed again.
pub fn u16_of(word: &[u8]) -> Option<u16>
    ensures { result ≡ natural (2 ^ 16) word.now }
{
    let number = match text_of(word)?.parse() {
        Ok(number) => number,
        Err(_) => return None,
    };
    if is_printed(word, Buffer::new().format(number)) {
        Some(number)
    } else {
        None
    }
}

// The same of 32 bits.
pub fn u32_of(word: &[u8]) -> Option<u32>
    ensures { result ≡ natural (2 ^ 32) word.now }
{
    let number = match text_of(word)?.parse() {
        Ok(number) => number,
        Err(_) => return None,
    };
    if is_printed(word, Buffer::new().format(number)) {
        Some(number)
    } else {
        None
    }
}

// The same of a signed number.
pub fn i16_of(word: &[u8]) -> Option<i16>
    ensures { result ≡ integer (2 ^ 15) word.now }
{
    let number = match text_of(word)?.parse() {
        Ok(number) => number,
        Err(_) => return None,
    };
    if is_printed(word, Buffer::new().format(number)) {
        Some(number)
    } else {
        None
    }
}

// The same of a signed number of 32 bits.
pub fn i32_of(word: &[u8]) -> Option<i32>
    ensures { result ≡ integer (2 ^ 31) word.now }
{
    let number = match text_of(word)?.parse() {
        Ok(number) => number,
        Err(_) => return None,
    };
    if is_printed(word, Buffer::new().format(number)) {
        Some(number)
    } else {
        None
    }
}
