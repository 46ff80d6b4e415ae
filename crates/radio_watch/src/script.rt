ghost use Rattle.std.specs.Prelude.{◌≡◌, [], ◌∷◌, IfOk, MatchOption};
ghost use Rattle.radio_watch.specs.Script.{blank, words, number, of_two, of_three, reading, items};

use crate::entry::{Item, Unreadable};
use call_sheet::call::Call;
use std::alloc::{AllocError, Global};

/// Of a line of a script: it asks for no call, and is neither blank nor a comment.
#[derive(Clone, Copy, PartialEq, Eq, Debug)]
pub struct NotACommand;

// Whether a byte is a space, a tab or a carriage return.
fn is_blank(b: u8) -> bool
    ensures { result ≡ blank b }
{
    matches!(b, b' ' | b'\t' | b'\r')
}

// The first word of a text, and what follows it; none where the text has no word. It is looked for byte by byte, since
// a `split` at blanks stops at each blank of a long run.
fn first_word(text: &[u8]) -> Option<(&[u8], &[u8])>
    ensures { MatchOption result (words text.now ≡ []) (λ x. words text.now ≡ x.0.now ∷ words x.1.now) }
{
    let start = text
        .iter()
        .position(|b| !is_blank(*b))
        .unwrap_or(text.len());
    let word = &text[start..];
    if word.is_empty() {
        return None;
    }
    match word.iter().position(|b| is_blank(*b)) {
        Some(end) => Some(word.split_at(end)),
        None => Some((word, &[])),
    }
}

// The number that a word writes in decimal, where it writes one and 32 bits hold it. It is read by hand, since
// `parse` takes a sign.
fn decimal(word: &[u8]) -> Option<u32>
    ensures { result ≡ number word.now }
{
    if word.is_empty() {
        return None;
    }
    let mut n: u32 = 0;
    for b in word {
        if !b.is_ascii_digit() {
            return None;
        }
        n = n.checked_mul(10)?.checked_add(u32::from(*b - b'0'))?;
    }
    Some(n)
}

// The call that two words ask for: `heard LINE` or `overdue SECOND`.
#[tactic(auto, using(crate::proofs::Names::other_length, crate::proofs::Names::other_first))]
fn two_words(name: &[u8], argument: &[u8]) -> Result<Call, NotACommand>
    ensures { result ≡ of_two name.now argument.now }
{
    let n = decimal(argument).ok_or(NotACommand)?;
    match name {
        b"heard" => Ok(Call::Heard { line: n as usize }),
        b"overdue" => Ok(Call::Overdue { second: n }),
        _ => Err(NotACommand),
    }
}

// The call that three words ask for: `await LINE SECOND`.
#[tactic(auto, using(crate::proofs::Names::other_length))]
fn three_words(name: &[u8], line: &[u8], second: &[u8]) -> Result<Call, NotACommand>
    ensures { result ≡ of_three name.now line.now second.now }
{
    let line = decimal(line).ok_or(NotACommand)? as usize;
    let second = decimal(second).ok_or(NotACommand)?;
    match name {
        b"await" => Ok(Call::Await { line, second }),
        _ => Err(NotACommand),
    }
}

/// The call that a line of a script asks for; none where the line is blank or a comment. These two answers of
/// none stand alone: there is no none or error to pass on.
// In its caller's loop each blank of a long run would take an instruction more.
#[inline(never)]
pub fn read_line(line: &[u8]) -> Result<Option<Call>, NotACommand>
    ensures { result ≡ reading line.now }
{
    let Some((name, rest)) = first_word(line) else {
        return Ok(None);
    };
    if name.starts_with(b"#") {
        return Ok(None);
    }
    let (line, rest) = first_word(rest).ok_or(NotACommand)?;
    let Some((second, rest)) = first_word(rest) else {
        return two_words(name, line).map(Some);
    };
    match first_word(rest) {
        None => three_words(name, line, second).map(Some),
        Some(_) => Err(NotACommand),
    }
}

/// What a script asks for, line by line. A match has a line for each thing that a line may say.
pub fn read_script(heap: Global, script: &[u8]) -> Result<Vec<Item>, AllocError>
    ensures { IfOk result (λ v. v.items ≡ items script.now) }
{
    let mut found = Vec::new(heap);
    // An empty line asks for nothing, and a script may have many.
    for (index, line) in script
        .split(|b| *b == b'\n')
        .enumerate()
        .filter(|(_, line)| !line.is_empty())
    {
        match read_line(line) {
            Ok(None) => {}
            Ok(Some(call)) => found.push(Ok(call))?,
            Err(NotACommand) => found.push(Err(Unreadable { number: index + 1 }))?,
        }
    }
    Ok(found)
}

#[cfg(test)]
mod tests {
    use super::*;
    use std::test::Fail;

    #[test]
    fn reads_lines(rt: HostRuntime) {
        let (line, second) = (5, 600);
        let unknown = Err(NotACommand);
        let examples: [(&[u8], Result<Option<Call>, NotACommand>); 15] = [
            (b"", Ok(None)),
            (b" \t\r", Ok(None)),
            (b"# heard 5", Ok(None)),
            (b"await 5 600", Ok(Some(Call::Await { line, second }))),
            (b"heard 63", Ok(Some(Call::Heard { line: 63 }))),
            (b"  heard\t63  ", Ok(Some(Call::Heard { line: 63 }))),
            (b"heard 63\r", Ok(Some(Call::Heard { line: 63 }))),
            (
                b"overdue 4294967295",
                Ok(Some(Call::Overdue { second: 4294967295 })),
            ),
            (b"overdue 4294967296", unknown),
            (b"await", unknown),
            (b"await 5", unknown),
            (b"await 5 6 7", unknown),
            (b"hear 5", unknown),
            (b"await x 6", unknown),
            (b"await +5 6", unknown),
        ];
        for (line, expected) in examples {
            assert_eq!(rt; read_line(line), expected);
        }
    }

    #[test]
    fn reads_scripts(rt: HostRuntime) -> Result<(), Fail> {
        let heard = Ok(Call::Heard { line: 1 });
        let unreadable = Err(Unreadable { number: 3 });
        let examples: [(&[u8], &[Item]); 5] = [
            (b"", &[]),
            (b"\n", &[]),
            (b"heard 1", &[heard]),
            (b"heard 1\n\nheard", &[heard, unreadable]),
            (b"heard 1\n\nheard\n", &[heard, unreadable]),
        ];
        for (script, expected) in examples {
            let found = read_script(rt.alloc(), script)?;
            assert_eq!(rt; found.as_slice(), expected);
        }
        Ok(())
    }
}
