//! The splitting of a text into lines, and of a line into words.

ghost use Rattle.std.specs.Prelude.{◌≡◌, ◌∷◌, [], ◌<◌, length, MatchOption, Some, IfOk, IfSome, not, nat_eq};
ghost use Rattle.std.specs.Str.{IsUtf8};
ghost use Rattle.std.specs.List.{prefix_len};
ghost use Rattle.play_script.specs.Pieces.{pieces, texts};

use flow_labels::NoMemory;
use std::alloc::Global;

/// The text before the first line feed, and what follows it.
pub fn cut_line(text: &[u8]) -> Option<(&[u8], &[u8])>
    ensures { MatchOption result (pieces 10 text.now ≡ text.now ∷ []) (λ p. (pieces 10 text.now ≡ p.0.now ∷ pieces 10 p.1.now) × (length p.1.now < length text.now)) }
{
    let end = line_len(text);
    if end < text.len() {
        Some((&text[..end], &text[end + 1..]))
    } else {
        None
    }
}

fn line_len(text: &[u8]) -> usize
    ensures { result ≡ prefix_len (λ b. not (nat_eq b 10)) text.now }
{
    text.iter().take_while(|b| **b != b'\n').count()
}

/// The text before the first space, and what follows it.
fn cut_word(text: &str) -> Option<(&str, &str)>
    ensures utf8 { IfSome result (λ p. IsUtf8 p.1.now) }
    ensures cut { MatchOption result (pieces 32 text.now ≡ text.now ∷ []) (λ p. (pieces 32 text.now ≡ p.0.now ∷ pieces 32 p.1.now) × (length p.1.now < length text.now)) }
{
    text.split_once(' ')
}

/// The words of a line.
pub fn words_of<'a>(alloc: Global, line: &'a str) -> Result<Vec<&'a str>, NoMemory>
    ensures { IfOk result (λ v. texts v.items ≡ pieces 32 line.now) }
{
    let mut words = Vec::new(alloc);
    let mut rest = line;
    while let Some((word, after)) = cut_word(rest) {
        words.push(word)?;
        rest = after;
    }
    words.push(rest)?;
    Ok(words)
}
