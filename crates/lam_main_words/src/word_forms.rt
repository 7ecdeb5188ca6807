//! Forms of words: what each word of a form may be, and in which form words are.

ghost use Rattle.std.specs.Prelude.{◌≡◌, ◌≤◌, ℕ, List, IfSome, Some, length, map, find, is_none, string_bytes};
ghost use Rattle.flow_labels.specs.Reading.{bad_place, first_end};
ghost use Rattle.flow_labels.specs.declared.two_lists.Form.TheVariants.{Label as label_form};
ghost use Rattle.lam_main_words.specs.Forms.{literal_text, in_range, number_in, has_no_integrity, word, number, fits, agreed, is_in, longest, form_in};
ghost use Rattle.lam_main_words.specs.declared.word_forms.Kind.{Kind};

use decimal_text::{NumberFault, read_number};
use flow_labels::{Form as TwoLists, bad_place};

/// A word that stands in a form as it is: the name of a command or of an option.
#[derive(Clone, Copy)]
pub enum Literal {
    Play,
    Check,
    Format,
    Code,
    Replay,
    Run,
    Audit,
    Make,
    Help,
    Next,
    Pair,
    Walk,
    /// The option `--workers`.
    Workers,
    /// The option `--turns`.
    Turns,
    /// The option `--base`.
    Base,
}

impl Literal {
    fn text(self) -> &'static str
        ensures { result.now ≡ literal_text self }
    {
        match self {
            Literal::Play => "play",
            Literal::Check => "check",
            Literal::Format => "format",
            Literal::Code => "code",
            Literal::Replay => "replay",
            Literal::Run => "run",
            Literal::Audit => "audit",
            Literal::Make => "make",
            Literal::Help => "help",
            Literal::Next => "next",
            Literal::Pair => "pair",
            Literal::Walk => "walk",
            Literal::Workers => "--workers",
            Literal::Turns => "--turns",
            Literal::Base => "--base",
        }
    }
}

/// What a word of a form may be.
#[derive(Clone, Copy)]
pub enum Kind {
    /// This word.
    Literal(Literal),
    /// The name of a file: any word that is not empty.
    File,
    /// A text that has the form of a label.
    Observer,
    /// A text that has the form of a label without integrity.
    Base,
    /// A number in decimal without leading zeros, from the first to the second.
    Number(u64, u64),
}

/// A form of words.
pub trait WordForm: Copy {
    ghost kinds: { Self → List Kind };

    /// What each of its words may be.
    fn kinds(self) -> &'static [Kind]
        ensures { result.now ≡ kinds self };
}

/// The first form of a table that words are in, tested before any memory is taken.
///
/// # Errors
///
/// The least index, from 0, of a word at which they agree with no form, or their number where they only stop short of one.
pub fn form_of<F: WordForm>(forms: &[F], words: &[String]) -> Result<F, u64>
    ensures { result ≡ form_in F.kinds forms.now (map string_bytes words.now) }
{
    match first_in(forms, words) {
        Some(form) => Ok(form),
        None => Err(longest(forms, words)),
    }
}

fn first_in<F: WordForm>(forms: &[F], words: &[String]) -> Option<F>
    ensures { result ≡ find (λ form. is_in (map string_bytes words.now) (F.kinds form)) forms.now }
{
    forms
        .iter()
        .copied()
        .find(|form| is_in(form.kinds(), words))
}

/// The greatest number of first words with which some form agrees.
fn longest<F: WordForm>(forms: &[F], words: &[String]) -> u64
    ensures { result ≡ longest F.kinds forms.now (map string_bytes words.now) }
{
    let most = forms.iter().fold(0, |most: usize, form| most.max(agreed(form.kinds(), words)));
    most as u64
}

fn is_in(kinds: &[Kind], words: &[String]) -> bool
    ensures { result ≡ is_in (map string_bytes words.now) kinds.now }
{
    agreed(kinds, words) == kinds.len() && words.len() == kinds.len()
}

/// With how many first words the words of a form agree.
fn agreed(kinds: &[Kind], words: &[String]) -> usize
    ensures value { result ≡ agreed kinds.now (map string_bytes words.now) }
    ensures bound { result ≤ length kinds.now }
{
    let Some((kind, kinds_left)) = kinds.split_first() else {
        return 0;
    };
    let Some((word, words_left)) = words.split_first() else {
        return 0;
    };
    if fits(*kind, word.as_str()) {
        1 + agreed(kinds_left, words_left)
    } else {
        0
    }
}

fn fits(kind: Kind, word: &str) -> bool
    ensures { result ≡ fits kind word.now }
{
    match kind {
        Kind::Literal(literal) => word == literal.text(),
        Kind::File => !word.is_empty(),
        Kind::Observer => is_label(word),
        Kind::Base => is_label(word) && has_no_integrity(word.as_bytes()),
        Kind::Number(least, most) => number_in(least, most, word).is_some(),
    }
}

/// Whether a text has the form of a label.
fn is_label(word: &str) -> bool
    ensures { result ≡ is_none (bad_place label_form word.now) }
{
    bad_place(TwoLists::Label, word.as_bytes()).is_none()
}

/// Whether the second list of a label's text is empty: the text ends behind its first list with it.
fn has_no_integrity(text: &[u8]) -> bool
    ensures { result ≡ has_no_integrity text.now }
{
    let rest = &text[first_end(text)..];
    *rest == *b"}/{}".as_slice()
}

/// Where the first list of a label's text ends.
fn first_end(text: &[u8]) -> usize
    ensures value { result ≡ first_end text.now }
    ensures within { result ≤ length text.now }
{
    text.iter().take_while(|b| **b != b'}').count()
}

/// The number that a word writes in decimal without leading zeros, where it is from the least to the most.
fn number_in(least: u64, most: u64, word: &str) -> Option<u64>
    ensures value { result ≡ number_in least most word.now }
    ensures within { IfSome result (λ n. (least ≤ n) × (n ≤ most)) }
{
    match read_number(word.as_bytes()) {
        Ok(number) => in_range(least, most, number),
        Err(NumberFault::NoNumber) => None,
        Err(NumberFault::TooLarge) => None,
    }
}

fn in_range(least: u64, most: u64, number: u64) -> Option<u64>
    ensures value { result ≡ in_range least most (Some number) }
    ensures within { IfSome result (λ n. (least ≤ n) × (n ≤ most)) }
{
    if least <= number && number <= most {
        Some(number)
    } else {
        None
    }
}

/// A word by its index, or the empty text.
pub fn word_at(words: &[String], index: usize) -> &str
    ensures { result.now ≡ word (map string_bytes words.now) index }
{
    match words.get(index) {
        Some(word) => word.as_str(),
        None => "",
    }
}

/// The number of a word, which in the words of a form is from the least to the most.
pub fn number_at(words: &[String], index: usize, least: u64, most: u64) -> u64
    ensures value { result ≡ number (map string_bytes words.now) index least most }
    ensures no_less { least ≤ result }
    ensures no_more { least ≤ most → result ≤ most }
{
    number_in(least, most, word_at(words, index)).unwrap_or(least)
}
