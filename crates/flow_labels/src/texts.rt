//! The text of a label, `{a,b}/{t}` (secrecy, then integrity), and the names of rules.

ghost use Rattle.std.specs.Prelude.{◌≡◌, ◌++◌, ◌↔◌, IsTrue, IfOk, OnOk, string_bytes};
ghost use Rattle.flow_labels.specs.LabelText.{IsLabelText, label_of, label_text, Gives, LabelsAreRead, TextsAreRead};
ghost use Rattle.flow_labels.specs.RuleText.{rule_text};

use crate::names::TagNames;
use crate::two_lists::{Form, TagFault, bad_place, push_sets, read_sets};
use crate::{Label, Rule};
use tag_sets::NoMemory;

/// Why a text is no label.
#[derive(Clone, Copy, Debug, PartialEq, Eq)]
pub enum LabelFault {
    /// The text has not the form of a label; `at` is the least place whose byte continues no label, or
    /// the text's length where it is only the front of one.
    BadLabel { at: u64 },
    /// The text has the form, and the first name that no tag has begins at `at`.
    NoTag { at: u64 },
    /// Memory ran out.
    NoMemory,
}

/// Whether a text has the form of a label, whatever names are known.
pub fn label_form(text: &str) -> bool
    ensures { IsTrue result ↔ IsLabelText text.now }
{
    bad_place(Form::Label, text.as_bytes()).is_none()
}

/// The label that a text spells. The names of each list may stand in any order, and a name that comes
/// again counts once. Places are counted in bytes from 0.
pub fn parse_label(text: &str, names: &TagNames) -> Result<Label, LabelFault>
    ensures { Gives result (label_of names.now text.now) }
{
    let bytes = text.as_bytes();
    if let Some(at) = bad_place(Form::Label, bytes) {
        return Err(LabelFault::BadLabel { at });
    }
    match read_sets(bytes, names) {
        Ok(sets) => Ok(Label {
            s: sets.first,
            i: sets.second,
        }),
        Err(TagFault::NoTag { at }) => Err(LabelFault::NoTag { at }),
        Err(TagFault::NoMemory) => Err(LabelFault::NoMemory),
    }
}

/// The text of a label: its tags in increasing order, each by its name, or by `#` and its number where
/// it has none.
pub fn label_text(l: &Label, names: &TagNames) -> Result<String, NoMemory>
    ensures { IfOk result (λ t. string_bytes t ≡ label_text names.now l.now) }
{
    let mut text = String::new(names.allocator());
    push_label(&mut text, l, names)?;
    Ok(text)
}

/// Writes the text of a label at the end of a text.
///
/// # Errors
///
/// `NoMemory` where memory is refused.
pub fn push_label(text: &mut String, l: &Label, names: &TagNames) -> Result<(), NoMemory>
    ensures { OnOk result (string_bytes text.new ≡ string_bytes text.old ++ label_text names.now l.now) }
{
    push_sets(text, Form::Label, &l.s, &l.i, names)
}

/// The printed name of a rule.
pub fn rule_text(rule: Rule) -> &'static str
    ensures { result.now ≡ rule_text rule }
{
    match rule {
        Rule::ReadS => "ReadS",
        Rule::ReadI => "ReadI",
        Rule::WriteS => "WriteS",
        Rule::WriteI => "WriteI",
        Rule::AddS => "AddS",
        Rule::DropS => "DropS",
        Rule::AddI => "AddI",
        Rule::DropI => "DropI",
        Rule::Caps => "Caps",
        Rule::Mint => "Mint",
        Rule::Same => "Same",
    }
}

/// A law: each text of two lists of names is read as the label of their tags, or else at the place of
/// the first name that is not known.
pub fn labels_are_read()
    ensures { LabelsAreRead }
{}

/// A law: the text of a label whose tags all have names is read as that label.
pub fn texts_are_read()
    ensures { TextsAreRead }
{}
