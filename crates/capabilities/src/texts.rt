//! The text of capabilities, `+{a}-{a,b}`: tags to add, then tags to drop.

ghost use Rattle.std.specs.Prelude.{◌≡◌, ◌++◌, ◌↔◌, IsTrue, IfOk, OnOk, string_bytes};
ghost use Rattle.capabilities.specs.CapsText.{IsCapsText, caps_of, caps_text, Gives, CapsAreRead, TextsAreRead};

use crate::Caps;
use flow_labels::{Form, NoMemory, TagFault, TagNames, bad_place, push_sets, read_sets};

/// Why a text is no text of capabilities.
#[derive(Clone, Copy, Debug, PartialEq, Eq)]
pub enum CapsFault {
    /// The text has not the form; `at` is the least place whose byte continues no text of capabilities,
    /// or the text's length where it is only the front of one.
    BadCaps { at: u64 },
    /// The text has the form, and the first name that no tag has begins at `at`.
    NoTag { at: u64 },
    /// Memory ran out.
    NoMemory,
}

/// Whether a text has the form of capabilities, whatever names are known: `+{`, names joined by `,`,
/// `}-{`, names joined by `,`, and `}`, without blanks. Each list may be empty.
pub fn caps_form(text: &str) -> bool
    ensures { IsTrue result ↔ IsCapsText text.now }
{
    bad_place(Form::Caps, text.as_bytes()).is_none()
}

/// The capabilities that a text spells. The names of each list may stand in any order, and a name that
/// comes again counts once. Places are counted in bytes from 0.
///
/// # Errors
///
/// `BadCaps` exactly where the text has not the form, else `NoTag` exactly where a name is unknown, and
/// `NoMemory` where memory is refused.
pub fn parse_caps(text: &str, names: &TagNames) -> Result<Caps, CapsFault>
    ensures { Gives result (caps_of names.now text.now) }
{
    let bytes = text.as_bytes();
    if let Some(at) = bad_place(Form::Caps, bytes) {
        return Err(CapsFault::BadCaps { at });
    }
    match read_sets(bytes, names) {
        Ok(sets) => Ok(Caps {
            plus: sets.first,
            minus: sets.second,
        }),
        Err(TagFault::NoTag { at }) => Err(CapsFault::NoTag { at }),
        Err(TagFault::NoMemory) => Err(CapsFault::NoMemory),
    }
}

/// The text of capabilities: the tags of each list in increasing order, each by its name, or by `#` and
/// its number where it has none.
///
/// # Errors
///
/// `NoMemory` where memory is refused.
pub fn caps_text(caps: &Caps, names: &TagNames) -> Result<String, NoMemory>
    ensures { IfOk result (λ t. string_bytes t ≡ caps_text names.now caps.now) }
{
    let mut text = String::new(names.allocator());
    push_caps(&mut text, caps, names)?;
    Ok(text)
}

/// Writes the text of capabilities at the end of a text.
///
/// # Errors
///
/// `NoMemory` where memory is refused.
pub fn push_caps(text: &mut String, caps: &Caps, names: &TagNames) -> Result<(), NoMemory>
    ensures { OnOk result (string_bytes text.new ≡ string_bytes text.old ++ caps_text names.now caps.now) }
{
    push_sets(text, Form::Caps, &caps.plus, &caps.minus, names)
}

/// A law: each text of two lists of names is read as the capabilities of their tags, or else at the place
/// of the first name that is not known.
pub fn caps_are_read()
    ensures { CapsAreRead }
{}

/// A law: the text of capabilities whose tags all have names is read as those capabilities.
pub fn texts_are_read()
    ensures { TextsAreRead }
{}
