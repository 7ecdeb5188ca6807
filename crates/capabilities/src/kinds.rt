//! Kinds of tags, the policies that make a tag's capabilities public (Flume, SOSP 2007).
//!
//! A capability that everybody may use is *public*: it counts as held by all, and nobody lists it.

ghost use Rattle.std.specs.Prelude.{◌≡◌, IfOk};
ghost use Rattle.capabilities.specs.Kinds.{kind_of, public_of};

use crate::Caps;
use flow_labels::{NoMemory, TagId, TagSet};
use std::alloc::Global;

/// The policy of a tag: which of its two capabilities are public.
#[derive(Clone, Copy, Debug, PartialEq, Eq)]
pub enum TagKind {
    /// Neither: adding the tag and dropping it both take a capability that is held.
    Read,
    /// The plus: anybody may add the tag, and only a holder of its minus drops it.
    Export,
    /// The minus: anybody may drop the tag, and only a holder of its plus adds it.
    Integrity,
}

/// The kind that a word names, `read`, `export` or `integrity`.
pub fn kind_of(word: &str) -> Option<TagKind>
    ensures { result ≡ kind_of word.now }
{
    match word {
        "read" => Some(TagKind::Read),
        "export" => Some(TagKind::Export),
        "integrity" => Some(TagKind::Integrity),
        _ => None,
    }
}

/// The public capabilities where tag n is of the n-th kind, counted from 0.
///
/// # Errors
///
/// `NoMemory` where memory is refused.
pub fn public_of(alloc: Global, kinds: &[TagKind]) -> Result<Caps, NoMemory>
    ensures { IfOk result (λ c. c ≡ public_of kinds.now) }
{
    let mut plus = Vec::new(alloc);
    let mut minus = Vec::new(alloc);
    let mut tag = 0u64;
    for kind in kinds {
        match kind {
            TagKind::Read => {}
            TagKind::Export => plus.push(TagId(tag))?,
            TagKind::Integrity => minus.push(TagId(tag))?,
        }
        tag += 1;
    }
    let plus = TagSet::from_slice(alloc, plus.as_slice())?;
    let minus = TagSet::from_slice(alloc, minus.as_slice())?;
    Ok(Caps { plus, minus })
}
