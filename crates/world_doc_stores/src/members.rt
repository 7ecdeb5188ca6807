//! The members of an object, in the form that they must have.

ghost use Rattle.serde_json.specs.View.{view, items_view};
ghost use Rattle.serde_json.specs.Find.{get_member, as_str, as_array, as_object};
ghost use Rattle.world_doc_terms.specs.Breaks.{present, formed, member_as};
ghost use Rattle.world_doc_stores.specs.Meaning.{Gives};
ghost use Rattle.world_doc_stores.specs.Seen.{members};

use crate::fault::{WorldFault, bad_member, no_member};
use serde_json::Value;
use std::alloc::Global;

/// A member of an object.
///
/// # Errors
///
/// `NoMember` where the object has none of that name, or the value is no object.
pub fn member<'a>(alloc: Global, object: &'a Value, name: &str) -> Result<&'a Value, WorldFault>
    ensures { Gives (λ v. view v.now) result (present name.now (get_member name.now (members (view object.now)))) }
{
    match object.get(name) {
        Some(value) => Ok(value),
        None => Err(no_member(alloc, name)),
    }
}

/// A member that is a string.
///
/// # Errors
///
/// `NoMember` where it is not there, and `BadMember` where it is no string.
pub fn str_member<'a>(alloc: Global, object: &'a Value, name: &str) -> Result<&'a str, WorldFault>
    ensures { Gives (λ s. s.now) result (member_as name.now as_str (members (view object.now))) }
{
    let value = member(alloc, object, name)?;
    match value.as_str() {
        Some(text) => Ok(text),
        None => Err(bad_member(alloc, name)),
    }
}

/// A member that is a list.
///
/// # Errors
///
/// `NoMember` where it is not there, and `BadMember` where it is no list.
pub fn array_member<'a>(
    alloc: Global,
    object: &'a Value,
    name: &str,
) -> Result<&'a [Value], WorldFault>
    ensures { Gives (λ vs. items_view vs.now) result (member_as name.now as_array (members (view object.now))) }
{
    let value = member(alloc, object, name)?;
    match value.as_array() {
        Some(items) => Ok(items.as_slice()),
        None => Err(bad_member(alloc, name)),
    }
}

/// A member that is an object.
///
/// # Errors
///
/// `NoMember` where it is not there, and `BadMember` where it is no object.
pub fn object_member<'a>(
    alloc: Global,
    object: &'a Value,
    name: &str,
) -> Result<&'a Value, WorldFault>
    ensures { Gives (λ v. members (view v.now)) result (member_as name.now as_object (members (view object.now))) }
{
    let value = member(alloc, object, name)?;
    if value.is_object() {
        Ok(value)
    } else {
        Err(bad_member(alloc, name))
    }
}

/// That a value is an object.
///
/// # Errors
///
/// `BadMember` with the name that is given, where it is none.
pub fn object(alloc: Global, value: &Value, name: &str) -> Result<(), WorldFault>
    ensures { Gives (λ _. members (view value.now)) result (formed name.now (as_object (view value.now))) }
{
    if value.is_object() {
        Ok(())
    } else {
        Err(bad_member(alloc, name))
    }
}
