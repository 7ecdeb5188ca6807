//! The arguments of a thread.

ghost use Rattle.std.specs.Prelude.{◌≡◌, List, length};
ghost use Rattle.serde_json.specs.View.{view, items_view};
ghost use Rattle.serde_json.specs.Find.{get_member};
ghost use Rattle.flow_labels.specs.TwoLists.{Text};
ghost use Rattle.lam_value.specs.declared.names.Name.{Name};
ghost use Rattle.lam_value.specs.declared.values.Value.{Value};
ghost use Rattle.world_doc_terms.specs.Breaks.{Reading};
ghost use Rattle.world_doc_terms.specs.Entries.{int_of, bool_of, text_of, tag_value, pipe_of, if_there, contents, argument, fits, arguments, args_in};
ghost use Rattle.world_doc_stores.specs.Meaning.{Gives};
ghost use Rattle.world_doc_stores.specs.Seen.{members};
ghost use Rattle.world_doc.specs.Called.{called_of};
ghost use Rattle.world_doc.specs.Found.{read_as, one_more, IsFound, argument_of};

use crate::pipes::{PipeNames, find_pipe};
use flow_labels::TagNames;
use lam_bytecode::ArgKind;
use lam_value::{BYTES_LIMIT, ByteText, Value, Values};
use serde_json::Value as Json;
use std::alloc::Global;
use world_doc_stores::{WorldFault, array_member, bad_member, object, read_tag};

// The kinds of contents that an argument may have.
#[derive(Clone, Copy)]
enum ContentKind {
    Int,
    Bool,
    Text,
    Tag,
    Pipe,
}

// The contents of an argument: none, one, or more.
#[derive(Clone, Copy)]
enum Contents<'a> {
    Nothing,
    One(ContentKind, &'a Json),
    More,
}

// One content more.
fn one_more<'a>(kind: ContentKind, content: &'a Json, rest: Contents<'a>) -> Contents<'a>
    ensures { result ≡ one_more kind content.entry rest.entry }
{
    match rest {
        Contents::Nothing => Contents::One(kind, content),
        _ => Contents::More,
    }
}

// A content, where it is there, beside those that were found.
fn find<'a>(argument: &'a Json, name: &str, kind: ContentKind, rest: Contents<'a>) -> Contents<'a>
    ensures { (names : List Text) (called : List (Text × Name)) (rs : List (Reading Value)) → IsFound names called rest.entry rs → IsFound names called result (if_there (read_as names called kind) (get_member name.now (members (view argument.now))) rs) }
{
    match argument.get(name) {
        None => rest,
        Some(content) => one_more(kind, content, rest),
    }
}

fn find_contents(argument: &Json) -> Contents<'_>
    ensures { (names : List Text) (called : List (Text × Name)) → IsFound names called result (contents names called (members (view argument.now))) }
{
    let pipe = find(argument, "pipe", ContentKind::Pipe, Contents::Nothing);
    let tag = find(argument, "tag", ContentKind::Tag, pipe);
    let text = find(argument, "text", ContentKind::Text, tag);
    let flag = find(argument, "bool", ContentKind::Bool, text);
    find(argument, "int", ContentKind::Int, flag)
}

fn int_of(alloc: Global, content: &Json) -> Result<Value, WorldFault>
    ensures { Gives (λ v. v) result (int_of (view content.now)) }
{
    match content.as_i64() {
        Some(n) => Ok(Value::Int(n)),
        None => Err(bad_member(alloc, "int")),
    }
}

fn bool_of(alloc: Global, content: &Json) -> Result<Value, WorldFault>
    ensures { Gives (λ v. v) result (bool_of (view content.now)) }
{
    match content.as_bool() {
        Some(b) => Ok(Value::Bool(b)),
        None => Err(bad_member(alloc, "bool")),
    }
}

fn text_of(alloc: Global, content: &Json) -> Result<Value, WorldFault>
    ensures { Gives (λ v. v) result (text_of (view content.now)) }
{
    match content.as_str() {
        Some(text) if text.len() <= BYTES_LIMIT => {
            Ok(Value::Bytes(ByteText::from_slice(alloc, text.as_bytes())?))
        }
        _ => Err(bad_member(alloc, "text")),
    }
}

fn tag_value(alloc: Global, names: &TagNames, content: &Json) -> Result<Value, WorldFault>
    ensures { Gives (λ v. v) result (tag_value names.now (view content.now)) }
{
    let tag = read_tag(alloc, "tag", content, names)?;
    Ok(Value::Tag(tag))
}

fn pipe_of(alloc: Global, called: &PipeNames, content: &Json) -> Result<Value, WorldFault>
    ensures { Gives (λ v. v) result (pipe_of (called_of called.now.entries) (view content.now)) }
{
    let Some(name) = content.as_str() else {
        return Err(bad_member(alloc, "pipe"));
    };
    match find_pipe(called, name) {
        Some(pipe) => Ok(Value::Pipe(pipe.copy()?)),
        None => Err(bad_member(alloc, "pipe")),
    }
}

fn read_content(
    alloc: Global,
    names: &TagNames,
    called: &PipeNames,
    kind: ContentKind,
    content: &Json,
) -> Result<Value, WorldFault>
    ensures { Gives (λ v. v) result (read_as names.now (called_of called.now.entries) kind (view content.now)) }
{
    match kind {
        ContentKind::Int => int_of(alloc, content),
        ContentKind::Bool => bool_of(alloc, content),
        ContentKind::Text => text_of(alloc, content),
        ContentKind::Tag => tag_value(alloc, names, content),
        ContentKind::Pipe => pipe_of(alloc, called, content),
    }
}

fn argument(
    alloc: Global,
    names: &TagNames,
    called: &PipeNames,
    object: &Json,
) -> Result<Value, WorldFault>
    ensures { Gives (λ v. v) result (argument names.now (called_of called.now.entries) (members (view object.now))) }
{
    match find_contents(object) {
        Contents::One(kind, content) => read_content(alloc, names, called, kind, content),
        _ => Err(bad_member(alloc, "args")),
    }
}

// Whether a value is of a parameter's kind.
fn fits(kind: ArgKind, value: &Value) -> bool
    ensures { result ≡ fits kind value.now }
{
    match kind {
        ArgKind::Int => matches!(value, Value::Int(_)),
        ArgKind::Bool => matches!(value, Value::Bool(_)),
        ArgKind::Bytes => matches!(value, Value::Bytes(_)),
        ArgKind::Tag => matches!(value, Value::Tag(_)),
        ArgKind::Pipe => matches!(value, Value::Pipe(_)),
        ArgKind::Other => false,
    }
}

// The argument of a parameter.
fn fitting(
    alloc: Global,
    names: &TagNames,
    called: &PipeNames,
    kind: ArgKind,
    item: &Json,
) -> Result<Value, WorldFault>
    ensures { Gives (λ v. v) result (argument_of names.now (called_of called.now.entries) kind (view item.now)) }
{
    object(alloc, item, "args")?;
    let value = argument(alloc, names, called, item)?;
    if fits(kind, &value) {
        Ok(value)
    } else {
        Err(bad_member(alloc, "args"))
    }
}

fn arguments(
    alloc: Global,
    names: &TagNames,
    called: &PipeNames,
    takes: &[ArgKind],
    items: &[Json],
) -> Result<Values, WorldFault>
    requires { length takes.now ≡ length items.now }
    ensures { Gives (λ vs. vs) result (arguments names.now (called_of called.now.entries) takes.now (items_view items.now)) }
{
    let mut values = Values::new(alloc);
    for (at, kind) in takes.iter().enumerate() {
        let value = fitting(alloc, names, called, *kind, &items[at])?;
        values.push(value)?;
    }
    Ok(values)
}

/// The arguments of the member `args` of a thread: as many as the parameters, and each of its parameter's kind.
///
/// # Errors
///
/// `NoMember` where it is not there, and `BadMember` where it is no list of so many objects, or where one has not exactly
/// one content of its parameter's kind; with the content's own name where the content is of another form than it must
/// be. `NoTag` with a name that is no tag's.
pub fn read_args(
    alloc: Global,
    thread: &Json,
    names: &TagNames,
    called: &PipeNames,
    takes: &[ArgKind],
) -> Result<Values, WorldFault>
    ensures { Gives (λ vs. vs) result (args_in names.now (called_of called.now.entries) takes.now (members (view thread.now))) }
{
    let items = array_member(alloc, thread, "args")?;
    if items.len() != takes.len() {
        return Err(bad_member(alloc, "args"));
    }
    arguments(alloc, names, called, takes, items)
}
