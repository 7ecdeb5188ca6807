//! Documents that are broken in their version or their tags.

use decimal_text::push_number;
use std::alloc::Global;
use std::mem::forget;
use std::process::Abort;
use std::test::Fail;
use world_doc::{WorldBreak, WorldFault, start};
use written_code::{Written, code_of};

/// A code without a function: tags are looked at before threads.
const NO_CODE: Written<'static> = Written {
    units: &[],
    constants: &[],
    classes: &[],
};

/// Compares how a document is broken.
pub fn breaks<R: Abort + AllocGlobal>(rt: &R, document: &str, line: &str) -> Result<(), Fail> {
    let text = break_of(rt.alloc(), document)?;
    assert_eq!(rt; text.as_str(), line);
    Ok(())
}

/// How a document is broken, as a line.
fn break_of(alloc: Global, document: &str) -> Result<String, Fail> {
    let code = code_of(alloc, NO_CODE)?;
    match start(alloc, document.as_bytes(), &code) {
        Ok(world) => {
            forget(world);
            Err(Fail::new("a world"))
        }
        Err(WorldFault::Broken(breach)) => line_of(alloc, &breach),
        Err(WorldFault::NoMemory) => Err(Fail::new("no memory")),
    }
}

fn line_of(alloc: Global, breach: &WorldBreak) -> Result<String, Fail> {
    let mut line = String::new(alloc);
    match breach {
        WorldBreak::NotJson => line.push_str("NotJson")?,
        WorldBreak::NoMember(name) => push_named(&mut line, "NoMember ", name.as_str())?,
        WorldBreak::BadMember(name) => push_named(&mut line, "BadMember ", name.as_str())?,
        WorldBreak::NoTag(name) => push_named(&mut line, "NoTag ", name.as_str())?,
        WorldBreak::BadPath(index) => push_numbered(&mut line, "BadPath ", *index)?,
        WorldBreak::PathTwice(index) => push_numbered(&mut line, "PathTwice ", *index)?,
    }
    Ok(line)
}

fn push_named(line: &mut String, word: &str, name: &str) -> Result<(), Fail> {
    line.push_str(word)?;
    Ok(line.push_str(name)?)
}

fn push_numbered(line: &mut String, word: &str, number: u64) -> Result<(), Fail> {
    line.push_str(word)?;
    Ok(push_number(line, number)?)
}

/// There are three versions.
#[test]
fn version_4_is_none(rt: HostRuntime) -> Result<(), Fail> {
    breaks(
        &rt,
        "{\"version\":4,\"tags\":[{\"name\":\"a\",\"kind\":\"read\"}]}",
        "BadMember version",
    )
}

/// In version 1 a tag is its name.
#[test]
fn version_1_has_no_kinds(rt: HostRuntime) -> Result<(), Fail> {
    breaks(
        &rt,
        "{\"version\":1,\"tags\":[{\"name\":\"a\",\"kind\":\"read\"}]}",
        "BadMember tags",
    )
}

/// In version 2 it is an object.
#[test]
fn name_alone_is_no_tag_of_version_2(rt: HostRuntime) -> Result<(), Fail> {
    breaks(&rt, "{\"version\":2,\"tags\":[\"a\"]}", "BadMember tags")
}

#[test]
fn tag_without_kind(rt: HostRuntime) -> Result<(), Fail> {
    breaks(
        &rt,
        "{\"version\":2,\"tags\":[{\"name\":\"a\"}]}",
        "NoMember kind",
    )
}

#[test]
fn kind_of_another_form(rt: HostRuntime) -> Result<(), Fail> {
    breaks(
        &rt,
        "{\"version\":2,\"tags\":[{\"name\":\"a\",\"kind\":1}]}",
        "BadMember kind",
    )
}

#[test]
fn kind_of_another_word(rt: HostRuntime) -> Result<(), Fail> {
    breaks(
        &rt,
        "{\"version\":2,\"tags\":[{\"name\":\"a\",\"kind\":\"write\"}]}",
        "BadMember kind",
    )
}

/// The name is looked at before the kind.
#[test]
fn tag_without_name(rt: HostRuntime) -> Result<(), Fail> {
    breaks(
        &rt,
        "{\"version\":2,\"tags\":[{\"kind\":\"write\"}]}",
        "NoMember name",
    )
}

#[test]
fn name_of_another_form(rt: HostRuntime) -> Result<(), Fail> {
    breaks(
        &rt,
        "{\"version\":2,\"tags\":[{\"name\":\"1\",\"kind\":\"write\"}]}",
        "BadMember name",
    )
}

/// A name that comes again is a break of the list, and comes before its kind.
#[test]
fn name_comes_again(rt: HostRuntime) -> Result<(), Fail> {
    breaks(
        &rt,
        "{\"version\":2,\"tags\":[{\"name\":\"a\",\"kind\":\"read\"},{\"name\":\"a\",\"kind\":\"write\"}]}",
        "BadMember tags",
    )
}

/// Tags of each kind are well, and what is broken comes after them.
#[test]
fn tree_comes_after_tags(rt: HostRuntime) -> Result<(), Fail> {
    breaks(
        &rt,
        "{\"version\":2,\"tags\":[{\"name\":\"a\",\"kind\":\"read\"},{\"name\":\"b\",\"kind\":\"export\"},{\"name\":\"c\",\"kind\":\"integrity\"}]}",
        "NoMember tree",
    )
}
