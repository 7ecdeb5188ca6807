//! Documents of saved worlds that are broken in their counters or their items.
//!
//! The counters say how many files and directories each home has made. The items are those of the tree, with their
//! names.

use crate::documents::breaks;
use std::test::Fail;

/// The number of a file that its home has not given, and a path below no directory.
#[test]
fn bad_saved_worlds(rt: HostRuntime) -> Result<(), Fail> {
    breaks(
        &rt,
        "{\"version\":3,\"tags\":[{\"name\":\"a\",\"kind\":\"read\"}],\"counts\":[{\"maker\":\"{}/{}\",\"own\":\"{}/{}\",\"next\":3},{\"maker\":\"{a}/{}\",\"own\":\"{a}/{}\",\"next\":1}],\"tree\":[{\"path\":\"s\",\"label\":\"{a}/{}\",\"maker\":\"{a}/{}\",\"number\":1,\"hex\":\"30\"}],\"pipes\":[],\"threads\":[{\"run\":\"main\",\"args\":[],\"caps\":{\"plus\":[],\"minus\":[]}}]}",
        "BadMember number",
    )?;
    breaks(
        &rt,
        "{\"version\":3,\"tags\":[{\"name\":\"a\",\"kind\":\"read\"}],\"counts\":[{\"maker\":\"{}/{}\",\"own\":\"{}/{}\",\"next\":3},{\"maker\":\"{a}/{}\",\"own\":\"{a}/{}\",\"next\":1}],\"tree\":[{\"path\":\"a/b\",\"label\":\"{a}/{}\",\"maker\":\"{a}/{}\",\"number\":0,\"hex\":\"30\"}],\"pipes\":[],\"threads\":[{\"run\":\"main\",\"args\":[],\"caps\":{\"plus\":[],\"minus\":[]}}]}",
        "BadPath 0",
    )
}

#[test]
fn counts_come_before_the_tree(rt: HostRuntime) -> Result<(), Fail> {
    breaks(
        &rt,
        "{\"version\":3,\"tags\":[{\"name\":\"a\",\"kind\":\"read\"}],\"tree\":null}",
        "NoMember counts",
    )?;
    breaks(
        &rt,
        "{\"version\":3,\"tags\":[{\"name\":\"a\",\"kind\":\"read\"}],\"counts\":[],\"tree\":null}",
        "BadMember counts",
    )?;
    breaks(
        &rt,
        "{\"version\":3,\"tags\":[{\"name\":\"a\",\"kind\":\"read\"}],\"counts\":[{\"maker\":\"{}/{}\",\"own\":\"{}/{}\",\"next\":3}],\"tree\":null}",
        "BadMember tree",
    )
}

/// A home that comes again is a break before its number.
#[test]
fn a_home_is_counted_once(rt: HostRuntime) -> Result<(), Fail> {
    breaks(
        &rt,
        "{\"version\":3,\"tags\":[{\"name\":\"a\",\"kind\":\"read\"}],\"counts\":[{\"maker\":\"{}/{}\",\"own\":\"{}/{}\",\"next\":3},{\"maker\":\"{}/{}\",\"own\":\"{}/{}\",\"next\":3}],\"tree\":[],\"pipes\":[],\"threads\":[{\"run\":\"main\",\"args\":[],\"caps\":{\"plus\":[],\"minus\":[]}}]}",
        "BadMember counts",
    )?;
    breaks(
        &rt,
        "{\"version\":3,\"tags\":[{\"name\":\"a\",\"kind\":\"read\"}],\"counts\":[{\"maker\":\"{}/{}\",\"own\":\"{}/{}\",\"next\":3},{\"maker\":\"{a}/{}\",\"own\":\"{a}/{}\",\"next\":1},{\"maker\":\"{a}/{}\",\"own\":\"{a}/{}\",\"next\":null}],\"tree\":[],\"pipes\":[],\"threads\":[{\"run\":\"main\",\"args\":[],\"caps\":{\"plus\":[],\"minus\":[]}}]}",
        "BadMember counts",
    )
}

#[test]
fn the_home_of_the_root_is_counted(rt: HostRuntime) -> Result<(), Fail> {
    breaks(
        &rt,
        "{\"version\":3,\"tags\":[{\"name\":\"a\",\"kind\":\"read\"}],\"counts\":[{\"maker\":\"{a}/{}\",\"own\":\"{a}/{}\",\"next\":1}],\"tree\":[],\"pipes\":[],\"threads\":[{\"run\":\"main\",\"args\":[],\"caps\":{\"plus\":[],\"minus\":[]}}]}",
        "BadMember counts",
    )?;
    breaks(
        &rt,
        "{\"version\":3,\"tags\":[{\"name\":\"a\",\"kind\":\"read\"}],\"counts\":[{\"maker\":\"{}/{}\",\"own\":\"{a}/{}\",\"next\":1}],\"tree\":[],\"pipes\":[],\"threads\":[{\"run\":\"main\",\"args\":[],\"caps\":{\"plus\":[],\"minus\":[]}}]}",
        "BadMember counts",
    )
}

#[test]
fn counts_have_labels_and_a_number(rt: HostRuntime) -> Result<(), Fail> {
    breaks(
        &rt,
        "{\"version\":3,\"tags\":[{\"name\":\"a\",\"kind\":\"read\"}],\"counts\":[\"x\"],\"tree\":[],\"pipes\":[],\"threads\":[{\"run\":\"main\",\"args\":[],\"caps\":{\"plus\":[],\"minus\":[]}}]}",
        "BadMember counts",
    )?;
    breaks(
        &rt,
        "{\"version\":3,\"tags\":[{\"name\":\"a\",\"kind\":\"read\"}],\"counts\":[{\"own\":\"x\"}],\"tree\":[],\"pipes\":[],\"threads\":[{\"run\":\"main\",\"args\":[],\"caps\":{\"plus\":[],\"minus\":[]}}]}",
        "NoMember maker",
    )?;
    breaks(
        &rt,
        "{\"version\":3,\"tags\":[{\"name\":\"a\",\"kind\":\"read\"}],\"counts\":[{\"maker\":\"{b}/{}\"}],\"tree\":[],\"pipes\":[],\"threads\":[{\"run\":\"main\",\"args\":[],\"caps\":{\"plus\":[],\"minus\":[]}}]}",
        "NoTag b",
    )?;
    breaks(
        &rt,
        "{\"version\":3,\"tags\":[{\"name\":\"a\",\"kind\":\"read\"}],\"counts\":[{\"maker\":\"{}/{}\",\"own\":\"{}\"}],\"tree\":[],\"pipes\":[],\"threads\":[{\"run\":\"main\",\"args\":[],\"caps\":{\"plus\":[],\"minus\":[]}}]}",
        "BadMember own",
    )?;
    breaks(
        &rt,
        "{\"version\":3,\"tags\":[{\"name\":\"a\",\"kind\":\"read\"}],\"counts\":[{\"maker\":\"{}/{}\",\"own\":\"{}/{}\"}],\"tree\":[],\"pipes\":[],\"threads\":[{\"run\":\"main\",\"args\":[],\"caps\":{\"plus\":[],\"minus\":[]}}]}",
        "NoMember next",
    )?;
    breaks(
        &rt,
        "{\"version\":3,\"tags\":[{\"name\":\"a\",\"kind\":\"read\"}],\"counts\":[{\"maker\":\"{}/{}\",\"own\":\"{}/{}\",\"next\":0}],\"tree\":[],\"pipes\":[],\"threads\":[{\"run\":\"main\",\"args\":[],\"caps\":{\"plus\":[],\"minus\":[]}}]}",
        "BadMember next",
    )?;
    breaks(
        &rt,
        "{\"version\":3,\"tags\":[{\"name\":\"a\",\"kind\":\"read\"}],\"counts\":[{\"maker\":\"{}/{}\",\"own\":\"{}/{}\",\"next\":65537}],\"tree\":[],\"pipes\":[],\"threads\":[{\"run\":\"main\",\"args\":[],\"caps\":{\"plus\":[],\"minus\":[]}}]}",
        "BadMember next",
    )?;
    breaks(
        &rt,
        "{\"version\":3,\"tags\":[{\"name\":\"a\",\"kind\":\"read\"}],\"counts\":[{\"maker\":\"{}/{}\",\"own\":\"{}/{}\",\"next\":3.0}],\"tree\":[],\"pipes\":[],\"threads\":[{\"run\":\"main\",\"args\":[],\"caps\":{\"plus\":[],\"minus\":[]}}]}",
        "BadMember next",
    )
}

#[test]
fn the_root_has_number_0(rt: HostRuntime) -> Result<(), Fail> {
    breaks(
        &rt,
        "{\"version\":3,\"tags\":[{\"name\":\"a\",\"kind\":\"read\"}],\"counts\":[{\"maker\":\"{}/{}\",\"own\":\"{}/{}\",\"next\":3}],\"tree\":[{\"path\":\"s\",\"label\":\"{}/{}\",\"maker\":\"{}/{}\",\"number\":0,\"hex\":\"30\"}],\"pipes\":[],\"threads\":[{\"run\":\"main\",\"args\":[],\"caps\":{\"plus\":[],\"minus\":[]}}]}",
        "BadMember number",
    )
}

#[test]
fn a_name_stands_once(rt: HostRuntime) -> Result<(), Fail> {
    breaks(
        &rt,
        "{\"version\":3,\"tags\":[{\"name\":\"a\",\"kind\":\"read\"}],\"counts\":[{\"maker\":\"{}/{}\",\"own\":\"{}/{}\",\"next\":3},{\"maker\":\"{a}/{}\",\"own\":\"{a}/{}\",\"next\":1}],\"tree\":[{\"path\":\"s\",\"label\":\"{a}/{}\",\"maker\":\"{a}/{}\",\"number\":0,\"hex\":\"30\"},{\"path\":\"t\",\"label\":\"{a}/{}\",\"maker\":\"{a}/{}\",\"number\":0,\"hex\":\"30\"}],\"pipes\":[],\"threads\":[{\"run\":\"main\",\"args\":[],\"caps\":{\"plus\":[],\"minus\":[]}}]}",
        "BadMember number",
    )
}

#[test]
fn an_item_is_of_a_counted_home(rt: HostRuntime) -> Result<(), Fail> {
    breaks(
        &rt,
        "{\"version\":3,\"tags\":[{\"name\":\"a\",\"kind\":\"read\"}],\"counts\":[{\"maker\":\"{}/{}\",\"own\":\"{}/{}\",\"next\":3}],\"tree\":[{\"path\":\"s\",\"label\":\"{a}/{}\",\"maker\":\"{a}/{}\",\"number\":0,\"hex\":\"30\"}],\"pipes\":[],\"threads\":[{\"run\":\"main\",\"args\":[],\"caps\":{\"plus\":[],\"minus\":[]}}]}",
        "BadMember number",
    )
}

#[test]
fn labels_come_before_the_number(rt: HostRuntime) -> Result<(), Fail> {
    breaks(
        &rt,
        "{\"version\":3,\"tags\":[{\"name\":\"a\",\"kind\":\"read\"}],\"counts\":[{\"maker\":\"{}/{}\",\"own\":\"{}/{}\",\"next\":3},{\"maker\":\"{a}/{}\",\"own\":\"{a}/{}\",\"next\":1}],\"tree\":[{\"path\":\"s\",\"label\":\"{a}\",\"maker\":\"{b}/{}\",\"number\":9,\"hex\":\"30\"}],\"pipes\":[],\"threads\":[{\"run\":\"main\",\"args\":[],\"caps\":{\"plus\":[],\"minus\":[]}}]}",
        "BadMember label",
    )?;
    breaks(
        &rt,
        "{\"version\":3,\"tags\":[{\"name\":\"a\",\"kind\":\"read\"}],\"counts\":[{\"maker\":\"{}/{}\",\"own\":\"{}/{}\",\"next\":3},{\"maker\":\"{a}/{}\",\"own\":\"{a}/{}\",\"next\":1}],\"tree\":[{\"path\":\"s\",\"label\":\"{a}/{}\",\"maker\":\"{b}/{}\",\"number\":9,\"hex\":\"30\"}],\"pipes\":[],\"threads\":[{\"run\":\"main\",\"args\":[],\"caps\":{\"plus\":[],\"minus\":[]}}]}",
        "NoTag b",
    )?;
    breaks(
        &rt,
        "{\"version\":3,\"tags\":[{\"name\":\"a\",\"kind\":\"read\"}],\"counts\":[{\"maker\":\"{}/{}\",\"own\":\"{}/{}\",\"next\":3},{\"maker\":\"{a}/{}\",\"own\":\"{a}/{}\",\"next\":1}],\"tree\":[{\"path\":\"s\",\"label\":\"{a}/{}\",\"maker\":\"x\",\"number\":9,\"hex\":\"30\"}],\"pipes\":[],\"threads\":[{\"run\":\"main\",\"args\":[],\"caps\":{\"plus\":[],\"minus\":[]}}]}",
        "BadMember maker",
    )
}

#[test]
fn the_number_comes_before_the_bytes(rt: HostRuntime) -> Result<(), Fail> {
    breaks(
        &rt,
        "{\"version\":3,\"tags\":[{\"name\":\"a\",\"kind\":\"read\"}],\"counts\":[{\"maker\":\"{}/{}\",\"own\":\"{}/{}\",\"next\":3},{\"maker\":\"{a}/{}\",\"own\":\"{a}/{}\",\"next\":1}],\"tree\":[{\"path\":\"s\",\"label\":\"{a}/{}\",\"maker\":\"{a}/{}\",\"number\":9}],\"pipes\":[],\"threads\":[{\"run\":\"main\",\"args\":[],\"caps\":{\"plus\":[],\"minus\":[]}}]}",
        "BadMember number",
    )?;
    breaks(
        &rt,
        "{\"version\":3,\"tags\":[{\"name\":\"a\",\"kind\":\"read\"}],\"counts\":[{\"maker\":\"{}/{}\",\"own\":\"{}/{}\",\"next\":3},{\"maker\":\"{a}/{}\",\"own\":\"{a}/{}\",\"next\":1}],\"tree\":[{\"path\":\"s\",\"label\":\"{a}/{}\",\"maker\":\"{a}/{}\",\"number\":\"0\"}],\"pipes\":[],\"threads\":[{\"run\":\"main\",\"args\":[],\"caps\":{\"plus\":[],\"minus\":[]}}]}",
        "BadMember number",
    )
}

#[test]
fn a_file_has_digits_and_a_directory_none(rt: HostRuntime) -> Result<(), Fail> {
    breaks(
        &rt,
        "{\"version\":3,\"tags\":[{\"name\":\"a\",\"kind\":\"read\"}],\"counts\":[{\"maker\":\"{}/{}\",\"own\":\"{}/{}\",\"next\":3},{\"maker\":\"{a}/{}\",\"own\":\"{a}/{}\",\"next\":1}],\"tree\":[{\"path\":\"s\",\"label\":\"{a}/{}\",\"maker\":\"{a}/{}\",\"number\":0}],\"pipes\":[],\"threads\":[{\"run\":\"main\",\"args\":[],\"caps\":{\"plus\":[],\"minus\":[]}}]}",
        "NoMember hex",
    )?;
    breaks(
        &rt,
        "{\"version\":3,\"tags\":[{\"name\":\"a\",\"kind\":\"read\"}],\"counts\":[{\"maker\":\"{}/{}\",\"own\":\"{}/{}\",\"next\":3},{\"maker\":\"{a}/{}\",\"own\":\"{a}/{}\",\"next\":1}],\"tree\":[{\"path\":\"s\",\"label\":\"{a}/{}\",\"maker\":\"{a}/{}\",\"number\":0,\"text\":\"0\"}],\"pipes\":[],\"threads\":[{\"run\":\"main\",\"args\":[],\"caps\":{\"plus\":[],\"minus\":[]}}]}",
        "NoMember hex",
    )?;
    breaks(
        &rt,
        "{\"version\":3,\"tags\":[{\"name\":\"a\",\"kind\":\"read\"}],\"counts\":[{\"maker\":\"{}/{}\",\"own\":\"{}/{}\",\"next\":3},{\"maker\":\"{a}/{}\",\"own\":\"{a}/{}\",\"next\":1}],\"tree\":[{\"path\":\"s\",\"label\":\"{a}/{}\",\"maker\":\"{a}/{}\",\"number\":0,\"dir\":true,\"hex\":\"30\"}],\"pipes\":[],\"threads\":[{\"run\":\"main\",\"args\":[],\"caps\":{\"plus\":[],\"minus\":[]}}]}",
        "BadMember dir",
    )?;
    breaks(
        &rt,
        "{\"version\":3,\"tags\":[{\"name\":\"a\",\"kind\":\"read\"}],\"counts\":[{\"maker\":\"{}/{}\",\"own\":\"{}/{}\",\"next\":3},{\"maker\":\"{a}/{}\",\"own\":\"{a}/{}\",\"next\":1}],\"tree\":[{\"path\":\"s\",\"label\":\"{a}/{}\",\"maker\":\"{a}/{}\",\"number\":0,\"dir\":false}],\"pipes\":[],\"threads\":[{\"run\":\"main\",\"args\":[],\"caps\":{\"plus\":[],\"minus\":[]}}]}",
        "BadMember dir",
    )
}

#[test]
fn digits_are_an_even_number_without_capitals(rt: HostRuntime) -> Result<(), Fail> {
    breaks(
        &rt,
        "{\"version\":3,\"tags\":[{\"name\":\"a\",\"kind\":\"read\"}],\"counts\":[{\"maker\":\"{}/{}\",\"own\":\"{}/{}\",\"next\":3},{\"maker\":\"{a}/{}\",\"own\":\"{a}/{}\",\"next\":1}],\"tree\":[{\"path\":\"s\",\"label\":\"{a}/{}\",\"maker\":\"{a}/{}\",\"number\":0,\"hex\":\"3\"}],\"pipes\":[],\"threads\":[{\"run\":\"main\",\"args\":[],\"caps\":{\"plus\":[],\"minus\":[]}}]}",
        "BadMember hex",
    )?;
    breaks(
        &rt,
        "{\"version\":3,\"tags\":[{\"name\":\"a\",\"kind\":\"read\"}],\"counts\":[{\"maker\":\"{}/{}\",\"own\":\"{}/{}\",\"next\":3},{\"maker\":\"{a}/{}\",\"own\":\"{a}/{}\",\"next\":1}],\"tree\":[{\"path\":\"s\",\"label\":\"{a}/{}\",\"maker\":\"{a}/{}\",\"number\":0,\"hex\":\"3g\"}],\"pipes\":[],\"threads\":[{\"run\":\"main\",\"args\":[],\"caps\":{\"plus\":[],\"minus\":[]}}]}",
        "BadMember hex",
    )?;
    breaks(
        &rt,
        "{\"version\":3,\"tags\":[{\"name\":\"a\",\"kind\":\"read\"}],\"counts\":[{\"maker\":\"{}/{}\",\"own\":\"{}/{}\",\"next\":3},{\"maker\":\"{a}/{}\",\"own\":\"{a}/{}\",\"next\":1}],\"tree\":[{\"path\":\"s\",\"label\":\"{a}/{}\",\"maker\":\"{a}/{}\",\"number\":0,\"hex\":\"0A\"}],\"pipes\":[],\"threads\":[{\"run\":\"main\",\"args\":[],\"caps\":{\"plus\":[],\"minus\":[]}}]}",
        "BadMember hex",
    )?;
    breaks(
        &rt,
        "{\"version\":3,\"tags\":[{\"name\":\"a\",\"kind\":\"read\"}],\"counts\":[{\"maker\":\"{}/{}\",\"own\":\"{}/{}\",\"next\":3},{\"maker\":\"{a}/{}\",\"own\":\"{a}/{}\",\"next\":1}],\"tree\":[{\"path\":\"s\",\"label\":\"{a}/{}\",\"maker\":\"{a}/{}\",\"number\":0,\"hex\":30}],\"pipes\":[],\"threads\":[{\"run\":\"main\",\"args\":[],\"caps\":{\"plus\":[],\"minus\":[]}}]}",
        "BadMember hex",
    )
}

/// All of these stand well, and what is broken comes after them: there is no function.
#[test]
fn saved_files_stand_before_the_threads(rt: HostRuntime) -> Result<(), Fail> {
    breaks(
        &rt,
        "{\"version\":3,\"tags\":[{\"name\":\"a\",\"kind\":\"read\"}],\"counts\":[{\"maker\":\"{}/{}\",\"own\":\"{}/{}\",\"next\":3},{\"maker\":\"{a}/{}\",\"own\":\"{a}/{}\",\"next\":1}],\"tree\":[{\"path\":\"s\",\"label\":\"{a}/{}\",\"maker\":\"{a}/{}\",\"number\":0,\"hex\":\"30\"}],\"pipes\":[],\"threads\":[{\"run\":\"main\",\"args\":[],\"caps\":{\"plus\":[],\"minus\":[]}}]}",
        "BadMember run",
    )?;
    breaks(
        &rt,
        "{\"version\":3,\"tags\":[{\"name\":\"a\",\"kind\":\"read\"}],\"counts\":[{\"maker\":\"{}/{}\",\"own\":\"{}/{}\",\"next\":3},{\"maker\":\"{a}/{}\",\"own\":\"{a}/{}\",\"next\":1}],\"tree\":[{\"path\":\"d\",\"label\":\"{}/{}\",\"maker\":\"{}/{}\",\"number\":2,\"dir\":true},{\"path\":\"d/f\",\"label\":\"{}/{}\",\"maker\":\"{}/{}\",\"number\":1,\"hex\":\"\"},{\"path\":\"d/s\",\"label\":\"{a}/{}\",\"maker\":\"{a}/{}\",\"number\":0,\"hex\":\"00ff9c\"}],\"pipes\":[],\"threads\":[{\"run\":\"main\",\"args\":[],\"caps\":{\"plus\":[],\"minus\":[]}}]}",
        "BadMember run",
    )
}
