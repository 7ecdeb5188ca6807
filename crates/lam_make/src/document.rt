//! The world document of a made input.

ghost use Rattle.std.specs.Prelude.{◌≡◌, ◌≤◌, ◌++◌, [], codes, nat_eq, if◌then◌else◌, OnOk, string_bytes};
ghost use Rattle.lam_make.specs.Made.{listed, nth_thread, tag_word, args_text, caps_text, thread_text, world_text, most_made_threads};

use crate::draws::{next, number_in};
use decimal_text::push_number;
use want_of_memory::NoMemory;

/// Writes the document of a world.
pub(crate) fn push_world(text: &mut String, seed: u64, threads: u64) -> Result<(), NoMemory>
    requires { threads ≤ most_made_threads }
    ensures { OnOk result (string_bytes text.new ≡ string_bytes text.old ++ world_text seed threads) }
{
    text.push_str("{\"version\":1,\"tags\":[")?;
    push_tags(text, threads)?;
    text.push_str("],\"tree\":[],\"pipes\":[],\"threads\":[")?;
    push_threads(text, seed, threads)?;
    text.push_str("]}")?;
    Ok(())
}

/// Writes the names of the tags.
fn push_tags(text: &mut String, threads: u64) -> Result<(), NoMemory>
    ensures { OnOk result (string_bytes text.new ≡ string_bytes text.old ++ listed tag_word threads) }
{
    for k in 0..threads {
        push_comma(text, k)?;
        push_tag(text, k)?;
    }
    Ok(())
}

/// Writes the threads.
fn push_threads(text: &mut String, seed: u64, threads: u64) -> Result<(), NoMemory>
    ensures { OnOk result (string_bytes text.new ≡ string_bytes text.old ++ listed (nth_thread seed) threads) }
{
    let mut state = seed;
    for k in 0..threads {
        state = next(state);
        push_comma(text, k)?;
        push_thread(text, k, number_in(state))?;
    }
    Ok(())
}

/// Writes a comma, but not before the first.
fn push_comma(text: &mut String, k: u64) -> Result<(), NoMemory>
    ensures { OnOk result (string_bytes text.new ≡ string_bytes text.old ++ (if nat_eq k 0 then [] else codes ",")) }
{
    if k > 0 {
        text.push(',')?;
    }
    Ok(())
}

/// Writes the name of a tag.
fn push_tag(text: &mut String, k: u64) -> Result<(), NoMemory>
    ensures { OnOk result (string_bytes text.new ≡ string_bytes text.old ++ tag_word k) }
{
    text.push_str("\"t")?;
    push_number(text, k)?;
    text.push('"')?;
    Ok(())
}

/// Writes a thread: what it runs, on what, and its capabilities.
fn push_thread(text: &mut String, k: u64, number: u64) -> Result<(), NoMemory>
    ensures { OnOk result (string_bytes text.new ≡ string_bytes text.old ++ thread_text k number) }
{
    text.push_str("{\"run\":\"work\",\"args\":")?;
    push_args(text, k, number)?;
    text.push_str(",\"caps\":")?;
    push_caps(text, k)?;
    text.push_str("}")?;
    Ok(())
}

/// Writes what a thread gets: its tag and its number.
fn push_args(text: &mut String, k: u64, number: u64) -> Result<(), NoMemory>
    ensures { OnOk result (string_bytes text.new ≡ string_bytes text.old ++ args_text k number) }
{
    text.push_str("[{\"tag\":")?;
    push_tag(text, k)?;
    text.push_str("},{\"int\":")?;
    push_number(text, number)?;
    text.push_str("}]")?;
    Ok(())
}

/// Writes its capabilities: it may add and drop its tag.
fn push_caps(text: &mut String, k: u64) -> Result<(), NoMemory>
    ensures { OnOk result (string_bytes text.new ≡ string_bytes text.old ++ caps_text k) }
{
    text.push_str("{\"plus\":[")?;
    push_tag(text, k)?;
    text.push_str("],\"minus\":[")?;
    push_tag(text, k)?;
    text.push_str("]}")?;
    Ok(())
}
