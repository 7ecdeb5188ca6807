//! The search for the first path that is no text.

ghost use Rattle.std.specs.Prelude.{◌≡◌, map, not, position};
ghost use Rattle.std.specs.Str.{is_utf8};
ghost use Rattle.world_save_terms.specs.Refusals.{bad_path};
ghost use Rattle.world_save_items.specs.Steps.{IsWalk, found};

use labelled_files::Files;
use std::str;
use world_save_items::Step;

fn is_text(bytes: &[u8]) -> bool
    ensures { result ≡ is_utf8 bytes.now }
{
    match str::from_utf8(bytes) {
        Ok(_) => true,
        Err(_) => false,
    }
}

/// The first step whose entry has a name that is no text.
fn first_bad_entry(steps: &[Step]) -> Option<u64>
    ensures { result ≡ position (λ f. not (is_utf8 f.entry)) (map found steps.now) }
{
    for at in 0..steps.len() {
        if !is_text(steps[at].entry) {
            return Some(at as u64);
        }
    }
    None
}

/// The number of the first item whose path is not UTF-8, counted from 0.
pub fn first_bad_path(files: &Files, steps: &[Step]) -> Option<u64>
    requires { IsWalk files.now steps.now }
    ensures { result ≡ bad_path files.now }
{
    files.facts();
    first_bad_entry(steps)
}
