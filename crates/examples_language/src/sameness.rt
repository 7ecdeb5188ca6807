//! Programs that are the same but for positions.

use crate::trees::function;
use lam_sameness::same_tree;
use std::test::Fail;

#[test]
fn positions_do_not_count(rt: HostRuntime) -> Result<(), Fail> {
    let program = function(rt.alloc(), 0, "x")?;
    assert!(rt; same_tree(&program, &function(rt.alloc(), 7, "x")?));
    assert!(rt; !same_tree(&program, &function(rt.alloc(), 0, "y")?));
    Ok(())
}
