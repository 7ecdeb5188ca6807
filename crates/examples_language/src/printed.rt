//! Trees that are printed.

use crate::trees::function;
use lam_print::print;
use lam_syntax::Program;
use std::test::Fail;

#[test]
fn canonical_text(rt: HostRuntime) -> Result<(), Fail> {
    let text = print(&function(rt.alloc(), 0, "x")?)?;
    assert_eq!(rt;
        text.as_str(),
        "fn f(x: int): int {\n  return (x + 1) * 2;\n}\n"
    );
    Ok(())
}

#[test]
fn empty_program_prints_nothing(rt: HostRuntime) -> Result<(), Fail> {
    let text = print(&Program {
        items: Vec::new(rt.alloc()),
    })?;
    assert_eq!(rt; text.as_str(), "");
    Ok(())
}
