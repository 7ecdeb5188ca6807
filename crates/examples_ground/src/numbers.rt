//! Numbers in decimal.

use decimal_text::{
    NumberFault, push_int, push_int_bytes, push_number, push_number_bytes, read_int, read_number,
};
use std::test::Fail;

#[test]
fn numbers_are_read(rt: HostRuntime) {
    assert_eq!(rt; read_number(b"4096"), Ok(4096));
    assert_eq!(rt; read_number(b"18446744073709551615"), Ok(u64::MAX));
    assert_eq!(rt;
        read_number(b"18446744073709551616"),
        Err(NumberFault::TooLarge)
    );
    assert_eq!(rt; read_number(b"01"), Err(NumberFault::NoNumber));
    assert_eq!(rt; read_int(b"-9223372036854775808"), Some(i64::MIN));
    assert_eq!(rt; read_int(b"9223372036854775808"), None);
}

#[test]
fn numbers_are_written(rt: HostRuntime) -> Result<(), Fail> {
    let mut text = String::new(rt.alloc());
    push_number(&mut text, 4096)?;
    push_int(&mut text, -12)?;
    assert_eq!(rt; text.as_str(), "4096-12");
    let mut bytes = Vec::new(rt.alloc());
    push_number_bytes(&mut bytes, 7)?;
    push_int_bytes(&mut bytes, i64::MIN)?;
    assert_eq!(rt; bytes.as_slice(), b"7-9223372036854775808".as_slice());
    Ok(())
}
