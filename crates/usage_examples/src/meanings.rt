//! Documents that mean the same, and bytes that are no document.

use bson_meaning::{gate, meaning_key};
use bson_model::{Bson, Document};
use std::alloc::{AllocError, Global};
use std::test::Fail;

/// `{a: 1, b: 2}`, or with the keys in the other order.
fn numbers(alloc: Global, first: &str, second: &str) -> Result<Document, AllocError> {
    let mut document = Document::new(alloc);
    for key in [first, second] {
        let number = if key == "a" { 1 } else { 2 };
        document.put(String::from_str(alloc, key)?, Bson::Int32(number))?;
    }
    Ok(document)
}

/// The meaning key of these numbers.
fn key_of(alloc: Global, first: &str, second: &str) -> Result<Vec<u8>, Fail> {
    let document = numbers(alloc, first, second)?;
    Ok(meaning_key(alloc, &document)?)
}

/// Two documents that differ only in the order of their keys have the same meaning key.
#[test]
fn the_order_of_keys_has_no_meaning(rt: HostRuntime) -> Result<(), Fail> {
    let alloc = rt.alloc();
    let one = key_of(alloc, "a", "b")?;
    let other = key_of(alloc, "b", "a")?;
    assert_eq!(rt; one.as_slice(), other.as_slice());
    Ok(())
}

/// The empty document's five bytes pass, and five bytes that don't end in 00 are no document.
#[test]
fn a_gate_for_bytes(rt: HostRuntime) {
    let answers = (
        gate(&[5, 0, 0, 0, 0]).is_ok(),
        gate(&[5, 0, 0, 0, 1]).is_ok(),
    );
    assert_eq!(rt; answers, (true, false));
}
