//! Extended JSON in and out.

use bson_model::Bson;
use serde_json::Value;
use std::test::Fail;

/// An `Int64` in canonical mode (MongoDB Extended JSON v2) comes out as a plain number in relaxed mode.
#[test]
fn json_in_and_out(rt: HostRuntime) -> Result<(), Fail> {
    let alloc = rt.alloc();
    let json = Value::from_str(alloc, "{\"n\":{\"$numberLong\":\"5\"}}")?;
    let value = Bson::try_from_value(alloc, json)?;
    let relaxed = value.into_relaxed_extjson(alloc)?;
    assert_eq!(rt; relaxed.to_string(alloc)?.as_str(), "{\"n\":5}");
    Ok(())
}
