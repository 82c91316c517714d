// The hash of a schema, beside what another program gives of its canonical text.
use rx_schema::Schema;
use serde_json::Value as Json;
use std::test::Fail;

const SCHEMA: &str =
    r#"{"title":"notes","version":0,"primaryKey":"id","type":"object","required":["id"],"properties":{"n":{"type":"integer"},"id":{"maxLength":20,"type":"string"}}}"#;

const CANONICAL: &str =
    r#"{"indexes":[],"primaryKey":"id","properties":{"id":{"maxLength":20,"type":"string"},"n":{"type":"integer"}},"required":["id"],"type":"object","version":0}"#;

// What sha256sum prints of the canonical text.
const HASH: &str = "d3965597d0b8e1c41da9b2dc759684814b6376a695e3324ffc338dfea45c31a5";

#[test]
fn a_schema_has_the_hash_of_its_canonical_text(rt: HostRuntime) -> Result<(), Fail> {
    let json = Json::from_str(rt.alloc(), SCHEMA)?;
    let schema = Schema::read(rt.alloc(), &json)?;
    let (canonical, hash) = (schema.canonical().as_str(), schema.hash().as_str());
    if canonical == CANONICAL && hash == HASH {
        return Ok(());
    }
    Err(Fail::new(format_args!("{hash} of {canonical}")))
}
