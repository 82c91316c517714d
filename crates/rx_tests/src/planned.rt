// Plans by hand, by the rules: which index, between which bounds, and whether its keys have the
// rows in the query's order.
use rx_index::{Bound, Index, Indexes};
use rx_planner::{Plan, plan};
use rx_query::Query;
use rx_runs::MarkedRun;
use rx_schema::Schema;
use rx_value::{RxText, Value};
use serde_json::Value as Json;
use std::alloc::{AllocError, Global};
use std::test::Fail;

#[test]
fn a_plan_is_that_of_the_rules(rt: HostRuntime) -> Result<(), Fail> {
    let schema = tasks(rt.alloc())?;
    let keys = MarkedRun::new(rt.alloc());
    let kept = task_indexes(rt.alloc())?;
    compare_all(rt.alloc(), &schema, &Indexes::new(&keys, kept.as_slice()))
}

fn tasks(alloc: Global) -> Result<Schema, Fail> {
    let json = Json::from_str(alloc, TASKS)?;
    Ok(Schema::read(alloc, &json)?)
}

fn task_indexes(alloc: Global) -> Result<Vec<Index>, AllocError> {
    let mut indexes = Vec::new(alloc);
    for names in ["timestamp", "done rank"] {
        indexes.push(index(alloc, names)?)?;
    }
    Ok(indexes)
}

// An index of the fields with these names.
fn index(alloc: Global, names: &str) -> Result<Index, AllocError> {
    let mut fields = Vec::new(alloc);
    for name in names.split_whitespace() {
        fields.push(RxText::new(alloc, name)?)?;
    }
    Index::new(alloc, fields.as_slice())
}

// Compares each of the 20 plans of the table below.
fn compare_all(alloc: Global, schema: &Schema, indexes: &Indexes<'_>) -> Result<(), Fail> {
    let mut compared = 0u64;
    for line in PLANS.lines() {
        if let Some((query, due)) = line.split_once(" | ") {
            compare(alloc, schema, indexes, query, due)?;
            compared = compared.saturating_add(1);
        }
    }
    if compared == 20 {
        return Ok(());
    }
    Err(Fail::new(format_args!("{compared} plans")))
}

fn compare(
    alloc: Global,
    schema: &Schema,
    indexes: &Indexes<'_>,
    query: &str,
    due: &str,
) -> Result<(), Fail> {
    let found = planned(alloc, schema, indexes, query)?;
    if found.as_str() == due {
        return Ok(());
    }
    Err(Fail::new(format_args!("{query}: due is {due}, found {}", found.as_str())))
}

// The plan of a query, as the table below has it.
fn planned(
    alloc: Global,
    schema: &Schema,
    indexes: &Indexes<'_>,
    query: &str,
) -> Result<String, Fail> {
    let asked = asked(alloc, schema, query)?;
    plan_of(alloc, &asked, indexes)
}

fn asked(alloc: Global, schema: &Schema, query: &str) -> Result<Query, Fail> {
    let json = Json::from_str(alloc, query)?;
    Ok(Query::read(alloc, &json, schema.kinds(), schema.primary())?)
}

fn plan_of(alloc: Global, asked: &Query, indexes: &Indexes<'_>) -> Result<String, Fail> {
    if indexes.len() == 0 {
        return Err(Fail::new("no index"));
    }
    let plan = plan(alloc, asked, indexes)?;
    plan_text(alloc, &plan)
}

fn plan_text(alloc: Global, plan: &Plan) -> Result<String, Fail> {
    let low = shown(alloc, &plan.low)?;
    let high = shown(alloc, &plan.high)?;
    let order = if plan.ordered {
        "in order"
    } else {
        "in another order"
    };
    Ok(format!(in alloc; "index {} from {low} to {high}, rows {order}", plan.index)?)
}

// Its values, and on which side of them it stands.
fn shown(alloc: Global, bound: &Bound) -> Result<String, Fail> {
    let mut text = String::new(alloc);
    for value in bound.values() {
        let word = match value {
            None => format!(in alloc; "none ")?,
            Some(Value::Flag(flag)) => format!(in alloc; "{flag} ")?,
            Some(Value::Int(n)) => format!(in alloc; "{n} ")?,
            Some(Value::Text(name)) => format!(in alloc; "{} ", name.as_str())?,
        };
        text.push_str(word.as_str())?;
    }
    text.push_str(if bound.is_after() { "after" } else { "before" })?;
    Ok(text)
}

// Indexes 1 and 2 are those of the plans below; index 0 is the primary key's.
const TASKS: &str =
    r#"{"version":0,"primaryKey":"id","type":"object","properties":{"id":{"type":"string","maxLength":100},"name":{"type":"string"},"done":{"type":"boolean"},"timestamp":{"type":"string","maxLength":32},"rank":{"type":"integer","minimum":0,"maximum":1000,"multipleOf":1}},"required":["id"],"indexes":["timestamp",["done","rank"]]}"#;

// A query a line, and behind it its plan.
const PLANS: &str = r#"
# the first fields fixed, the next one bounded
{"selector":{"done":true,"rank":{"$gte":990}}} | index 2 from false true 990 before to false true after, rows in another order
{"selector":{"done":true,"rank":{"$gt":3,"$gte":5,"$lt":9,"$lte":8}}} | index 2 from false true 3 after to false true 9 before, rows in another order
# all fixed
{"selector":{"id":"t5"}} | index 0 from false t5 before to false t5 after, rows in another order
{"selector":{"done":true,"id":"t5","rank":3}} | index 2 from false true 3 t5 before to false true 3 t5 after, rows in another order
# none
{} | index 0 from false before to false after, rows in order
{"selector":{"$and":[{"done":true}]}} | index 0 from false before to false after, rows in order
{"selector":{"done":{"$ne":true},"rank":5}} | index 0 from false before to false after, rows in order
# bounded alone
{"selector":{"timestamp":{"$gt":"a","$lte":"b"}}} | index 1 from false a after to false b after, rows in another order
{"selector":{"timestamp":{"$lt":"b"}},"sort":[{"timestamp":"asc"}]} | index 1 from false before to false b before, rows in order
{"selector":{"done":{"$gte":true},"rank":5}} | index 2 from false true before to false after, rows in another order
# a fixed field beats a bounded one, and on a tie the first index wins
{"selector":{"done":{"$eq":true},"timestamp":{"$gt":"a"}}} | index 2 from false true before to false true after, rows in another order
{"selector":{"id":{"$gte":"a"},"timestamp":{"$gte":"b"}}} | index 0 from false a before to false after, rows in order
{"selector":{"done":true,"id":"t5"}} | index 0 from false t5 before to false t5 after, rows in another order
# in order, or not
{"sort":[{"rank":"asc"}]} | index 0 from false before to false after, rows in another order
{"sort":[{"id":"desc"}]} | index 0 from false before to false after, rows in another order
{"selector":{"done":false},"sort":[{"rank":"asc"}]} | index 2 from false false before to false false after, rows in order
{"selector":{"done":false},"sort":[{"rank":"asc"},{"id":"asc"}]} | index 2 from false false before to false false after, rows in order
{"selector":{"done":false},"sort":[{"rank":"desc"}]} | index 2 from false false before to false false after, rows in another order
{"selector":{"done":false},"sort":[{"done":"asc"},{"rank":"asc"}]} | index 2 from false false before to false false after, rows in another order
{"selector":{"timestamp":"x"},"sort":[{"id":"asc"}]} | index 1 from false x before to false x after, rows in order
"#;
