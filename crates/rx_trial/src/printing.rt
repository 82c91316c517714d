// The text of a line: compact JSON, its members in the order of their names.
ghost use Rattle.std.specs.Prelude.{◌≡◌, IfOk, string_bytes, IsTrue};
ghost use Rattle.rx_trial.specs.Printing.{collection_text, happening_name, linked_turn_text, patch_text, remove_text, side_name, text, tick_text, upsert_text};

use crate::line::{Happening, Line, Side};
use std::alloc::{AllocError, Global};

const REPLICATE: &str = "{\"do\":\"replicate\",\"field\":\"n\",\"fork\":\"f\",\
    \"handler\":\"greater\",\"master\":\"m\",\"name\":\"r\"}";

const OBSERVE_FORK: &str = "{\"do\":\"observe\",\"in\":\"f\",\"name\":\"q\",\"query\":\
    {\"limit\":10,\"selector\":{\"n\":{\"$gte\":50}},\"sort\":[{\"n\":\"desc\"}]}}";

const OBSERVE_MASTER: &str = "{\"do\":\"observe\",\"in\":\"m\",\"name\":\"p\",\"query\":\
    {\"selector\":{\"on\":true},\"skip\":2}}";

const RESTART: &str = "{\"do\":\"restart\"}";

const TURN: &str = "{\"do\":\"turn\",\"name\":\"r\"}";

const LAST_TURN: &str = "{\"batch\":100,\"budget\":100000,\"do\":\"turn\",\"name\":\"r\"}";

pub(crate) fn text(alloc: Global, line: Line) -> Result<String, AllocError>
    ensures { IfOk result (λ t. string_bytes t ≡ text line) }
{
    match line {
        Line::Collection(side) => collection_text(alloc, side),
        Line::Replicate => String::from_str(alloc, REPLICATE),
        Line::ObserveFork => String::from_str(alloc, OBSERVE_FORK),
        Line::ObserveMaster => String::from_str(alloc, OBSERVE_MASTER),
        Line::Upsert { side, key, n, on } => upsert_text(alloc, side, key, n, on),
        Line::Remove { side, key } => remove_text(alloc, side, key),
        Line::Patch { key, n } => patch_text(alloc, key, n),
        Line::Tick { at } => tick_text(alloc, at),
        Line::Restart => String::from_str(alloc, RESTART),
        Line::LinkedTurn {
            batch,
            first,
            second,
            third,
        } => linked_turn_text(alloc, batch, first, second, third),
        Line::Turn => String::from_str(alloc, TURN),
        Line::LastTurn => String::from_str(alloc, LAST_TURN),
    }
}

fn collection_text(alloc: Global, side: Side) -> Result<String, AllocError>
    ensures { IfOk result (λ t. string_bytes t ≡ collection_text side) }
{
    let name = side_name(side);
    format!(in alloc;
        "{{\"do\":\"collection\",\"name\":\"{name}\",\"schema\":\
        {{\"primaryKey\":\"id\",\"properties\":{{\"id\":{{\"maxLength\":8,\"type\":\"string\"}},\
        \"n\":{{\"type\":\"integer\"}},\"on\":{{\"type\":\"boolean\"}}}},\
        \"type\":\"object\",\"version\":0}}}}"
    )
}

fn upsert_text(alloc: Global, side: Side, key: u64, n: u64, on: bool) -> Result<String, AllocError>
    ensures { IfOk result (λ t. string_bytes t ≡ upsert_text side key n on) }
{
    let name = side_name(side);
    format!(in alloc;
        "{{\"do\":\"upsert\",\"doc\":{{\"id\":\"k{key}\",\"n\":{n},\"on\":{on}}},\
        \"in\":\"{name}\"}}"
    )
}

fn remove_text(alloc: Global, side: Side, key: u64) -> Result<String, AllocError>
    ensures { IfOk result (λ t. string_bytes t ≡ remove_text side key) }
{
    let name = side_name(side);
    format!(in alloc; "{{\"do\":\"remove\",\"in\":\"{name}\",\"key\":\"k{key}\"}}")
}

fn patch_text(alloc: Global, key: u64, n: u64) -> Result<String, AllocError>
    ensures { IfOk result (λ t. string_bytes t ≡ patch_text key n) }
{
    format!(in alloc; "{{\"do\":\"patch\",\"in\":\"f\",\"key\":\"k{key}\",\"set\":{{\"n\":{n}}}}}")
}

fn tick_text(alloc: Global, at: u64) -> Result<String, AllocError>
    ensures { IfOk result (λ t. string_bytes t ≡ tick_text at) }
{
    format!(in alloc; "{{\"at\":{at},\"do\":\"tick\"}}")
}

fn linked_turn_text(
    alloc: Global,
    batch: u64,
    first: Happening,
    second: Happening,
    third: Happening,
) -> Result<String, AllocError>
    ensures { IfOk result (λ t. string_bytes t ≡ linked_turn_text batch first second third) }
{
    let first = happening_name(first);
    let second = happening_name(second);
    let third = happening_name(third);
    format!(in alloc;
        "{{\"batch\":{batch},\"budget\":20,\"do\":\"turn\",\
        \"link\":[\"{first}\",\"{second}\",\"{third}\"],\"name\":\"r\"}}"
    )
}

fn side_name(side: Side) -> &'static str
    ensures { result.now ≡ side_name side }
{
    match side {
        Side::Fork => "f",
        Side::Master => "m",
    }
}

fn happening_name(happening: Happening) -> &'static str
    ensures { result.now ≡ happening_name happening }
{
    match happening {
        Happening::Fine => "ok",
        Happening::LosesRequest => "lose_request",
        Happening::LosesReply => "lose_reply",
        Happening::Twice => "twice",
        Happening::Stale => "stale",
    }
}
