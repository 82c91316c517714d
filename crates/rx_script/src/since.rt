ghost use Rattle.std.specs.Prelude.{◌≡◌, ◌≤◌, IfOk, IfSome, option_map};
ghost use Rattle.serde_json.specs.View.{view};
ghost use Rattle.rx_value.specs.Due.{Due};
ghost use Rattle.rx_value.specs.Value.{largest};
ghost use Rattle.rx_script.specs.Since.{since_with, since_of, maybe_since};
ghost use Rattle.rx_script.specs.declared.fault.LineFault.TheVariants.{Memory};

use crate::fault::LineFault;
use rx_value::{LARGEST, RxText, first_unexpected, text_at, whole_within};
use serde_json::Value as Json;
use std::alloc::Global;

/// The place above which changes are asked for: of the last one known, its key and write time.
#[derive(Debug, Drop)]
pub struct Since {
    pub id: RxText,
    pub lwt: u64,
}

pub(crate) fn read_maybe_since(
    alloc: Global,
    json: &Json,
    name: &str,
) -> Result<Option<Since>, LineFault>
    ensures exact { Due Memory result (maybe_since name.now (view json.now)) }
    ensures most { IfOk result (λ since. IfSome since (λ s. s.lwt ≤ largest)) }
{
    let Some(member) = json.get(name) else {
        return Ok(None);
    };
    match since_in(member) {
        Some((id, lwt)) => {
            let id = RxText::new(alloc, id)?;
            Ok(Some(Since { id, lwt }))
        }
        None => Err(LineFault::WrongType(RxText::new(alloc, name)?)),
    }
}

// The key and the write time, where the object has them and nothing else.
fn since_in(json: &Json) -> Option<(&str, u64)>
    ensures exact { option_map (λ s. since_with s.0.now s.1) result ≡ since_of (view json.now) }
    ensures most { IfSome result (λ s. s.1 ≤ largest) }
{
    if first_unexpected(json, &["id", "lwt"], &[]).is_some() {
        return None;
    }
    let id = text_at(json, "id")?;
    let lwt = whole_within(json, "lwt", 0, LARGEST as u64)?;
    Some((id, lwt))
}
