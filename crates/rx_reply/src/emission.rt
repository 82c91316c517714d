ghost use Rattle.std.specs.Prelude.{◌≡◌, ◌++◌, IfOk, OnOk, string_bytes};
ghost use Rattle.json.specs.Tree.{json_tokens};
ghost use Rattle.serde_json.specs.Written.{outline};
ghost use Rattle.rx_reply.specs.Emission.{emission_data, emission_line, rows_fields};

use crate::writing::{finish_line, line_after, put_results, put_text};
use json::Writer;
use rx_query::Results;
use std::alloc::{AllocError, Global};

/// The line of output that gives the present rows of an observed query.
pub fn emission_line(alloc: Global, name: &str, rows: &Results) -> Result<String, AllocError>
    ensures { IfOk result (λ t. string_bytes t ≡ emission_line name.now (rows_fields rows.now)) }
{
    let mut writer = line_after(String::new(alloc));
    put_emission(&mut writer, name, rows)?;
    finish_line(writer)
}

fn put_emission(writer: &mut Writer, name: &str, rows: &Results) -> Result<(), AllocError>
    ensures tokens { OnOk result (writer.new.tokens ≡ writer.old.tokens
        ++ json_tokens (outline (emission_data name.now (rows_fields rows.now)))) }
    ensures before { writer.new.before ≡ writer.old.before }
{
    writer.begin_object()?;
    put_text(writer, "emit", name)?;
    writer.key("rows")?;
    put_results(writer, rows)?;
    writer.end_object()
}
