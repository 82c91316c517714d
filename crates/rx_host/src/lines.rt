// The lines that are written of connections.
ghost use Rattle.std.specs.Prelude.{◌≡◌, ◌++◌, IfOk, OnOk, string_bytes};
ghost use Rattle.json.specs.Tree.{json_tokens};
ghost use Rattle.serde_json.specs.Written.{outline};
ghost use Rattle.rx_host.specs.Connections.{connection_data, connection_line, end_word};

use json::Writer;
use rx_reply::{finish_line, line_after, put_number, put_text};
use rx_serve::{Ended, Why};
use std::alloc::{AllocError, Global};

/// The line that tells how the connection of that number ended.
pub(crate) fn connection_line(
    alloc: Global,
    number: u64,
    ended: &Ended,
) -> Result<String, AllocError>
    ensures { IfOk result (λ t. string_bytes t ≡ connection_line number ended.now) }
{
    let mut writer = line_after(String::new(alloc));
    put_connection(&mut writer, number, ended)?;
    finish_line(writer)
}

fn put_connection(writer: &mut Writer, number: u64, ended: &Ended) -> Result<(), AllocError>
    ensures tokens { OnOk result (writer.new.tokens ≡ writer.old.tokens
        ++ json_tokens (outline (connection_data number ended.now))) }
    ensures before { writer.new.before ≡ writer.old.before }
{
    writer.begin_object()?;
    put_number(writer, "connection", number)?;
    put_text(writer, "end", word_of(ended.why))?;
    put_number(writer, "requests", ended.requests)?;
    writer.end_object()
}

fn word_of(why: Why) -> &'static str
    ensures { result.now ≡ end_word why }
{
    match why {
        Why::Peer => "peer",
        Why::Request => "request",
        Why::Clock => "clock",
        Why::Wire => "wire",
    }
}
