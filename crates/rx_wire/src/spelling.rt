// A message in its one spelling.
ghost use Rattle.std.specs.Prelude.{◌≡◌, ◌≤◌, Ok, IfOk, length, nat_eq, true};
ghost use Rattle.std.specs.List.{common_prefix_len};
ghost use Rattle.rx_value.specs.Due.{Due};
ghost use Rattle.rx_schema.specs.declared.shape.Shape.{Shape};
ghost use Rattle.rx_wire.specs.Kept.{kept_request, kept_reply};
ghost use Rattle.rx_wire.specs.Lawful.{IsSaid, IsRequest, IsReply};
ghost use Rattle.rx_wire.specs.Limits.{longest_line};
ghost use Rattle.rx_wire.specs.OneLine.{is_one_line};
ghost use Rattle.rx_wire.specs.Spelling.{if_spelt, request_of, reply_of};
ghost use Rattle.rx_wire.specs.Writing.{request_text, reply_text};
ghost use Rattle.rx_wire.specs.declared.fault.WireFault.TheVariants.{Memory};

use crate::fault::WireFault;
use crate::line::read_object;
use crate::message::{Reply, Request};
use crate::printing::{reply_bytes, request_bytes, text_of};
use crate::reading::{read_reply, read_request};
use rx_schema::Schema;
use rx_value::RxText;
use std::alloc::{AllocError, Global};

impl Request {
    /// The request that a line is, without its line feed.
    pub fn read(alloc: Global, line: &[u8], schema: &Schema) -> Result<Request, WireFault>
        ensures exact { Due Memory result (request_of schema.now line.now) }
        ensures lawful { IfOk result (λ request. IsRequest schema.now request) }
    {
        request_at(alloc, line, schema)
    }

    /// The one line that asks for it, without its line feed.
    pub fn text(&self, alloc: Global, schema: &Schema) -> Result<RxText, AllocError>
        ensures text { IfOk result (λ t. t ≡ request_text schema.now self.now) }
        ensures one_line { IfOk result (λ t. is_one_line t ≡ true) }
        ensures reads_back { IfOk result (λ t. IsRequest schema.now self.now
            → length t ≤ longest_line → request_of schema.now t ≡ Ok self.now) }
    {
        // The canonical text says the schema, so that no valid field has the mark's name.
        let _said = schema.canonical();
        let bytes = request_bytes(alloc, self, schema)?;
        Ok(text_of(alloc, bytes)?)
    }
}

impl Reply {
    /// The reply that a line is, without its line feed.
    pub fn read(alloc: Global, line: &[u8], schema: &Schema) -> Result<Reply, WireFault>
        ensures exact { Due Memory result (reply_of schema.now line.now) }
        ensures lawful { IfOk result (λ reply. IsReply schema.now reply) }
    {
        reply_at(alloc, line, schema)
    }

    /// The one line that gives it, without its line feed. A schema by which its states are valid
    /// reads it back.
    pub fn text(&self, alloc: Global) -> Result<RxText, AllocError>
        ensures text { IfOk result (λ t. t ≡ reply_text self.now) }
        ensures one_line { IfOk result (λ t. is_one_line t ≡ true) }
        ensures reads_back { IfOk result (λ t. (s : Shape) → IsSaid s → IsReply s self.now
            → length t ≤ longest_line → reply_of s t ≡ Ok self.now) }
    {
        let bytes = reply_bytes(alloc, self)?;
        Ok(text_of(alloc, bytes)?)
    }
}

// The request by what is kept of a line.
fn request_at(alloc: Global, line: &[u8], schema: &Schema) -> Result<Request, WireFault>
    ensures { Due Memory result (kept_request schema.now line.now) }
{
    let json = read_object(alloc, schema, line)?;
    let request = read_request(alloc, schema, &json)?;
    let text = request_bytes(alloc, &request, schema)?;
    Ok(if_spelt(text.as_slice(), line, request)?)
}

// The reply by what is kept of a line.
fn reply_at(alloc: Global, line: &[u8], schema: &Schema) -> Result<Reply, WireFault>
    ensures { Due Memory result (kept_reply schema.now line.now) }
{
    let json = read_object(alloc, schema, line)?;
    let reply = read_reply(alloc, schema, &json)?;
    let text = reply_bytes(alloc, &reply)?;
    Ok(if_spelt(text.as_slice(), line, reply)?)
}

// What was read, if the line is its text.
fn if_spelt<T: Drop>(text: &[u8], line: &[u8], read: T) -> Result<T, WireFault>
    ensures { result ≡ if_spelt text.now line.now read }
{
    if text == line {
        Ok(read)
    } else {
        Err(WireFault::Spelling(common_prefix_len(text, line) as u64))
    }
}

// How many bytes two texts begin with alike.
fn common_prefix_len(text: &[u8], line: &[u8]) -> usize
    ensures { result ≡ common_prefix_len nat_eq text.now line.now }
{
    let most = text.len().min(line.len());
    for i in 0..most {
        if text[i] != line[i] {
            return i;
        }
    }
    most
}
