ghost use Rattle.std.specs.Prelude.{◌≡◌, ◌≤◌, IfOk, OnOk};
ghost use Rattle.serde_json.specs.View.{view};
ghost use Rattle.rx_value.specs.Due.{Due};
ghost use Rattle.rx_script.specs.Target.{is_at_port, target_member, a_port, a_target, a_target_name, HasPort, IsTarget, max_port};
ghost use Rattle.rx_script.specs.declared.fault.LineFault.TheVariants.{Memory};

use crate::fault::LineFault;
use crate::member::{check_name, read_text};
use rx_value::{RxText, whole_within};
use serde_json::Value as Json;
use std::alloc::Global;

/// Where the master of a replication is.
#[derive(Debug, Drop)]
pub enum Target {
    /// The collection of that name.
    Local(RxText),
    /// At that port, which isn't 0.
    Port(u16),
}

// No master is named, and a port is given.
fn is_at_port(json: &Json) -> bool
    ensures { result ≡ is_at_port (view json.now) }
{
    json.get("master").is_none() && json.get("port").is_some()
}

// The member that says where the master is.
pub(crate) fn target_member(json: &Json) -> &'static str
    ensures { result.now ≡ target_member (view json.now) }
{
    if is_at_port(json) { "port" } else { "master" }
}

pub(crate) fn read_target(alloc: Global, json: &Json) -> Result<Target, LineFault>
    ensures exact { Due Memory result (a_target (view json.now)) }
    ensures port { IfOk result HasPort }
{
    if is_at_port(json) {
        return Ok(Target::Port(read_port(alloc, json, "port")?));
    }
    Ok(Target::Local(read_text(alloc, json, "master")?))
}

fn read_port(alloc: Global, json: &Json, name: &str) -> Result<u16, LineFault>
    ensures exact { Due Memory result (a_port name.now (view json.now)) }
    ensures limits { IfOk result (λ port. (1 ≤ port) × (port ≤ max_port)) }
{
    match whole_within(json, name, 1, u16::MAX as u64) {
        Some(port) => Ok(port as u16),
        None => Err(LineFault::WrongType(RxText::new(alloc, name)?)),
    }
}

// A master that is named has a name.
pub(crate) fn check_target(alloc: Global, target: &Target) -> Result<(), LineFault>
    requires port { HasPort target.now }
    ensures exact { Due Memory result (a_target_name target.now) }
    ensures lawful { OnOk result (IsTarget target.now) }
{
    match target {
        Target::Local(name) => check_name(alloc, "master", name),
        Target::Port(_) => Ok(()),
    }
}
