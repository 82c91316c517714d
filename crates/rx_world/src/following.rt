// Replications that are the same.
ghost use Rattle.std.specs.Bool.{Decides};
ghost use Rattle.std.specs.Map.{values_of};
ghost use Rattle.std.specs.Prelude.{◌≡◌, option_map};

use crate::replication::Replication;
use indexmap::IndexMap;
use rx_document::Place;
use rx_meta::{Known, Meta};
use rx_record::MasterName;
use rx_value::{RxText, State};

// Whether both have the same replications in the same order.
pub(crate) fn follow_same(
    these: &IndexMap<String, Replication>,
    those: &IndexMap<String, Replication>,
) -> bool
    ensures { Decides result (values_of these.now.entries ≡ values_of those.now.entries) }
{
    let mut others = those.values();
    for this in these.values() {
        let Some(that) = others.next() else {
            return false;
        };
        if !is_same_replication(this, that) {
            return false;
        }
    }
    others.next().is_none()
}

fn is_same_replication(this: &Replication, that: &Replication) -> bool
    ensures { Decides result (this.now ≡ that.now) }
{
    this.name == that.name
        && this.fork == that.fork
        && is_same_master(&this.master, &that.master)
        && this.handler == that.handler
        && is_same_text(&this.field, &that.field)
        && is_same_side(&this.side, &that.side)
}

fn is_same_master(this: &MasterName, that: &MasterName) -> bool
    ensures { Decides result (this.now ≡ that.now) }
{
    match (this, that) {
        (MasterName::Local(this), MasterName::Local(that)) => this == that,
        (MasterName::Port(this), MasterName::Port(that)) => this == that,
        _ => false,
    }
}

fn is_same_text(this: &Option<RxText>, that: &Option<RxText>) -> bool
    ensures { Decides result (this.now ≡ that.now) }
{
    match (this, that) {
        (Some(this), Some(that)) => this == that,
        (None, None) => true,
        _ => false,
    }
}

// Whether both know the same, up to the same checkpoints.
fn is_same_side(this: &Meta, that: &Meta) -> bool
    ensures { Decides result (this.now ≡ that.now) }
{
    if !are_same_states(this.all(), that.all()) {
        return false;
    }
    if !is_same_place(this.up(), that.up()) {
        return false;
    }
    is_same_place(this.down(), that.down())
}

fn is_same_place(this: Option<&Place>, that: Option<&Place>) -> bool
    ensures { Decides result
        (option_map (λ p. p.now) this.entry ≡ option_map (λ p. p.now) that.entry) }
{
    match (this, that) {
        (Some(this), Some(that)) => *this == *that,
        (None, None) => true,
        _ => false,
    }
}

// Whether both give the same states in the same order.
fn are_same_states(these: Known<'_>, mut those: Known<'_>) -> bool
    ensures { Decides result (these.entry ≡ those.entry) }
{
    for this in these {
        let Some(that) = those.next() else {
            return false;
        };
        if !is_same_state(this, that) {
            return false;
        }
    }
    those.next().is_none()
}

fn is_same_state(this: &State, that: &State) -> bool
    ensures { Decides result (this.now ≡ that.now) }
{
    *this == *that
}
