// What a fork knows goes to the next version of its schema.
ghost use Rattle.std.specs.Prelude.{◌≡◌, drop, slice_get, IfOk, OnOk};
ghost use Rattle.rx_meta.specs.Migrated.{known_after};
ghost use Rattle.rx_meta.specs.Side.{AreKnownByKey, side_with};

use crate::meta::Meta;
use rx_migrate::Steps;
use rx_runs::{Name, Run};
use rx_value::State;
use std::alloc::{AllocError, Global};

impl Meta {
    /// The same with each known state after the steps, where they make one. Keys and checkpoints
    /// stay, and at most one state at a time is copied.
    pub fn migrated(self, steps: &Steps) -> Result<Meta, AllocError>
        ensures { IfOk result
            (λ m. m ≡ side_with (known_after steps.now self.known) self.up self.down) }
    {
        let Meta {
            alloc,
            known,
            up,
            down,
        } = self;
        let known = migrated_states(alloc, known, steps)?;
        Ok(Meta {
            alloc,
            known,
            up,
            down,
        })
    }
}

fn migrated_states(
    alloc: Global,
    known: Run<State>,
    steps: &Steps,
) -> Result<Run<State>, AllocError>
    requires { AreKnownByKey known }
    ensures { IfOk result (λ all. all ≡ known_after steps.now known) }
{
    let mut left = known;
    let mut all = Run::new(alloc);
    while let Some(first) = take_first(&mut left)? {
        let (key, state) = first;
        let next = steps.carried(alloc, state)?;
        if all.put(key, next).is_err() {
            return Err(AllocError);
        }
    }
    Ok(all)
}

// Takes out the state of the least key.
fn take_first(known: &mut Run<State>) -> Result<Option<(Name, State)>, AllocError>
    ensures first { IfOk result (λ first. first ≡ slice_get known.old 0) }
    ensures others { OnOk result (known.new ≡ drop 1 known.old) }
{
    let key = match known.pairs().at(0) {
        Some((key, _)) => key.copy()?,
        None => return Ok(None),
    };
    match known.remove(key.as_bytes()) {
        Some(state) => Ok(Some((key, state))),
        None => Ok(None),
    }
}
