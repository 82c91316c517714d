use crate::fault::StepsFault;
use crate::migrating::{carry, make_all};
use crate::reading::read_list;
use crate::step::Step;
use crate::sure::are_sure;
use rx_value::State;
use serde_json::Value as Json;
use std::alloc::{AllocError, Global};
use std::marker::Model;

/// The most steps of a migration.
pub const MOST_STEPS: usize = 64;

/// The steps of a migration, in the order in which they are made.
#[derive(Debug, Drop)]
pub struct Steps {
    pub(crate) steps: Vec<Step>,
}

impl Model for Steps {
    ghost use Rattle.std.specs.Prelude.{List};
    ghost use Rattle.rx_migrate.specs.declared.step.Step.{Step};
    ghost use Rattle.rx_migrate.specs.Step.{AreSteps};

    ghost Value = { List Step };

    ghost view = { λ s. s.steps.items };

    ghost invariant = { λ s. AreSteps s.steps.items };
}

impl Steps {
    ghost use Rattle.std.specs.Prelude.{◌≡◌, ◌<◌, ◌++◌, ◌∷◌, [], length, slice_get, Some, IfOk};
    ghost use Rattle.std.specs.Prelude.{OnOk, OnErr, IsTrue};
    ghost use Rattle.std.specs.Option.{unwrap_or};
    ghost use Rattle.serde_json.specs.View.{view};
    ghost use Rattle.rx_value.specs.Due.{Due};
    ghost use Rattle.rx_migrate.specs.Migrated.{migrated};
    ghost use Rattle.rx_migrate.specs.Reading.{steps_of};
    ghost use Rattle.rx_migrate.specs.Step.{AreSteps, is_named, is_step, most_steps};
    ghost use Rattle.rx_migrate.specs.declared.fault.StepsFault.TheVariants.{Memory};

    pub fn new(alloc: Global) -> Steps
        ensures { result ≡ [] }
    {
        Steps {
            steps: Vec::new(alloc),
        }
    }

    /// How many steps there are.
    pub fn len(&self) -> usize
        ensures count { result ≡ length self.now }
        ensures lawful { AreSteps self.now }
    {
        self.steps.len()
    }

    pub fn at(&self, i: usize) -> &Step
        requires { i < length self.now }
        ensures { slice_get self.now i ≡ Some result.now }
    {
        &self.steps[i]
    }

    /// Whether a step names that field.
    pub fn names(&self, name: &str) -> bool
        ensures { result ≡ is_named name.now self.now }
    {
        self.steps.iter().any(|step| step.names(name))
    }

    /// Adds a step that a line takes at the end, where there is room.
    pub fn push(&mut self, step: Step) -> Result<(), AllocError>
        requires step { IsTrue (is_step step) }
        requires room { length self.old < most_steps }
        ensures ok { OnOk result (self.new ≡ self.old ++ step ∷ []) }
        ensures err { OnErr result (self.new ≡ self.old) }
    {
        self.steps.push(step)?;
        Ok(())
    }

    pub fn copy(&self, alloc: Global) -> Result<Steps, AllocError>
        ensures { IfOk result (λ s. s ≡ self.now) }
    {
        let mut steps = Vec::with_capacity(alloc, self.steps.len())?;
        for step in &self.steps {
            steps.push(step.copy(alloc)?)?;
        }
        Ok(Steps { steps })
    }

    /// The steps of a JSON list, where it is one of at most 64 and each item is a step.
    pub fn read(alloc: Global, json: &Json) -> Result<Steps, StepsFault>
        ensures { Due Memory result (steps_of (view json.now)) }
    {
        read_list(alloc, json)
    }

    /// What the steps make of a state, made in turn: nothing where a product is out of range.
    pub fn migrated(&self, alloc: Global, state: &State) -> Result<Option<State>, AllocError>
        ensures { IfOk result (λ s. s ≡ migrated self.now state.now) }
    {
        let fields = state.fields.copy(alloc)?;
        let Some(fields) = make_all(alloc, self.steps.as_slice(), fields)? else {
            return Ok(None);
        };
        Ok(Some(State {
            key: state.key.copy(alloc)?,
            fields,
            deleted: state.deleted,
        }))
    }

    /// The state after the steps, where they make one, and else as it is. Where it's sure that
    /// they do, it is changed in its own memory.
    pub fn carried(&self, alloc: Global, state: State) -> Result<State, AllocError>
        ensures { IfOk result (λ s. s ≡ unwrap_or (migrated self.now state) state) }
    {
        if are_sure(self.steps.as_slice(), &state.fields) {
            return carry(alloc, self.steps.as_slice(), state);
        }
        match self.migrated(alloc, &state)? {
            Some(next) => Ok(next),
            None => Ok(state),
        }
    }
}
