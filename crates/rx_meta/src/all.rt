ghost use Rattle.std.specs.Prelude.{◌≡◌, length};
ghost use Rattle.std.specs.Iterator.{at_most};
ghost use Rattle.std.specs.Map.{values_of};
ghost use Rattle.std.specs.Map.Iter.{TakesFirst, ShowsInOrder, deref};
ghost use Rattle.rx_value.specs.declared.state.State.{State as SeenState};
ghost use Rattle.rx_meta.specs.Side.{AreKnownByKey};

use crate::meta::Meta;
use rx_runs::Pairs;
use rx_value::State;
use std::marker::Model;

/// Every known state, by rising key, lent.
#[derive(Drop)]
pub struct Known<'a> {
    pairs: Pairs<'a, State>,
}

impl<'a> Model for Known<'a> {
    ghost use Rattle.std.specs.Prelude.{List};
    ghost use Rattle.std.specs.Map.{values_of};
    ghost use Rattle.rx_value.specs.declared.state.State.{State};

    ghost Value = { List State };

    ghost view = { λ k. values_of k.pairs };
}

impl Meta {
    /// Every known state, by rising key.
    pub fn all(&self) -> Known<'_>
        ensures states { result ≡ values_of self.now.known }
        ensures runs { ShowsInOrder (deref {X = SeenState}) }
        ensures lawful { AreKnownByKey self.now.known }
    {
        Known {
            pairs: self.known.pairs(),
        }
    }
}

impl<'a> Iterator for Known<'a> {
    type Item = &'a State;

    ghost next_gives = { TakesFirst deref };

    ghost remaining = { λ s. at_most (length s) };

    fn next(&mut self) -> Option<&'a State> {
        let (_, state) = self.pairs.next()?;
        Some(state)
    }
}
