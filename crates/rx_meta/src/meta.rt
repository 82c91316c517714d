ghost use Rattle.std.specs.Prelude.{◌≡◌, [], None, OnOk, OnErr, option_map};
ghost use Rattle.rx_value.specs.Named.{named, put_in_order};
ghost use Rattle.rx_meta.specs.Side.{side_with, is_above_known, AreKnownByKey};

use rx_document::Place;
use rx_runs::{Name, Run};
use rx_value::State;
use std::alloc::{AllocError, Global};
use std::marker::Model;

/// A fork's knowledge of its master.
#[derive(Drop)]
pub struct Meta {
    pub(crate) alloc: Global,
    pub(crate) known: Run<State>,
    pub(crate) up: Option<Place>,
    pub(crate) down: Option<Place>,
}

impl Model for Meta {
    ghost use Rattle.rx_meta.specs.Side.{Side, side_with, AreKnownByKey};

    ghost Value = { Side };

    ghost view = { λ m. side_with m.known m.up m.down };

    ghost invariant = { λ m. AreKnownByKey m.known };
}

impl Meta {
    pub fn new(alloc: Global) -> Meta
        ensures { result ≡ side_with [] None None }
    {
        Meta {
            alloc,
            known: Run::new(alloc),
            up: None,
            down: None,
        }
    }

    /// The master's state of that key, as it was learnt last.
    pub fn known(&self, key: &str) -> Option<&State>
        ensures value { option_map (λ s. s.now) result ≡ named self.now.known key.now }
        ensures lawful { AreKnownByKey self.now.known }
    {
        self.known.get(key.as_bytes())
    }

    /// Whether the key is above those of all known states.
    pub fn is_above(&self, key: &str) -> bool
        ensures { result ≡ is_above_known self.now.known key.now }
    {
        match self.known.pairs().at_back(0) {
            Some((last, _)) => last.compare(key.as_bytes()).is_lt(),
            None => true,
        }
    }

    /// The place up to which the fork's documents were pushed.
    pub fn up(&self) -> Option<&Place>
        ensures { option_map (λ p. p.now) result ≡ self.now.up }
    {
        self.up.as_ref()
    }

    /// The place up to which the master's documents were pulled.
    pub fn down(&self) -> Option<&Place>
        ensures { option_map (λ p. p.now) result ≡ self.now.down }
    {
        self.down.as_ref()
    }

    /// Knows a state in the place of the one of its key.
    pub fn learn(&mut self, state: State) -> Result<(), AllocError>
        ensures ok { OnOk result (self.new ≡ side_with
            (put_in_order self.old.known state.key state) self.old.up self.old.down) }
        ensures err { OnErr result (self.new ≡ self.old) }
    {
        let name = Name::new(self.alloc, state.key.as_str().as_bytes())?;
        match self.known.put(name, state) {
            Ok(_) => Ok(()),
            Err(_) => Err(AllocError),
        }
    }

    /// Sets both checkpoints.
    pub fn advance(&mut self, up: Option<Place>, down: Option<Place>)
        ensures { self.new ≡ side_with self.old.known up down }
    {
        self.up = up;
        self.down = down;
    }
}
