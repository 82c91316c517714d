ghost use Rattle.std.specs.Prelude.{◌≡◌};
ghost use Rattle.rx_value.specs.Named.{named, AreRising};

use crate::place::place;
use crate::rx_text::RxText;
use std::marker::Model;

/// What a field may hold.
#[derive(Clone, Copy, Debug, PartialEq, Eq)]
pub enum Kind {
    Flag,
    Int,
    Text,
}

/// The kind of each name, by rising name.
#[derive(Debug, Drop)]
pub struct Kinds {
    pairs: Vec<(RxText, Kind)>,
}

impl Model for Kinds {
    ghost use Rattle.std.specs.Prelude.{List, ℕ};
    ghost use Rattle.rx_value.specs.declared.kinds.Kind.{Kind};
    ghost use Rattle.rx_value.specs.Named.{AreRising};

    ghost Value = { List (List ℕ × Kind) };

    ghost view = { λ k. k.pairs.items };

    ghost invariant = { λ k. AreRising k.pairs.items };
}

impl Kinds {
    pub fn new(pairs: Vec<(RxText, Kind)>) -> Kinds
        requires { AreRising pairs.items }
        ensures { result ≡ pairs.items }
    {
        Kinds { pairs }
    }

    pub fn kind(&self, name: &str) -> Option<Kind>
        ensures { result ≡ named self.now name.now }
    {
        match place(self.pairs.as_slice(), name) {
            Ok(i) => Some(self.pairs[i].1),
            Err(_) => None,
        }
    }
}
