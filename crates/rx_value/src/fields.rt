ghost use Rattle.std.specs.Prelude.{◌≡◌, ◌<◌, ◌↔◌, [], length, slice_get, Some, IfOk, OnOk, OnErr, IsTrue, option_map};
ghost use Rattle.std.specs.Cmp.{partial_equiv_from_equiv};
ghost use Rattle.rx_value.specs.Equal.{fields_eq};
ghost use Rattle.rx_value.specs.Equality.{equivalence, fields_eq-Decides};
ghost use Rattle.rx_value.specs.Fields.{AreFields};
ghost use Rattle.rx_value.specs.Named.{named, put_in_order, without};
ghost use Rattle.rx_value.specs.Value.{is_value};

use crate::place::{named_among, place};
use crate::rx_text::RxText;
use crate::value::Value;
use std::alloc::{AllocError, Global};
use std::marker::Model;

// So many pairs are looked through for a name, and more are searched.
const FEW: usize = 8;

/// The fields of a document: pairs of name and value, by rising name.
#[derive(Debug, Drop)]
pub struct Fields {
    pub(crate) pairs: Vec<(RxText, Value)>,
}

impl Model for Fields {
    ghost use Rattle.rx_value.specs.Fields.{Pairs, AreFields};

    ghost Value = { Pairs };

    ghost view = { λ f. f.pairs.items };

    ghost invariant = { λ f. AreFields f.pairs.items };
}

impl Fields {
    pub fn new(alloc: Global) -> Fields
        ensures { result ≡ [] }
    {
        Fields {
            pairs: Vec::new(alloc),
        }
    }

    /// The fields of pairs that are in order, in the memory that those have.
    pub fn from_rising(pairs: Vec<(RxText, Value)>) -> Fields
        requires { AreFields pairs.items }
        ensures { result ≡ pairs.items }
    {
        Fields { pairs }
    }

    /// How many pairs there are.
    pub fn len(&self) -> usize
        ensures count { result ≡ length self.now }
        ensures lawful { AreFields self.now }
    {
        self.pairs.len()
    }

    pub fn at(&self, i: usize) -> (&RxText, &Value)
        requires { i < length self.now }
        ensures { slice_get self.now i ≡ Some (result.0.now, result.1.now) }
    {
        let pair = &self.pairs[i];
        (&pair.0, &pair.1)
    }

    pub fn get(&self, name: &str) -> Option<&Value>
        ensures { option_map (λ v. v.now) result ≡ named self.now name.now }
    {
        let pairs = self.pairs.as_slice();
        if pairs.len() <= FEW {
            return named_among(pairs, name);
        }
        match place(pairs, name) {
            Ok(i) => Some(&pairs[i].1),
            Err(_) => None,
        }
    }

    /// Gives the name that value. A name that is there keeps its place, a new one goes to its own.
    pub fn set(&mut self, name: RxText, value: Value) -> Result<(), AllocError>
        requires { IsTrue (is_value value) }
        ensures ok { OnOk result (self.new ≡ put_in_order self.old name value) }
        ensures err { OnErr result (self.new ≡ self.old) }
    {
        match place(self.pairs.as_slice(), name.as_str()) {
            Ok(i) => {
                self.pairs[i].1 = value;
                Ok(())
            }
            Err(i) => {
                make_room(&mut self.pairs)?;
                Ok(self.pairs.insert(i, (name, value))?)
            }
        }
    }

    /// Takes the pair of a name out, and gives its value.
    pub fn remove(&mut self, name: &str) -> Option<Value>
        ensures old { result ≡ named self.old name.now }
        ensures others { self.new ≡ without self.old name.now }
        ensures lawful { AreFields self.old }
    {
        match place(self.pairs.as_slice(), name) {
            Ok(i) => {
                let (_, value) = self.pairs.remove(i);
                Some(value)
            }
            Err(_) => None,
        }
    }

    pub fn copy(&self, alloc: Global) -> Result<Fields, AllocError>
        ensures { IfOk result (λ f. f ≡ self.now) }
    {
        let mut pairs = Vec::with_capacity(alloc, self.pairs.len())?;
        for (name, value) in &self.pairs {
            pairs.push((name.copy(alloc)?, value.copy(alloc)?))?;
        }
        Ok(Fields { pairs })
    }
}

// Makes room for a pair more. By an eighth at a time, so that a few pairs have none to spare.
fn make_room(pairs: &mut Vec<(RxText, Value)>) -> Result<(), AllocError>
    ensures { pairs.new.items ≡ pairs.old.items }
{
    if pairs.len() < pairs.capacity() {
        return Ok(());
    }
    pairs.reserve_exact(pairs.len() / 8 + 1)
}

impl PartialEq for Fields {
    ghost eq = { fields_eq };

    ghost laws = { partial_equiv_from_equiv (equivalence fields_eq fields_eq-Decides) };

    fn eq(&self, other: &Fields) -> bool
        ensures value { result ≡ fields_eq self.now other.now }
        ensures exact { IsTrue result ↔ (self.now ≡ other.now) }
    {
        self.pairs.as_slice() == other.pairs.as_slice()
    }
}

impl Eq for Fields {
    ghost laws = { equivalence fields_eq fields_eq-Decides };
}
