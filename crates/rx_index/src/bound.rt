ghost use Rattle.std.specs.Prelude.{◌≡◌, drop, option_map, IfOk};
ghost use Rattle.rx_index.specs.ByKey.{behind_values, start_of};
ghost use Rattle.rx_index.specs.Packed.{packed, AreLawful};
ghost use Rattle.rx_index.specs.Position.{position_with, PositionsAreOrdered, TiesAreOnePosition, BoundsEnclose};

use crate::packed::name_of;
use rx_runs::Name;
use rx_value::{Value, order};
use std::alloc::{AllocError, Global};
use std::cmp::Ordering;
use std::marker::Model;

/// A position in the order of keys: before all keys that begin with its values, or after all of
/// them.
#[derive(Drop)]
pub struct Bound {
    values: Vec<Option<Value>>,
    after: bool,
    // Its bytes, by which keys are searched.
    name: Name,
    // From which primary key on keys of its first value come behind it, if any do.
    behind: Option<Name>,
}

impl Model for Bound {
    ghost use Rattle.std.specs.Prelude.{◌≡◌, drop};
    ghost use Rattle.rx_index.specs.ByKey.{behind_values};
    ghost use Rattle.rx_index.specs.Packed.{values_bytes, AreLawful};
    ghost use Rattle.rx_index.specs.Position.{Position, position_with};

    ghost Value = { Position };

    ghost view = { λ b. position_with b.values.items b.after };

    ghost invariant = { λ b. AreLawful b.values.items
        × (b.name ≡ values_bytes b.values.items b.after)
        × (b.behind ≡ behind_values (drop 1 b.values.items) b.after) };
}

impl Bound {
    pub fn new(alloc: Global, values: Vec<Option<Value>>, after: bool) -> Result<Bound, AllocError>
        ensures { IfOk result (λ b. b ≡ position_with values.items after) }
    {
        let name = name_of(alloc, values.as_slice(), after)?;
        let behind = behind_values(alloc, behind_first(values.as_slice()), after)?;
        Ok(Bound {
            values,
            after,
            name,
            behind,
        })
    }

    pub fn values(&self) -> &[Option<Value>]
        ensures { result.now ≡ self.now.values }
    {
        self.values.as_slice()
    }

    /// Its bytes, as the index keeps them: they stand in the order of the positions.
    pub fn name(&self) -> &Name
        ensures name { result.now ≡ packed self.now }
        ensures lawful { AreLawful self.now.values }
    {
        &self.name
    }

    /// From which primary key on the keys of documents that are deleted, or aren't, come behind it,
    /// if any do.
    pub(crate) fn start(&self, deleted: bool) -> Option<&[u8]>
        ensures { option_map (λ t. t.now) result ≡ start_of deleted self.now }
    {
        let Some(first) = self.values.as_slice().first() else {
            return if self.after { None } else { Some(&[]) };
        };
        match order(first.as_ref(), Some(&Value::Flag(deleted))) {
            Ordering::Less => Some(&[]),
            Ordering::Equal => self.behind.as_ref().map(|name| name.as_bytes()),
            Ordering::Greater => None,
        }
    }

    /// For tests: whether it stands behind the keys that begin with its values.
    pub fn is_after(&self) -> bool
        ensures { result ≡ self.now.after }
    {
        self.after
    }
}

fn behind_first(values: &[Option<Value>]) -> &[Option<Value>]
    ensures { result.now ≡ drop 1 values.now }
{
    if values.is_empty() {
        values
    } else {
        &values[1..]
    }
}

// From which text on primary keys come behind values, if any do. What comes next behind a text is
// that text with a zero.
fn behind_values(
    alloc: Global,
    values: &[Option<Value>],
    after: bool,
) -> Result<Option<Name>, AllocError>
    ensures { IfOk result (λ o. o ≡ behind_values values.now after) }
{
    let Some(first) = values.first() else {
        if after {
            return Ok(None);
        }
        return Ok(Some(Name::new(alloc, &[])?));
    };
    let Some(Value::Text(text)) = first else {
        return Ok(Some(Name::new(alloc, &[])?));
    };
    let mut bytes = Vec::from_slice(alloc, text.as_str().as_bytes())?;
    if after || values.len() > 1 {
        bytes.push(0)?;
    }
    Ok(Some(Name::new(alloc, bytes.as_slice())?))
}

/// States the laws of the order of bounds for those who search by it, and does nothing.
pub fn bound_laws()
    ensures total { PositionsAreOrdered }
    ensures ties { TiesAreOnePosition }
    ensures encloses { BoundsEnclose }
{}
