ghost use Rattle.std.specs.Prelude.{◌≡◌, ◌<◌, length, slice_get, Some, None, Ok, IfOk};
ghost use Rattle.serde_json.specs.Data.{Data};
ghost use Rattle.serde_json.specs.Read.{read};
ghost use Rattle.serde_json.specs.View.{view};
ghost use Rattle.rx_value.specs.Due.{Due};
ghost use Rattle.rx_value.specs.Named.{named};
ghost use Rattle.rx_value.specs.State.{mark};
ghost use Rattle.rx_schema.specs.Reading.{schema_of};
ghost use Rattle.rx_schema.specs.Lent.{value_lent, takes};
ghost use Rattle.rx_schema.specs.Validity.{outcome, first_fault, HasKey};
ghost use Rattle.rx_schema.specs.Writing.{canonical_text, hash_text, kinds_of};
ghost use Rattle.rx_schema.specs.declared.fault.SchemaFault.TheVariants.{Memory};

use crate::fault::SchemaFault;
use crate::lent_value::LentValue;
use crate::reading::read_shape;
use crate::shape::Shape;
use crate::validity::{Invalid, first_fault, takes};
use crate::writing::{canonical_text, hash_text, kinds_of};
use rx_value::{Fields, Kinds, RxText};
use serde_json::Value as Json;
use std::alloc::Global;
use std::marker::Model;

/// Which fields a document has and what they hold.
#[derive(Debug, Drop)]
pub struct Schema {
    shape: Shape,
    kinds: Kinds,
    canonical: RxText,
    hash: RxText,
}

impl Model for Schema {
    ghost use Rattle.std.specs.Prelude.{◌≡◌, Some};
    ghost use Rattle.serde_json.specs.Read.{read};
    ghost use Rattle.rx_schema.specs.Lawful.{IsSchema};
    ghost use Rattle.rx_schema.specs.Writing.{canonical_text, hash_text, kinds_of, schema_data};
    ghost use Rattle.rx_schema.specs.declared.shape.Shape.{Shape};

    ghost Value = { Shape };

    ghost view = { λ s. s.shape };

    ghost invariant = { λ s. IsSchema s.shape × (s.kinds ≡ kinds_of s.shape.properties)
        × (s.canonical ≡ canonical_text s.shape)
        × (read s.canonical ≡ Some (schema_data s.shape))
        × (s.hash ≡ hash_text s.shape) };
}

impl Schema {
    /// The schema that a JSON value says. The first test that fails decides.
    pub fn read(alloc: Global, json: &Json) -> Result<Schema, SchemaFault>
        ensures { Due Memory result (schema_of (view json.now)) }
    {
        let shape = read_shape(alloc, json)?;
        let kinds = kinds_of(alloc, shape.properties.as_slice())?;
        let canonical = canonical_text(alloc, &shape)?;
        let hash = hash_text(alloc, canonical.as_str())?;
        Ok(Schema {
            shape,
            kinds,
            canonical,
            hash,
        })
    }

    /// Whether the fields are valid, or their first fault: required fields that are missing by
    /// rising name, then unknown fields by rising name, then the values of the fields.
    pub fn valid<'a>(&'a self, fields: &'a Fields) -> Result<(), Invalid<'a>>
        ensures value { outcome result ≡ first_fault self.now fields.now }
        ensures unmarked { IfOk result (λ _. named fields.now mark ≡ None) }
        ensures key { IfOk result (λ _. HasKey fields.now self.now.primary) }
    {
        first_fault(&self.shape, fields)
    }

    /// Whether a field of that name may have the value. Fields are valid where each is taken and
    /// each required name is among theirs.
    pub fn takes(&self, name: &str, value: LentValue<'_>) -> bool
        ensures { result ≡ takes self.now name.now (value_lent value.entry) }
    {
        takes(&self.shape, name, value)
    }

    /// The names of the required fields, rising.
    pub fn required(&self) -> &[RxText]
        ensures { result.now ≡ self.now.required }
    {
        self.shape.required.as_slice()
    }

    /// The kind of each property, by rising name.
    pub fn kinds(&self) -> &Kinds
        ensures { result.now ≡ kinds_of self.now.properties }
    {
        &self.kinds
    }

    /// The name of the primary key.
    pub fn primary(&self) -> &str
        ensures { result.now ≡ self.now.primary }
    {
        self.shape.primary.as_str()
    }

    pub fn version(&self) -> u16
        ensures { result ≡ self.now.version }
    {
        self.shape.version
    }

    pub fn index_count(&self) -> usize
        ensures { result ≡ length self.now.indexes }
    {
        self.shape.indexes.len()
    }

    /// The fields of the index of that number, counted from 0 in the order in which they were
    /// given.
    pub fn index(&self, i: usize) -> &[RxText]
        requires { i < length self.now.indexes }
        ensures { slice_get self.now.indexes i ≡ Some result.now }
    {
        self.shape.indexes.at(i).as_slice()
    }

    /// The compact JSON object of the schema, in one spelling, which reads back as the schema.
    pub fn canonical(&self) -> &RxText
        ensures text { result.now ≡ canonical_text self.now }
        ensures reads_back { (d : Data) × (read result.now ≡ Some d) × (schema_of d ≡ Ok self.now) }
    {
        &self.canonical
    }

    /// The SHA-256 of the canonical text in lower-case hex, made when the schema was read.
    pub fn hash(&self) -> &RxText
        ensures { result.now ≡ hash_text self.now }
    {
        &self.hash
    }
}
