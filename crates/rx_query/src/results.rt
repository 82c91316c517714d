ghost use Rattle.std.specs.Prelude.{◌≡◌, ◌<◌, ◌≤◌, [], length, slice_get, Some, IfOk, OnOk, OnErr, insert, remove};

use rx_value::{Fields, RxText};
use std::alloc::{AllocError, Global};
use std::marker::Model;

/// A document of a result: its key and its fields.
#[derive(Debug, Drop)]
pub struct Row {
    pub id: RxText,
    pub fields: Fields,
}

impl Row {
    pub fn copy(&self, alloc: Global) -> Result<Row, AllocError>
        ensures { IfOk result (λ r. r ≡ self.now) }
    {
        Ok(Row {
            id: self.id.copy(alloc)?,
            fields: self.fields.copy(alloc)?,
        })
    }
}

/// The rows of a query that is kept up to date.
#[derive(Debug, Drop)]
pub struct Results {
    rows: Vec<Row>,
}

impl Model for Results {
    ghost use Rattle.std.specs.Prelude.{List};
    ghost use Rattle.rx_query.specs.declared.results.Row.{Row};

    ghost Value = { List Row };

    ghost view = { λ r. r.rows.items };
}

impl Results {
    pub fn new(alloc: Global) -> Results
        ensures { result ≡ [] }
    {
        Results {
            rows: Vec::new(alloc),
        }
    }

    pub fn len(&self) -> usize
        ensures { result ≡ length self.now }
    {
        self.rows.len()
    }

    pub fn row(&self, i: usize) -> &Row
        requires { i < length self.now }
        ensures { slice_get self.now i ≡ Some result.now }
    {
        &self.rows[i]
    }

    pub fn remove(&mut self, i: usize) -> Row
        requires { i < length self.old }
        ensures row { slice_get self.old i ≡ Some result }
        ensures rest { self.new ≡ remove self.old i }
    {
        self.rows.remove(i)
    }

    pub fn insert(&mut self, i: usize, row: Row) -> Result<(), AllocError>
        requires { i ≤ length self.old }
        ensures ok { OnOk result (self.new ≡ insert self.old i row) }
        ensures err { OnErr result (self.new ≡ self.old) }
    {
        Ok(self.rows.insert(i, row)?)
    }

    pub fn copy(&self, alloc: Global) -> Result<Results, AllocError>
        ensures { IfOk result (λ r. r ≡ self.now) }
    {
        let mut rows = Vec::with_capacity(alloc, self.rows.len())?;
        for row in &self.rows {
            rows.push(row.copy(alloc)?)?;
        }
        Ok(Results { rows })
    }
}
