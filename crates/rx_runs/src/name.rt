ghost use Rattle.std.specs.Prelude.{◌≡◌, ◌≤◌, length, IfOk};
ghost use Rattle.rx_value.specs.Order.{text_cmp};

use rx_value::compare;
use std::alloc::{AllocError, Global};
use std::cmp::Ordering;
use std::marker::Model;
use std::rc::Rc;

// The most bytes that a name keeps in itself, so that it has the size of three words.
const MOST_SHORT: usize = 22;

// A name of at most `MOST_SHORT` bytes.
#[derive(Drop)]
struct ShortName {
    len: u8,
    bytes: [u8; MOST_SHORT],
}

impl Model for ShortName {
    ghost use Rattle.std.specs.Prelude.{◌≡◌, ◌≤◌, List, ℕ, length, take};

    ghost Value = { List ℕ };

    ghost view = { λ n. take n.len n.bytes };

    ghost invariant = { λ n. (n.len ≤ 22) × (length n.bytes ≡ 22) };
}

impl ShortName {
    fn new(name: &[u8]) -> ShortName
        requires { length name.now ≤ MOST_SHORT }
        ensures { result ≡ name.now }
    {
        let mut bytes = [0; MOST_SHORT];
        bytes[..name.len()].copy_from_slice(name);
        ShortName {
            len: name.len() as u8,
            bytes,
        }
    }

    fn as_bytes(&self) -> &[u8]
        ensures { result.now ≡ self.now }
    {
        &self.bytes[..self.len as usize]
    }

    fn copy(&self) -> ShortName
        ensures { result ≡ self.now }
    {
        ShortName {
            len: self.len,
            bytes: self.bytes,
        }
    }
}

// What a name is kept in. A copy of a long one shares it.
#[derive(Drop)]
enum Kept {
    Short(ShortName),
    Long(Rc<Vec<u8>>),
}

/// What a run goes by: a list of bytes, as those of a text or of the key of an index.
pub struct Name {
    kept: Kept,
}

const _: () = prove!(size_of::<Name>() == 24);

// Derived, it would show both cases to whoever drops a name.
impl Drop for Name {
    fn drop(self) {
        let Name { kept: _kept } = self;
    }
}

impl Model for Name {
    ghost use Rattle.std.specs.Prelude.{List, ℕ};
    ghost use Rattle.rx_runs.specs.Name.{kept_bytes};

    ghost Value = { List ℕ };

    ghost view = { λ n. kept_bytes n.kept };
}

impl Name {
    pub fn new(alloc: Global, name: &[u8]) -> Result<Name, AllocError>
        ensures { IfOk result (λ n. n ≡ name.now) }
    {
        let kept = if name.len() <= MOST_SHORT {
            Kept::Short(ShortName::new(name))
        } else {
            Kept::Long(Rc::new(alloc, Vec::from_slice(alloc, name)?)?)
        };
        Ok(Name { kept })
    }

    pub fn as_bytes(&self) -> &[u8]
        ensures { result.now ≡ self.now }
    {
        match &self.kept {
            Kept::Short(name) => name.as_bytes(),
            Kept::Long(name) => name.as_slice(),
        }
    }

    pub fn copy(&self) -> Result<Name, AllocError>
        ensures { IfOk result (λ n. n ≡ self.now) }
    {
        let kept = match &self.kept {
            Kept::Short(name) => Kept::Short(name.copy()),
            Kept::Long(name) => Kept::Long(name.clone()?),
        };
        Ok(Name { kept })
    }

    /// How the name stands to another one, byte by byte.
    pub fn compare(&self, other: &[u8]) -> Ordering
        ensures { result ≡ text_cmp self.now other.now }
    {
        compare(self.as_bytes(), other)
    }
}
