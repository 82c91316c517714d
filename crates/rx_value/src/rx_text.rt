ghost use Rattle.std.specs.Prelude.{◌≡◌, ◌↔◌, ◌≤◌, length, IsTrue, IfOk, string_bytes};
ghost use Rattle.std.specs.Cmp.{partial_equiv_from_equiv};
ghost use Rattle.std.specs.Str.{bytes_eq};
ghost use Rattle.std.proofs.lemmas.Cmp.{nat_list_eq_equiv};
ghost use Rattle.rx_value.specs.Order.{text_cmp};

use crate::comparing;
use std::alloc::{AllocError, Global};
use std::cmp::Ordering;
use std::marker::Model;
use std::rc::Rc;
use std::{fmt, str};

// The most bytes that a text keeps in itself, so that it has the size of two words.
const MOST_SHORT: usize = 14;

// A text of at most `MOST_SHORT` bytes.
#[derive(Drop)]
struct ShortText {
    len: u8,
    bytes: [u8; MOST_SHORT],
}

impl Model for ShortText {
    ghost use Rattle.std.specs.Prelude.{◌≡◌, ◌≤◌, List, ℕ, length, take, IsUtf8};

    ghost Value = { List ℕ };

    ghost view = { λ t. take t.len t.bytes };

    ghost invariant = { λ t. (t.len ≤ 14) × (length t.bytes ≡ 14)
        × ∥ IsUtf8 (take t.len t.bytes) ∥₁ };
}

impl ShortText {
    fn new(text: &str) -> ShortText
        requires { length text.now ≤ MOST_SHORT }
        ensures { result ≡ text.now }
    {
        let mut bytes = [0; MOST_SHORT];
        bytes[..text.len()].copy_from_slice(text.as_bytes());
        ShortText {
            len: text.len() as u8,
            bytes,
        }
    }

    fn as_str(&self) -> &str
        ensures { result.now ≡ self.now }
    {
        // They were copied from a text.
        unsafe { str::from_utf8_unchecked(&self.bytes[..self.len as usize]) }
    }

    fn copy(&self) -> ShortText
        ensures { result ≡ self.now }
    {
        ShortText {
            len: self.len,
            bytes: self.bytes,
        }
    }
}

// What a text is kept in. A copy of a long one shares it.
#[derive(Drop)]
enum Kept {
    Short(ShortText),
    Long(Rc<String>),
}

/// A text of its own: a list of bytes that is UTF-8.
pub struct RxText {
    kept: Kept,
}

const _: () = prove!(size_of::<RxText>() == 16);

// Derived, it would show both cases to whoever drops a text.
impl Drop for RxText {
    fn drop(self) {
        let RxText { kept: _kept } = self;
    }
}

impl Model for RxText {
    ghost use Rattle.std.specs.Prelude.{List, ℕ};
    ghost use Rattle.rx_value.specs.Text.{kept_bytes};

    ghost Value = { List ℕ };

    ghost view = { λ t. kept_bytes t.kept };
}

impl RxText {
    pub fn new(alloc: Global, text: &str) -> Result<RxText, AllocError>
        ensures { IfOk result (λ t. t ≡ text.now) }
    {
        if text.len() <= MOST_SHORT {
            return Ok(RxText {
                kept: Kept::Short(ShortText::new(text)),
            });
        }
        RxText::long(alloc, String::from_str(alloc, text)?)
    }

    /// The text of a string, which it takes over where it is long.
    pub fn from_string(alloc: Global, text: String) -> Result<RxText, AllocError>
        ensures { IfOk result (λ t. t ≡ string_bytes text) }
    {
        if text.len() <= MOST_SHORT {
            return RxText::new(alloc, text.as_str());
        }
        RxText::long(alloc, text)
    }

    fn long(alloc: Global, text: String) -> Result<RxText, AllocError>
        ensures { IfOk result (λ t. t ≡ string_bytes text) }
    {
        Ok(RxText {
            kept: Kept::Long(Rc::new(alloc, text)?),
        })
    }

    pub fn as_str(&self) -> &str
        ensures { result.now ≡ self.now }
    {
        match &self.kept {
            Kept::Short(text) => text.as_str(),
            Kept::Long(text) => text.as_str(),
        }
    }

    pub fn copy(&self, _alloc: Global) -> Result<RxText, AllocError>
        ensures { IfOk result (λ t. t ≡ self.now) }
    {
        let kept = match &self.kept {
            Kept::Short(text) => Kept::Short(text.copy()),
            Kept::Long(text) => Kept::Long(text.clone()?),
        };
        Ok(RxText { kept })
    }

    /// How the text stands to another one, byte by byte.
    pub fn compare(&self, other: &str) -> Ordering
        ensures { result ≡ text_cmp self.now other.now }
    {
        comparing::compare(self.as_str().as_bytes(), other.as_bytes())
    }
}

impl fmt::Debug for RxText {
    fn fmt<W: fmt::Write>(&self, f: &mut fmt::Formatter<W>) -> fmt::Result {
        write!(f, "{:?}", self.as_str())
    }
}

impl PartialEq for RxText {
    ghost eq = { bytes_eq };

    ghost laws = { partial_equiv_from_equiv nat_list_eq_equiv };

    fn eq(&self, other: &RxText) -> bool
        ensures value { result ≡ bytes_eq self.now other.now }
        ensures exact { IsTrue result ↔ (self.now ≡ other.now) }
    {
        comparing::is_same(self.as_str(), other.as_str())
    }
}

impl Eq for RxText {
    ghost laws = { nat_list_eq_equiv };
}
