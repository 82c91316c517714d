ghost use Rattle.std.specs.Prelude.{◌≡◌, ◌↔◌, IsTrue, IfOk, option_map};
ghost use Rattle.std.specs.Cmp.{partial_equiv_from_equiv};
ghost use Rattle.rx_value.specs.Equal.{value_eq};
ghost use Rattle.rx_value.specs.Equality.{equivalence, value_eq-Decides};
ghost use Rattle.rx_value.specs.Order.{order_of, value_cmp, OrderIsTotal, TiesAreEqual};
ghost use Rattle.rx_value.specs.Value.{is_number, is_text, text_of};

use crate::comparing::is_same;
use crate::rx_text::RxText;
use std::alloc::{AllocError, Global};
use std::cmp::Ordering;

/// The largest number that a field holds, 2^53 - 1; the least is its negative.
pub const LARGEST: i64 = 9_007_199_254_740_991;

/// What a field holds.
#[derive(Debug, Drop)]
pub enum Value {
    Flag(bool),
    Int(i64),
    Text(RxText),
}

impl Value {
    pub fn copy(&self, alloc: Global) -> Result<Value, AllocError>
        ensures { IfOk result (λ v. v ≡ self.now) }
    {
        match self {
            Value::Flag(b) => Ok(Value::Flag(*b)),
            Value::Int(n) => Ok(Value::Int(*n)),
            Value::Text(text) => Ok(Value::Text(text.copy(alloc)?)),
        }
    }
}

impl PartialEq for Value {
    ghost eq = { value_eq };

    ghost laws = { partial_equiv_from_equiv (equivalence value_eq value_eq-Decides) };

    fn eq(&self, other: &Value) -> bool
        ensures value { result ≡ value_eq self.now other.now }
        ensures exact { IsTrue result ↔ (self.now ≡ other.now) }
    {
        match (self, other) {
            (Value::Flag(x), Value::Flag(y)) => x == y,
            (Value::Int(x), Value::Int(y)) => x == y,
            (Value::Text(x), Value::Text(y)) => x == y,
            _ => false,
        }
    }
}

impl Eq for Value {
    ghost laws = { equivalence value_eq value_eq-Decides };
}

/// Whether the number is from -`LARGEST` to `LARGEST`, as a field's must be.
pub fn is_number(n: i128) -> bool
    ensures { result ≡ is_number n }
{
    -(LARGEST as i128) <= n && n <= LARGEST as i128
}

/// Whether there is that text.
pub fn is_text(value: Option<&Value>, text: &str) -> bool
    ensures { result ≡ is_text text.now (option_map (λ v. v.now) value.entry) }
{
    match value {
        Some(Value::Text(held)) => is_same(held.as_str(), text),
        _ => false,
    }
}

/// The text that there is.
pub fn text_of<'a>(value: Option<&'a Value>) -> Option<&'a RxText>
    ensures { option_map (λ t. t.now) result ≡ text_of (option_map (λ v. v.now) value.entry) }
{
    match value {
        Some(Value::Text(held)) => Some(held),
        _ => None,
    }
}

/// The order of values: missing, then flags with false before true, then numbers, then texts by
/// their bytes.
pub fn order(a: Option<&Value>, b: Option<&Value>) -> Ordering
    ensures { result
        ≡ order_of (option_map (λ v. v.now) a.entry) (option_map (λ v. v.now) b.entry) }
{
    match (a, b) {
        (None, None) => Ordering::Equal,
        (None, Some(_)) => Ordering::Less,
        (Some(_), None) => Ordering::Greater,
        (Some(a), Some(b)) => compare(a, b),
    }
}

fn compare(a: &Value, b: &Value) -> Ordering
    ensures { result ≡ value_cmp a.now b.now }
{
    match (a, b) {
        (Value::Flag(x), Value::Flag(y)) => x.cmp(y),
        (Value::Int(x), Value::Int(y)) => x.cmp(y),
        (Value::Text(x), Value::Text(y)) => x.compare(y.as_str()),
        (Value::Flag(_), _) => Ordering::Less,
        (_, Value::Flag(_)) => Ordering::Greater,
        (Value::Int(_), _) => Ordering::Less,
        (_, Value::Int(_)) => Ordering::Greater,
    }
}

/// States the laws of `order` for those who sort by it, and does nothing.
pub fn order_laws()
    ensures total { OrderIsTotal }
    ensures ties { TiesAreEqual }
{}
