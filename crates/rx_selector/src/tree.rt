use rx_value::{RxText, Value};

/// The operators that compare a field with one value.
#[derive(Debug, Clone, Copy)]
pub enum Compare {
    Eq,
    Gt,
    Gte,
    Lt,
    Lte,
}

/// What an operator asks of a field.
#[derive(Drop)]
pub enum Test {
    Compared(Compare, Value),
    Differs(Value),
    OneOf(Vec<Value>),
    NoneOf(Vec<Value>),
    Exists(bool),
    /// A divisor and the remainder.
    Remainder(i64, i64),
    Not(Vec<Test>),
}

/// A member of a selector. A selector within a list is an `All` of its members.
#[derive(Drop)]
pub enum Clause {
    All(Vec<Clause>),
    Any(Vec<Clause>),
    Nor(Vec<Clause>),
    Field(RxText, Vec<Test>),
}
