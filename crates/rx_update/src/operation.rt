use rx_value::Value;

/// What an operator does to a field.
#[derive(Debug, Drop)]
pub enum Operation {
    /// `$inc`: adds the number; a missing field counts as 0.
    Add(i64),
    /// `$max`: gives the value where the field is missing or less.
    Raise(Value),
    /// `$min`: gives the value where the field is missing or greater.
    Lower(Value),
    /// `$set`: gives the value.
    Set(Value),
    /// `$unset`: takes the field away.
    Unset,
}
