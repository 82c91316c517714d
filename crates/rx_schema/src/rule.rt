/// What numbers a property takes: all where nothing is given.
#[derive(Debug, Clone, Copy)]
pub struct Bounds {
    pub minimum: Option<i64>,
    pub maximum: Option<i64>,
    pub multiple_of: Option<i64>,
}

/// What values a property takes: flags, numbers within bounds, or texts of at most so many code
/// points.
#[derive(Debug, Clone, Copy)]
pub enum Rule {
    Flag,
    Int(Bounds),
    Text(u32),
}
