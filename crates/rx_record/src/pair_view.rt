use crate::value_view::ValueView;

/// A field, lent.
#[derive(Clone, Copy, Debug)]
pub struct PairView<'a> {
    pub name: &'a str,
    pub value: ValueView<'a>,
}
