use crate::rule::Rule;
use rx_value::{RxList, RxText};

/// What a schema says. Properties and required names are in rising order, indexes as given.
#[derive(Debug, Drop)]
pub struct Shape {
    pub version: u16,
    pub primary: RxText,
    pub properties: RxList<(RxText, Rule)>,
    pub required: RxList<RxText>,
    pub indexes: RxList<RxList<RxText>>,
}
