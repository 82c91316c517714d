// Indexes as queries read them.
ghost use Rattle.std.specs.Prelude.{◌≡◌, ◌<◌, ◌∷◌, ◌^◌, Some, length, slice_get, option_map};
ghost use Rattle.std.specs.List.Sorted.{IsStrictlySortedBy};
ghost use Rattle.rx_index.specs.ByKey.{by_key, names_between, start_of};
ghost use Rattle.rx_index.specs.Index.{ids_between};
ghost use Rattle.rx_index.specs.Position.{position_cmp};

use crate::bound::Bound;
use crate::index::Index;
use crate::range::Range;
use rx_runs::{MarkedRun, Pairs, Run};
use rx_value::RxText;
use std::marker::Model;

#[derive(Drop)]
enum Keys<'a> {
    ByKey(&'a MarkedRun),
    Kept(&'a Index),
}

/// An index, lent: one that is kept, or the one by the primary key alone, whose keys a collection
/// has anyway.
#[derive(Drop)]
pub struct IndexView<'a> {
    keys: Keys<'a>,
}

impl<'a> Model for IndexView<'a> {
    ghost use Rattle.rx_index.specs.ByKey.{lent};
    ghost use Rattle.rx_index.specs.Index.{Indexed};

    ghost Value = { Indexed };

    ghost view = { λ v. lent v.keys };
}

impl<'a> IndexView<'a> {
    fn by_key(keys: &'a MarkedRun) -> IndexView<'a>
        ensures { result ≡ by_key keys.entry.now }
    {
        IndexView {
            keys: Keys::ByKey(keys),
        }
    }

    fn kept(index: &'a Index) -> IndexView<'a>
        ensures { result ≡ index.entry.now }
    {
        IndexView {
            keys: Keys::Kept(index),
        }
    }

    pub fn fields(&self) -> &'a [RxText]
        ensures { result.now ≡ self.now.fields }
    {
        match &self.keys {
            Keys::ByKey(_) => &[],
            Keys::Kept(index) => index.fields(),
        }
    }

    /// The primary keys of the keys between two bounds, in the keys' order. There are none where
    /// `low` stands after `high`.
    pub fn range(&self, low: &Bound, high: &Bound) -> Range<'a>
        ensures ids { result ≡ ids_between low.now high.now self.now.keys }
        ensures rising { IsStrictlySortedBy position_cmp self.now.keys }
        ensures fits { length result < 2 ^ 63 }
    {
        match &self.keys {
            Keys::ByKey(keys) => range_by_key(keys, low, high),
            Keys::Kept(index) => index.range(low, high),
        }
    }
}

fn range_by_key<'a>(keys: &'a MarkedRun, low: &Bound, high: &Bound) -> Range<'a>
    ensures ids { result ≡ ids_between low.now high.now (by_key keys.entry.now).keys }
    ensures rising { IsStrictlySortedBy position_cmp (by_key keys.entry.now).keys }
    ensures fits { length result < 2 ^ 63 }
{
    let live = names_between(keys.plain(), low.start(false), high.start(false));
    let gone = names_between(keys.marked(), low.start(true), high.start(true));
    Range::of_names(live, gone)
}

fn names_between<'a>(names: &'a Run<u32>, low: Option<&[u8]>, high: Option<&[u8]>) -> Pairs<'a, u32>
    ensures names { result ≡ names_between names.entry.now (option_map (λ t. t.now) low.entry)
        (option_map (λ t. t.now) high.entry) }
{
    let Some(low) = low else {
        return Pairs::none();
    };
    match high {
        Some(high) => names.between(low, high),
        None => names.from(low),
    }
}

/// The indexes of a collection, lent: the one by the primary key alone, and then those that are
/// kept.
#[derive(Drop)]
pub struct Indexes<'a> {
    keys: &'a MarkedRun,
    kept: &'a [Index],
}

impl<'a> Model for Indexes<'a> {
    ghost use Rattle.std.specs.Prelude.{List, ◌∷◌};
    ghost use Rattle.rx_index.specs.ByKey.{by_key};
    ghost use Rattle.rx_index.specs.Index.{Indexed};

    ghost Value = { List Indexed };

    ghost view = { λ i. by_key i.keys.now ∷ i.kept.now };
}

impl<'a> Indexes<'a> {
    pub fn new(keys: &'a MarkedRun, kept: &'a [Index]) -> Indexes<'a>
        ensures { result ≡ by_key keys.entry.now ∷ kept.entry.now }
    {
        Indexes { keys, kept }
    }

    /// How many there are.
    pub fn len(&self) -> usize
        ensures { result ≡ length self.now }
    {
        self.kept.len() + 1
    }

    pub fn at(&self, i: usize) -> IndexView<'a>
        requires { i < length self.now }
        ensures { slice_get self.now i ≡ Some result }
    {
        if i == 0 {
            IndexView::by_key(self.keys)
        } else {
            IndexView::kept(&self.kept[i - 1])
        }
    }
}
