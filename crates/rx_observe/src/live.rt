ghost use Rattle.std.specs.Prelude.{◌≡◌, [], None, true, false, is_some, IfSome, IfOk, OnOk, OnErr, option_map, length, map};
ghost use Rattle.std.specs.Map.{values_of};
ghost use Rattle.rx_value.specs.Named.{named};
ghost use Rattle.rx_query.specs.QuerySpec.{asked};
ghost use Rattle.rx_collection.specs.Commit.{AreNext, with_rows};
ghost use Rattle.rx_query.specs.Result.{result_of};
ghost use Rattle.rx_observe.specs.Observing.{AllRight, HaveDistinctNames, AllCold, each, put_all, with_queries, new_watch, and_query, without, settled, cooled};
ghost use Rattle.rx_observe.specs.Rows.{emissions_due};
ghost use Rattle.rx_observe.specs.Watched.{IsRight};

use crate::emission::{Emission, Unseen, emit_all, look_all};
use crate::front::{Front, align};
use crate::full::{count_by, count_in, find_by, find_in, rows_of};
use crate::indexes::indexes_of;
use crate::observed::Observed;
use crate::step::put_row;
use rx_collection::{Collection, Holder};
use rx_diagram::Diagram;
use rx_document::Stored;
use rx_index::Index;
use rx_query::Query;
use rx_value::RxText;
use std::alloc::{AllocError, Global};
use std::marker::Model;
use std::rc::Rc;

/// A collection with its indexes, and its observed queries by name, in the order of observing.
/// Where memory ran out in the midst of a commit it is broken: nothing more may be asked of it.
#[derive(Drop)]
pub struct Live {
    alloc: Global,
    collection: Collection,
    /// One for each of the schema's. The one by the primary key alone is the collection's own.
    indexes: Vec<Index>,
    queries: Vec<(RxText, Observed)>,
    /// One for each query, in the same order; those of the last queries may be missing.
    fronts: Vec<Front>,
    /// A share of the one diagram.
    diagram: Rc<Diagram>,
    broken: bool,
}

impl Model for Live {
    ghost use Rattle.rx_observe.specs.Observing.{Observing};
    ghost use Rattle.rx_observe.specs.Codes.{observing_code};

    ghost Value = { Observing };

    ghost coded = { observing_code };

    ghost use Rattle.rx_observe.specs.Lived.{observing, IsWholeUnlessBroken};

    ghost view = { observing };

    ghost invariant = { IsWholeUnlessBroken };
}

impl Live {
    pub fn new(
        alloc: Global,
        collection: Collection,
        diagram: Rc<Diagram>,
    ) -> Result<Live, AllocError>
        ensures { IfOk result
            (λ l. l ≡ record { collection = collection; queries = []; broken = false }) }
    {
        let indexes = indexes_of(alloc, &collection)?;
        Ok(Live {
            alloc,
            collection,
            indexes,
            queries: Vec::new(alloc),
            fronts: Vec::new(alloc),
            diagram,
            broken: false,
        })
    }

    /// Observes a query after all others. It runs once, which isn't counted.
    pub fn observe(&mut self, name: RxText, mut query: Query) -> Result<(), AllocError>
        requires whole { self.old.broken ≡ false }
        requires new { named self.old.queries name ≡ None }
        requires keyed { (asked query).primary ≡ self.old.collection.schema.primary }
        ensures ok { OnOk result (self.new ≡ with_queries self.old
            (and_query self.old.queries name
            (new_watch (asked query) self.old.collection.documents))) }
        ensures err { OnErr result (self.new ≡ self.old) }
    {
        let indexes = self.indexes.as_slice();
        let mut front = Front::none(self.alloc);
        let rows = rows_of(
            self.alloc,
            &self.collection,
            indexes,
            &mut query,
            &mut front,
        )?;
        let mut observed = Observed::new(self.alloc, query);
        observed.fill(rows);
        align(self.alloc, &mut self.fronts, self.queries.len())?;
        self.fronts.push(front)?;
        self.queries.push((name, observed))?;
        Ok(())
    }

    /// Observes queries that were released, where none is observed yet.
    pub fn adopt(&mut self, queries: Vec<(RxText, Observed)>)
        requires whole { self.old.broken ≡ false }
        requires none { self.old.queries ≡ [] }
        requires names { HaveDistinctNames queries.items }
        requires cold { AllCold queries.items }
        requires right { AllRight self.old.collection queries.items }
        ensures { self.new ≡ with_queries self.old queries.items }
    {
        self.fronts.clear();
        self.queries = queries;
    }

    pub fn observed(&self, name: &str) -> Option<&Observed>
        ensures value { option_map (λ o. o.now) result ≡ named self.now.queries name.now }
        ensures right { self.now.broken ≡ false
            → IfSome result (λ o. IsRight self.now.collection o.now) }
        ensures names { self.now.broken ≡ false → HaveDistinctNames self.now.queries }
    {
        find_query(self.queries.as_slice(), name)
    }

    /// Observes the query of that name no more, and tells whether it was observed.
    pub fn unobserve(&mut self, name: &str) -> bool
        requires whole { self.old.broken ≡ false }
        ensures result { result ≡ is_some (named self.old.queries name.now) }
        ensures value { self.new ≡ with_queries self.old (without name.now self.old.queries) }
        ensures gone { named self.new.queries name.now ≡ None }
    {
        let was_observed = self.observed(name).is_some();
        self.fronts.clear();
        remove_query(&mut self.queries, name);
        was_observed
    }

    /// The documents of a query's result, lent.
    pub fn find<'a>(&'a self, alloc: Global, query: &Query) -> Result<Vec<&'a Stored>, AllocError>
        requires keyed { (asked query.now).primary ≡ self.now.collection.schema.primary }
        ensures { IfOk result (λ documents. map (λ d. d.now) documents.items
            ≡ result_of (asked query.now) (values_of self.now.collection.documents)) }
    {
        // The indexes of one that is broken hold nothing to go by.
        if self.broken {
            return find_in(alloc, &self.collection, query);
        }
        find_by(alloc, &self.collection, self.indexes.as_slice(), query)
    }

    /// How many documents a query's result has.
    pub fn count(&self, alloc: Global, query: &Query) -> Result<u64, AllocError>
        requires keyed { (asked query.now).primary ≡ self.now.collection.schema.primary }
        ensures { IfOk result (λ n. n
            ≡ length (result_of (asked query.now) (values_of self.now.collection.documents))) }
    {
        if self.broken {
            return Ok(count_in(&self.collection, query));
        }
        count_by(alloc, &self.collection, self.indexes.as_slice(), query)
    }

    /// What is to be shown: the rows of each query that differ from those emitted last. They are
    /// those emitted last from then on.
    pub fn emissions(&mut self) -> Result<Vec<Emission>, AllocError>
        requires whole { self.old.broken ≡ false }
        ensures due { IfOk result
            (λ all. all.items ≡ emissions_due self.old.collection self.old.queries) }
        ensures ok { OnOk result
            (self.new
            ≡ with_queries self.old (each (settled self.old.collection) self.old.queries)) }
        ensures none_left { OnOk result (emissions_due self.new.collection self.new.queries ≡ []) }
        ensures err { OnErr result (self.new ≡ self.old) }
    {
        let mut unseen = Unseen {
            emissions: Vec::new(self.alloc),
            places: Vec::new(self.alloc),
        };
        look_all(self.alloc, &mut self.queries, &mut unseen)?;
        let Unseen { emissions, places } = unseen;
        emit_all(&mut self.queries, places);
        Ok(emissions)
    }

    /// The observed queries, made cold, in the order of observing. Where nothing is left to be
    /// emitted, another collection with the same documents may adopt them.
    pub fn release(self) -> Vec<(RxText, Observed)>
        requires whole { self.broken ≡ false }
        ensures value { result.items ≡ each cooled self.queries }
        ensures names { HaveDistinctNames result.items }
        ensures cold { AllCold result.items }
        ensures right { emissions_due self.collection self.queries ≡ []
            → AllRight self.collection result.items }
    {
        let Live { mut queries, .. } = self;
        cool_all(&mut queries);
        queries
    }
}

fn find_query<'a>(queries: &'a [(RxText, Observed)], name: &str) -> Option<&'a Observed>
    ensures { option_map (λ o. o.now) result ≡ named queries.now name.now }
{
    for (known, observed) in queries {
        if name == known.as_str() {
            return Some(observed);
        }
    }
    None
}

fn remove_query(queries: &mut Vec<(RxText, Observed)>, name: &str)
    ensures { queries.new.items ≡ without name.now queries.old.items }
{
    queries.retain(|query| name != query.0.as_str());
}

fn cool_all(queries: &mut Vec<(RxText, Observed)>)
    ensures { queries.new.items ≡ each cooled queries.old.items }
{
    for i in 0..queries.len() {
        let query = &mut queries[i];
        query.1.cool();
    }
}

impl Holder for Live {
    ghost held = { λ l. l.collection };

    ghost is_broken = { λ l. l.broken };

    ghost written = { put_all };

    fn collection(&self) -> &Collection {
        &self.collection
    }

    fn into_collection(self) -> Collection {
        self.collection
    }

    fn put_rows(&mut self, rows: Vec<Stored>) -> Result<(), AllocError>
        requires whole { self.old.broken ≡ false }
        requires next { AreNext self.old.collection rows.items }
        ensures rows { OnOk result
            (self.new.collection ≡ with_rows self.old.collection rows.items) }
        ensures whole { OnOk result (self.new.broken ≡ false) }
        ensures broken { OnErr result (self.new.broken ≡ true) }
        ensures written { OnOk result (self.new ≡ put_all self.old rows.items) }
    {
        self.broken = true;
        for row in rows {
            put_row(
                self.alloc,
                &self.diagram,
                &mut self.collection,
                &mut self.indexes,
                &mut self.queries,
                &mut self.fronts,
                row,
            )?;
        }
        self.broken = false;
        Ok(())
    }
}
