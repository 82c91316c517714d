ghost use Rattle.std.specs.Prelude.{◌≡◌, IfOk, map, filter, drop};
ghost use Rattle.rx_query.specs.QuerySpec.{asked};
ghost use Rattle.rx_query.specs.Result.{is_due, AreKeyed, at_most, result_of};

use crate::query::Query;
use rx_document::Stored;
use std::alloc::{AllocError, Global};

impl Query {
    /// The result over documents of distinct keys: the live matching ones in the order of the
    /// query, without the first `skip`, cut at `limit`. The rows are lent.
    pub fn scratch<'a>(
        &self,
        alloc: Global,
        docs: &[&'a Stored],
    ) -> Result<Vec<&'a Stored>, AllocError>
        requires { AreKeyed (asked self.now).primary (map (λ d. d.now) docs.now) }
        ensures { IfOk result (λ rows. map (λ r. r.now) rows.items
            ≡ result_of (asked self.now) (map (λ d. d.now) docs.now)) }
    {
        let mut rows = self.due(alloc, docs)?;
        rows.sort_unstable_by(|a, b| self.before(&a.state.fields, &b.state.fields));
        skip_rows(&mut rows, self.skip as usize);
        limit_rows(&mut rows, self.limit);
        Ok(rows)
    }

    fn due<'a>(&self, alloc: Global, docs: &[&'a Stored]) -> Result<Vec<&'a Stored>, AllocError>
        ensures { IfOk result (λ rows. rows.items
            ≡ filter (λ d. is_due (asked self.now) d.now) docs.now) }
    {
        docs.iter()
            .copied()
            .filter(|doc| self.is_due(doc))
            .collect(alloc)
    }

    /// Whether a document is live, and asked for.
    pub fn is_due(&self, doc: &Stored) -> bool
        ensures { result ≡ is_due (asked self.now) doc.now }
    {
        !doc.state.deleted && self.matches(&doc.state.fields)
    }
}

fn skip_rows<T: Drop>(rows: &mut Vec<T>, skip: usize)
    ensures { rows.new.items ≡ drop skip rows.old.items }
{
    if rows.len() <= skip {
        rows.clear();
    } else {
        rows.rotate_left(skip);
        rows.truncate(rows.len() - skip);
    }
}

fn limit_rows<T: Drop>(rows: &mut Vec<T>, limit: Option<u64>)
    ensures { rows.new.items ≡ at_most limit rows.old.items }
{
    if let Some(limit) = limit {
        rows.truncate(limit as usize);
    }
}
