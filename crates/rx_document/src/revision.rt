ghost use Rattle.std.specs.Prelude.{◌≡◌, IfOk};
ghost use Rattle.rx_document.specs.Revision.{revision_text};

use rx_value::RxText;
use std::alloc::{AllocError, Global};

/// How often a document was written, counted from 1, and the token of the collection that wrote it.
#[derive(Debug, Drop)]
pub struct Revision {
    pub height: u64,
    pub token: RxText,
}

impl Revision {
    /// As users see it, `3-token`.
    pub fn text(&self, alloc: Global) -> Result<RxText, AllocError>
        ensures { IfOk result (λ t. t ≡ revision_text self.now) }
    {
        let text = format!(in alloc; "{}-{}", self.height, self.token.as_str())?;
        Ok(RxText::from_string(alloc, text)?)
    }
}
