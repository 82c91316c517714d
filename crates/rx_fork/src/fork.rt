ghost use Rattle.std.specs.Prelude.{◌≡◌, filter, length, option_map};
ghost use Rattle.rx_replication.specs.Known.{is_pending, is_state, pending, NonePendingBelow};

use rx_collection::{Collection, Page};
use rx_document::Stored;
use rx_meta::Meta;
use rx_value::State;

/// The fork's side of one replication.
#[derive(Drop)]
pub struct Fork<'a> {
    pub meta: &'a Meta,
}

impl Fork<'_> {
    /// How many documents are to be pushed. Those up to the checkpoint aren't looked at.
    pub fn pending(&self, collection: &Collection) -> usize
        requires { NonePendingBelow collection.now.documents self.now.meta.now.known
            self.now.meta.now.up }
        ensures { result ≡ length (pending collection.now.documents self.now.meta.now.known) }
    {
        count_pending(
            &self.meta,
            collection.page(self.meta.up(), collection.len()),
        )
    }
}

fn count_pending(meta: &Meta, page: Page<'_>) -> usize
    ensures { result ≡ length (filter (is_pending meta.now.known) page.entry) }
{
    page.filter(|held| is_pending(meta, held)).count()
}

fn is_pending(meta: &Meta, held: &Stored) -> bool
    ensures { result ≡ is_pending meta.now.known held.now }
{
    !is_state(meta.known(held.state.key.as_str()), &held.state)
}

// Whether there is that state.
pub(crate) fn is_state(held: Option<&State>, state: &State) -> bool
    ensures { result ≡ is_state (option_map (λ s. s.now) held.entry) state.now }
{
    match held {
        Some(held) => *held == *state,
        None => false,
    }
}
