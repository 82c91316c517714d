//! The digest of a collection: the SHA-256 in lower-case hex of the texts of all its states,
//! tombstones too, by rising key, each followed by a line feed. Two collections of the same states
//! have the same one. Revisions, write times and the name have no part in it.
#![tactic(auto)]

ghost use Rattle.std.specs.Prelude.{◌≡◌, ◌++◌, List, ℕ, IfOk, OnOk, string_bytes};
ghost use Rattle.sha2.specs.Hashers.{Holds256};
ghost use Rattle.rx_digest.specs.Digest.{state_line, states_text, digest_of};

use rx_collection::{All, Collection};
use rx_value::{RxText, State, write_state};
use sha2::{Digest, Sha256};
use std::alloc::{AllocError, Global};

/// The digest of a collection. One state's text is in memory at a time.
#[tactic(auto, unfolding(crate::specs::Digest::digest_of))]
pub fn digest(alloc: Global, collection: &Collection) -> Result<RxText, AllocError>
    ensures { IfOk result (λ t. t ≡ digest_of collection.now.documents) }
{
    let hasher = hash_states(alloc, collection.all())?;
    let digest: [u8; 32] = hasher.finalize();
    RxText::from_string(alloc, hex::encode(alloc, digest)?)
}

// A hasher of the lines of the states of documents.
fn hash_states(alloc: Global, documents: All<'_>) -> Result<Sha256, AllocError>
    ensures { IfOk result (λ h. Holds256 h (states_text documents.entry)) }
{
    let mut hasher = Sha256::new();
    let mut line = String::new(alloc);
    for document in documents {
        add_state(&mut hasher, &mut line, &document.state)?;
    }
    Ok(hasher)
}

// Adds the line of a state to the message, by way of a text that is used again.
fn add_state(hasher: &mut Sha256, line: &mut String, state: &State) -> Result<(), AllocError>
    ensures { OnOk result ((m : List ℕ) → Holds256 hasher.old m
        → Holds256 hasher.new (m ++ state_line state.now)) }
{
    line.clear();
    write_state(line, state)?;
    line.push('\n')?;
    hasher.update(line.as_str());
    Ok(())
}
