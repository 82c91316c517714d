ghost use Rattle.std.specs.Prelude.{◌≡◌, ℕ, List, Some, IfSome, option_map};
ghost use Rattle.rx_value.specs.Named.{named, AreRising};
ghost use Rattle.rx_document.specs.Documents.{Documents};

use crate::stored::Stored;

/// A finite map from keys to documents, tombstones too.
pub trait Lookup {
    /// The documents with their keys, by rising key.
    ghost documents: { Self → Documents };

    /// The document of that key.
    fn lookup(&self, id: &str) -> Option<&Stored>
        ensures value { option_map (λ d. d.now) result ≡ named (documents self.now) id.now }
        ensures rising { AreRising (documents self.now) };

    /// The document in that slot, if there is one. Which document has which slot is the map's own
    /// affair, but each stands under its key.
    fn at(&self, slot: u32) -> Option<&Stored>
        ensures held { IfSome result
            (λ d. named (documents self.now) d.now.state.key ≡ Some d.now) }
        ensures rising { AreRising (documents self.now) };
}
