//! A lemma on the definitions of this crate: a function without code whose contract states it.
ghost use Rattle.std.specs.Prelude.{ℕ, ◌≡◌, ◌∷◌, ◌++◌, [], List};
ghost use Rattle.sock_flow_table.specs.Sockets.{Note, after_notes, last_noted, noted, wanted};

/// Lemma: since the table was cleared, a hash finds the processor that was last noted for a hash
/// with the same entry, and none if there was no such note or the table has no entries.
pub fn the_last_note_is_found()
    ensures found { (size : ℕ) (notes : List Note) (hash : ℕ)
        → wanted (after_notes size notes) hash ≡ last_noted size notes hash }
    ensures one_more { (size : ℕ) (notes : List Note) (note : Note)
        → noted (after_notes size notes) note.hash note.cpu
        ≡ after_notes size (notes ++ note ∷ []) }
{}
