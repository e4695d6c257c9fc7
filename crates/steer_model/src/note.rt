//! The state of a poller apart from the packet that it holds.
ghost use Rattle.std.specs.Prelude.{◌≡◌};
ghost use Rattle.steer_model.specs.State.Notes.{asking, is_asking, is_nothing};

use steer_base::Filter;

/// The state of a poller apart from the packet that it holds.
#[derive(Clone, Copy, Debug, PartialEq, Eq)]
pub enum Note {
    /// Nothing: before its look, and between its weighing and its put.
    Nothing,
    /// It looked at the socket flow table and saw this processor, if there was one.
    Looked(Option<u8>),
    /// Its packet was accepted at a processor to which its class moved; it asks for this filter
    /// next.
    Asking(Filter),
}

impl Note {
    /// The note that asks for a filter, if there is one to ask for.
    pub fn asking(filter: Option<Filter>) -> Note
        ensures { result ≡ asking filter }
    {
        match filter {
            Some(filter) => Note::Asking(filter),
            None => Note::Nothing,
        }
    }

    /// Whether a filter is asked for next.
    pub fn is_asking(&self) -> bool
        ensures { result ≡ is_asking self.now }
    {
        matches!(self, Note::Asking(_))
    }

    /// Whether nothing is kept.
    pub fn is_nothing(&self) -> bool
        ensures { result ≡ is_nothing self.now }
    {
        matches!(self, Note::Nothing)
    }
}
