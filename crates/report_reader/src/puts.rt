//! What became of a packet at its lane.
ghost use Rattle.std.specs.Prelude.{◌≡◌, Option};
ghost use Rattle.steer_base.specs.declared.put.DropCause.{DropCause as ACause};
ghost use Rattle.steer_base.specs.declared.put.Put.{Put as APut};
ghost use Rattle.report_reader.specs.Seen.{ShowsCause, ShowsPut, put_end as end_of};

use crate::fields::Fields;
use steer_base::{DropCause, Put};

// Why a packet was dropped.
fn cause(fields: &Fields<'_>) -> DropCause
    ensures { (c : ACause) → ShowsCause fields.now c → result ≡ c }
{
    if fields.at(13) == b"flow".as_slice() {
        DropCause::Flow(fields.word(14))
    } else {
        DropCause::Full
    }
}

/// The result of the put that the values of a packet show, if there was one.
pub fn put(fields: &Fields<'_>) -> Option<Put>
    ensures { (o : Option APut) → ShowsPut fields.now o → result ≡ o }
{
    let first = fields.at(9);
    if first == b"-".as_slice() {
        return None;
    }
    if first == b"drop".as_slice() {
        return Some(Put::Dropped {
            number: fields.word(10),
            accepted: fields.word(11),
            pulled: fields.word(12),
            cause: cause(fields),
        });
    }
    Some(Put::At(fields.word(9)))
}

/// How many values there are before the word of the application.
pub fn put_end(put: Option<Put>) -> usize
    ensures { result ≡ end_of put }
{
    match put {
        None => 10,
        Some(Put::At(_)) => 10,
        Some(Put::Dropped { cause, .. }) => match cause {
            DropCause::Full => 13,
            DropCause::Flow(_) => 15,
        },
    }
}
