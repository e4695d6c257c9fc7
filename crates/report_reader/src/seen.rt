//! What the values of a packet and those of a reply show.
ghost use Rattle.std.specs.Prelude.{◌≡◌, Option};
ghost use Rattle.steer_base.specs.declared.choice.Choice.{Choice as AChoice};
ghost use Rattle.report_reader.specs.Seen.{ShowsChoice};

use crate::fields::Fields;
use crate::values::why;
use steer_base::Choice;

/// The choice of a lane that values show, with this class.
pub fn choice(fields: &Fields<'_>, class: Option<u32>) -> Option<Choice>
    ensures { (o : Option AChoice) → ShowsChoice fields.now class o → result ≡ o }
{
    let Some(lane) = fields.maybe_byte(7) else {
        return None;
    };
    let Some(why) = why(fields.at(8)) else {
        return None;
    };
    Some(Choice {
        class,
        want: fields.maybe_byte(4),
        head: fields.maybe_word(5),
        tail: fields.maybe_word(6),
        lane,
        why,
    })
}
