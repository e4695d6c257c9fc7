//! The lengths of the taps' texts are within their types.
ghost use Rattle.std.specs.Prelude.{◌<◌, ◌^◌, length};
ghost use Rattle.report.specs.Laws.{TextsFit};

use taps::TapText;

// Lemma: the length of a text has 64 bits.
fn text_fits(text: &TapText)
    ensures { length text.now < 2 ^ 64 }
{
    let _ = text.bytes.len();
}

/// Lemma: the number of the taps' texts and the length of each have 64 bits, as in every program.
/// It changes nothing; code never needs to call it.
pub fn texts_fit(texts: &[TapText])
    ensures { TextsFit texts.now }
{
    for text in texts {
        text_fits(text);
    }
}
