//! The sections of a report: lines of one kind, one after the other.
ghost use Rattle.std.specs.Prelude.{◌≡◌, ◌≤◌, ◌+◌, ◌*◌, ℕ, List, length, IfOk};
ghost use Rattle.report_reader.specs.Sections.{Reads};
ghost use Rattle.report_reader.specs.Values.{HasSteps, values_of};

use crate::ends::first_field;
use crate::fields::Fields;
use std::alloc::Global;
use steer_base::OutOfMemory;

/// A kind of lines.
pub trait Section<T> {
    /// The first field of each line.
    ghost first: { List ℕ };

    /// The fewest bytes of a line.
    ghost least: { ℕ };

    /// Whether the fields of a line show an item.
    ghost shows: { T → List (List ℕ) → Type 0 };

    /// Whether the values of a line show an item.
    ghost gives: { T → List (List ℕ) → Type 0 };

    /// The first field of each line.
    fn word(&self) -> &'static [u8]
        ensures { result.now ≡ first };

    /// The fewest bytes of a line, with its line feed.
    fn shortest(&self) -> usize
        ensures { result ≡ least };

    /// The bytes of the words before the first values of a line, each with its space, and 0 where
    /// none stands before a value.
    fn steps(&self) -> &'static [u8]
        ensures { (item : T) (fields : List (List ℕ)) → shows item fields
            → HasSteps result.now fields × gives item (values_of result.now fields) };

    /// What a line with these values shows.
    fn item(&self, values: &Fields<'_>) -> T
        ensures { (item : T) → gives item values.now → result ≡ item };
}

/// What the lines of a section show, and where the next section begins.
#[derive(Drop)]
pub struct Part<T: Drop> {
    /// What was read.
    pub items: Vec<T>,
    /// Where the next section begins.
    pub next: usize,
}

/// Reads the lines of a section, at most so many, from a place on. A line with fewer bytes than
/// the shortest of its kind ends the section.
pub fn read_section<T: Drop, S: Section<T>>(
    alloc: Global,
    bytes: &[u8],
    at: usize,
    most: usize,
    of: &S,
) -> Result<Part<T>, OutOfMemory>
    requires { at ≤ length bytes.now }
    ensures within { IfOk result (λ part. part.next ≤ length bytes.now) }
    ensures few { IfOk result (λ part. length part.items.items ≤ most) }
    ensures fit { IfOk result
        (λ part. length part.items.items * S.least + at ≤ part.next) }
    ensures reads { IfOk result
        (λ part. Reads S.first S.least S.shows bytes.now at most part.items.items part.next) }
{
    let mut values = Fields::make();
    let mut items = Vec::new(alloc);
    let mut next = at;
    while next < bytes.len() {
        if items.len() == most {
            return Ok(Part { items, next });
        }
        let is_own = first_field(bytes, next) == of.word();
        if !is_own {
            return Ok(Part { items, next });
        }
        let after = values.read_values(bytes, next, of.steps());
        if after - next < of.shortest() {
            return Ok(Part { items, next });
        }
        items.push(of.item(&values))?;
        next = after;
    }
    Ok(Part { items, next })
}
