//! The fields of a line, or of a line of a known kind its values.
ghost use Rattle.std.specs.Prelude.{◌≡◌, ◌≤◌, ◌<◌, ◌^◌, ℕ, List, [], Option, decimal, drop};
ghost use Rattle.std.specs.Prelude.{length, map, slice_index_or, take};
ghost use Rattle.std.specs.List.{All};
ghost use Rattle.history.specs.Ranges.{FitsIn};
ghost use Rattle.report.specs.Lines.{or_dash};
ghost use Rattle.report_reader.specs.Ends.{Going};
ghost use Rattle.report_reader.specs.Values.{HasSteps, IsNumber, values_of};
ghost use Rattle.report_reader.specs.declared.fields.TheConstants.{MOST_FIELDS};

use crate::ends::{FieldEnd, field_end};
use std::marker::Model;

/// The most fields of a line that are kept. No line of a report has more.
pub const MOST_FIELDS: usize = 40;

// A field, and the number that it is.
#[derive(Clone, Copy, Drop)]
struct Field<'a> {
    text: &'a [u8],
    number: u64,
}

/// The fields of a line. Contracts see the list of their texts.
#[derive(Drop)]
pub struct Fields<'a> {
    fields: [Field<'a>; MOST_FIELDS],
    count: usize,
}

impl<'a> Model for Fields<'a> {
    ghost use Rattle.std.specs.Prelude.{ℕ, ◌≤◌, List, map, take};
    ghost use Rattle.std.specs.List.{All};
    ghost use Rattle.report_reader.specs.Values.{IsNumber};

    ghost Value = { List (List ℕ) };

    ghost view = { λ f. map (λ field. field.text.now) (take f.count f.fields) };

    ghost invariant = { λ f. (f.count ≤ 40)
        × All (λ field. IsNumber field.text.now field.number) (take f.count f.fields) };
}

// What was read of a line.
#[derive(Clone, Copy, Debug, PartialEq, Eq, Drop)]
struct Line {
    // The number of its values.
    count: usize,
    // Where the next line begins.
    next: usize,
}

// The bytes of the word before the value of this number, and 0 where there is none.
fn step_at(steps: &[u8], index: usize) -> usize
    ensures { result ≡ slice_index_or steps.now index 0 }
{
    match steps.get(index) {
        Some(step) => usize::from(*step),
        None => 0,
    }
}

// Puts the values of the line that begins at a place into the first fields.
fn fill<'a>(fields: &mut [Field<'a>; MOST_FIELDS], bytes: &'a [u8], at: usize, steps: &[u8]) -> Line
    requires { at ≤ length bytes.now }
    ensures few { result.count ≤ MOST_FIELDS }
    ensures numbers { All (λ f. IsNumber f.text.now f.number) (take result.count fields.new) }
    ensures values { (all : List (List ℕ)) (rest : List ℕ) → length all ≤ 40
        → Going bytes.now at [] all rest → HasSteps steps.now all
        → map (λ field. field.text.now) (take result.count fields.new) ≡ values_of steps.now all }
    ensures next { (all : List (List ℕ)) (rest : List ℕ) → length all ≤ 40
        → Going bytes.now at [] all rest → HasSteps steps.now all
        → drop result.next bytes.now ≡ rest }
    ensures within { result.next ≤ length bytes.now }
    ensures after { at < length bytes.now → at < result.next }
{
    let mut count = 0;
    let mut start = at;
    while start < bytes.len() {
        let step = step_at(steps, count);
        if step > bytes.len() - start {
            let next = bytes.len();
            return Line { count, next };
        }
        let from = start + step;
        let FieldEnd { at: end, number } = field_end(bytes, from);
        if count >= MOST_FIELDS {
            return Line { count, next: end };
        }
        let text = &bytes[from..end];
        fields[count] = Field { text, number };
        count += 1;
        if end == bytes.len() {
            return Line { count, next: end };
        }
        if bytes[end] == b'\n' {
            let next = end + 1;
            return Line { count, next };
        }
        start = end + 1;
    }
    Line { count, next: start }
}

impl<'a> Fields<'a> {
    /// None yet.
    pub fn make() -> Fields<'a>
        ensures { result ≡ [] }
    {
        Fields {
            fields: [Field {
                text: &[],
                number: 0,
            }; MOST_FIELDS],
            count: 0,
        }
    }

    /// The field of this number, and an empty one behind the last.
    pub fn at(&self, index: usize) -> &'a [u8]
        ensures { result.now ≡ slice_index_or self.now index [] }
    {
        if index < self.count {
            self.fields[index].text
        } else {
            &[]
        }
    }

    // The number that a field is.
    fn number(&self, index: usize) -> u64
        ensures { IsNumber (slice_index_or self.now index []) result }
    {
        if index < self.count {
            self.fields[index].number
        } else {
            0
        }
    }

    /// The number of 32 bits that a field is. One that is none is read as some number: what was
    /// read is written again and compared.
    pub fn word(&self, index: usize) -> u32
        ensures { (n : ℕ) → n < 2 ^ 32 → slice_index_or self.now index [] ≡ decimal n
            → result ≡ n }
    {
        (self.number(index) % (1 << 32)) as u32
    }

    /// The number of 8 bits that a field is.
    pub fn byte(&self, index: usize) -> u8
        ensures { (n : ℕ) → n < 2 ^ 8 → slice_index_or self.now index [] ≡ decimal n
            → result ≡ n }
    {
        (self.number(index) % (1 << 8)) as u8
    }

    /// The number of 32 bits, or none for a dash.
    pub fn maybe_word(&self, index: usize) -> Option<u32>
        ensures { (o : Option ℕ) → FitsIn 32 o → slice_index_or self.now index [] ≡ or_dash o
            → result ≡ o }
    {
        if self.at(index) == b"-".as_slice() {
            None
        } else {
            Some(self.word(index))
        }
    }

    /// The number of 8 bits, or none for a dash.
    pub fn maybe_byte(&self, index: usize) -> Option<u8>
        ensures { (o : Option ℕ) → FitsIn 8 o → slice_index_or self.now index [] ≡ or_dash o
            → result ≡ o }
    {
        if self.at(index) == b"-".as_slice() {
            None
        } else {
            Some(self.byte(index))
        }
    }

    /// Takes the fields of the line that begins at a place, and answers where the next line begins.
    /// A line with too many fields is cut.
    pub fn read(&mut self, bytes: &'a [u8], at: usize) -> usize
        requires { at ≤ length bytes.now }
        ensures fields { (all : List (List ℕ)) (rest : List ℕ) → length all ≤ 40
            → Going bytes.now at [] all rest → self.new ≡ all }
        ensures next { (all : List (List ℕ)) (rest : List ℕ) → length all ≤ 40
            → Going bytes.now at [] all rest → drop result bytes.now ≡ rest }
        ensures within { result ≤ length bytes.now }
        ensures after { at < length bytes.now → at < result }
    {
        self.read_values(bytes, at, &[])
    }

    /// Takes the values of the line that begins at a place, and answers where the next line begins.
    /// Before each of the first values a word of so many bytes, with its space, is stepped over,
    /// and none where the number is 0.
    pub fn read_values(&mut self, bytes: &'a [u8], at: usize, steps: &[u8]) -> usize
        requires { at ≤ length bytes.now }
        ensures values { (all : List (List ℕ)) (rest : List ℕ) → length all ≤ 40
            → Going bytes.now at [] all rest → HasSteps steps.now all
            → self.new ≡ values_of steps.now all }
        ensures next { (all : List (List ℕ)) (rest : List ℕ) → length all ≤ 40
            → Going bytes.now at [] all rest → HasSteps steps.now all
            → drop result bytes.now ≡ rest }
        ensures within { result ≤ length bytes.now }
        ensures after { at < length bytes.now → at < result }
    {
        let found = fill(&mut self.fields, bytes, at, steps);
        self.count = found.count;
        found.next
    }
}
