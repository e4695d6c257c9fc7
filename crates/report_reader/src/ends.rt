//! Where a field ends, and the number that it is.
ghost use Rattle.std.specs.Prelude.{◌≡◌, ◌≢◌, ◌≤◌, ◌⊎◌, ℕ, List, [], ◌∷◌, false, length, true};
ghost use Rattle.report_reader.specs.Ends.{Going, IsEnd, piece};
ghost use Rattle.report_reader.specs.Values.{IsNumber};

/// Where a field ends.
#[derive(Clone, Copy, Debug, PartialEq, Eq)]
pub struct FieldEnd {
    /// The place behind its last byte.
    pub at: usize,
    /// The number below 2^64 whose decimal digits its bytes are, and some number if they are none.
    pub number: u64,
}

// Whether a byte ends a field.
fn is_stop(byte: u8) -> bool
    ensures yes { result ≡ true → (byte ≡ 32) ⊎ (byte ≡ 10) }
    ensures no { result ≡ false → (byte ≢ 32) × (byte ≢ 10) }
{
    byte == b' ' || byte == b'\n'
}

/// Where the field that begins at this place ends: at the first space or line feed, or where the
/// bytes end. Its number is added up on the way, so its digits are gone through once.
pub fn field_end(bytes: &[u8], at: usize) -> FieldEnd
    requires { at ≤ length bytes.now }
    ensures end { IsEnd bytes.now at result.at }
    ensures number { IsNumber (piece bytes.now at result.at) result.number }
{
    let mut end = at;
    let mut number: u64 = 0;
    while end < bytes.len() {
        let byte = bytes[end];
        if is_stop(byte) {
            return FieldEnd { at: end, number };
        }
        let tenfold = number.wrapping_mul(10);
        number = tenfold.wrapping_add(u64::from(byte)).wrapping_sub(48);
        end += 1;
    }
    FieldEnd { at: end, number }
}

/// The first field of the line that begins at this place.
pub fn first_field(bytes: &[u8], at: usize) -> &[u8]
    requires { at ≤ length bytes.now }
    ensures { (word : List ℕ) (fields : List (List ℕ)) (rest : List ℕ)
        → Going bytes.now at [] (word ∷ fields) rest → result.now ≡ word }
{
    let end = field_end(bytes, at);
    &bytes[at..end.at]
}
