//! Whether two values are the same.
ghost use Rattle.std.specs.Prelude.{◌≡◌, true};

// Whether two numbers, or none, are the same.
pub fn same_words(a: Option<u32>, b: Option<u32>) -> bool
    ensures yes { result ≡ true → a ≡ b }
    ensures no { a ≡ b → result ≡ true }
{
    match a {
        None => b.is_none(),
        Some(x) => match b {
            None => false,
            Some(y) => x == y,
        },
    }
}

// Whether two small numbers, or none, are the same.
pub fn same_bytes(a: Option<u8>, b: Option<u8>) -> bool
    ensures yes { result ≡ true → a ≡ b }
    ensures no { a ≡ b → result ≡ true }
{
    match a {
        None => b.is_none(),
        Some(x) => match b {
            None => false,
            Some(y) => x == y,
        },
    }
}
