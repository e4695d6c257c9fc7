//! Paths.
ghost use Rattle.std.specs.Prelude.{◌≡◌, ◌∷◌, ◌++◌, IfOk};

use std::alloc::{AllocError, Global};
use steer_base::List;

/// A path with a slash and a segment in front.
pub fn joined(alloc: Global, segment: &str, path: &[u8]) -> Result<List<u8>, AllocError>
    ensures { IfOk result (λ joined. joined ≡ 47 ∷ (segment.now ++ path.now)) }
{
    let mut bytes = Vec::with_capacity(alloc, 1)?;
    bytes.push(b'/')?;
    bytes.extend_from_slice(segment.as_bytes())?;
    bytes.extend_from_slice(path)?;
    Ok(List::from_vec(bytes))
}
