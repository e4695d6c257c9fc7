//! Files in memory, of which one at a time is read from the beginning.
ghost use Rattle.std.specs.Prelude.{◌≡◌, ◌<◌, ◌+◌, ◌^◌, ◌++◌, ℕ, List, Option, [], min, take};
ghost use Rattle.std.specs.Prelude.{length, is_some, unwrap_or, IfSome, None};
ghost use Rattle.outside_io.specs.Folder.{bytes_from, bytes_of, place_of};

/// Named files with their bytes. If a name occurs more than once, its first file counts.
#[derive(Drop)]
pub struct Folder {
    files: Vec<(String, Vec<u8>)>,
    begun: Option<usize>,
    at: usize,
}

impl Folder {
    ghost use Rattle.outside_io.specs.Folder.{asked_in, held_in, left_in};

    /// A folder with no file begun.
    pub fn make(files: Vec<(String, Vec<u8>)>) -> Self
        ensures held { held_in result ≡ bytes_of files.items }
        ensures left { left_in result ≡ [] }
    {
        Folder {
            files,
            begun: None,
            at: 0,
        }
    }

    /// Begins the named file, and returns whether it exists. If it does not, no file is begun.
    pub fn begin(&mut self, name: &str) -> bool
        ensures held { held_in self.new ≡ held_in self.old }
        ensures found { result ≡ is_some (held_in self.old name.now) }
        ensures left { left_in self.new ≡ unwrap_or (held_in self.old name.now) [] }
        ensures asked { IfSome (asked_in self.new) (λ asked. asked ≡ name.now) }
    {
        self.begun = find_name(&self.files, name);
        self.at = 0;
        self.begun.is_some()
    }

    /// Closes the file that was begun.
    pub fn stop(&mut self)
        ensures held { held_in self.new ≡ held_in self.old }
        ensures left { left_in self.new ≡ [] }
        ensures asked { asked_in self.new ≡ None }
    {
        self.begun = None;
    }

    /// Moves as many of the bytes left as fit to the front of the buffer, and returns their number.
    pub fn read(&mut self, buf: &mut [u8]) -> usize
        ensures held { held_in self.new ≡ held_in self.old }
        ensures count { result ≡ min (length buf.old) (length (left_in self.old)) }
        ensures left { left_in self.old ≡ take result buf.new ++ left_in self.new }
        ensures asked { asked_in self.new ≡ asked_in self.old }
    {
        let count = copy_rest(&self.files, self.begun, self.at, buf);
        self.at += count;
        count
    }
}

// The index of the first file with this name.
fn find_name(files: &[(String, Vec<u8>)], name: &str) -> Option<usize>
    ensures { result ≡ place_of files.now name.now }
{
    files.iter().position(|file| file.0.as_str() == name)
}

// Copies the bytes from an offset on, as many as fit, and returns their number.
fn copy_rest(files: &[(String, Vec<u8>)], place: Option<usize>, at: usize, buf: &mut [u8]) -> usize
    ensures count { result ≡ min (length buf.old) (length (bytes_from files.now place at)) }
    ensures bytes { take result buf.new ≡ take result (bytes_from files.now place at) }
    ensures within { result + at < 2 ^ 64 }
{
    let Some(place) = place else { return 0 };
    let Some(file) = files.get(place) else {
        return 0
    };
    let Some(rest) = file.1.as_slice().get(at..) else {
        return 0
    };
    copy_front(rest, buf)
}

fn copy_front(from: &[u8], to: &mut [u8]) -> usize
    ensures count { result ≡ min (length to.old) (length from.now) }
    ensures bytes { take result to.new ≡ take result from.now }
{
    let count = to.len().min(from.len());
    to[..count].copy_from_slice(&from[..count]);
    count
}
