//! Reads the frames of a capture file.
ghost use Rattle.std.specs.Prelude.{◌≡◌, ◌≤◌, ◌<◌, ℕ, List, [], length, Option, IfOk, IfErr};
ghost use Rattle.std.specs.Prelude.{IfSome, IsErrOf};
ghost use Rattle.std.specs.Io.KnownBytes.{Keeps};
ghost use Rattle.outside_io.specs.Counts.{Rose};
ghost use Rattle.outside_io.specs.Desk.{GoesOnTelling};
ghost use Rattle.outside_io.specs.declared.reading.TheConstants.{MAX_FILE};
ghost use Rattle.capture_stream.specs.Windows.{content};
ghost use Rattle.capture_stream.specs.Streams.{AreRead, HasTaken, IsBegun, IsFaultOf, IsFilled};
ghost use Rattle.capture_stream.specs.Streams.{IsUnderWay};
ghost use Rattle.pcapng_reader.specs.Captures.{BeginsNg};
ghost use Rattle.capture_stream.specs.Captures.{TellsOf};
ghost use Rattle.capture_stream.specs.Walks.{cut_of};

use crate::classic::ClassicWalker;
use crate::fault::StreamFault;
use crate::walk::{Next, Walk};
use crate::window::Window;
use outside_io::{Begin, Desk};
use pcap_reader::{CaptureFault, FILE_HEADER, FrameSink};
use pcapng_reader::{NgWalker, is_pcapng};
use std::alloc::Global;

/// The most bytes that one read asks for (64 KiB).
const PIECE: usize = 65_536;

/// Reads the named file, a capture of at most `limit` bytes in the classic pcap format or in
/// pcapng, and hands the frame of each packet to the sink, in the order of the file. Returns how
/// many bytes of a last record there are, if the file ends within it.
///
/// It holds a window on the file and not the file: two pieces of 64 KiB, and the longest record or
/// block where that is longer. A file that is no capture is read to its end all the same, since it
/// may be too long, or not be read to its end, which is said first.
pub fn read_frames<D: Desk, F: FrameSink>(
    alloc: Global,
    desk: &mut D,
    name: &str,
    limit: usize,
    sink: &mut F,
) -> Result<Option<u32>, StreamFault>
    requires limit { limit ≤ MAX_FILE }
    requires began { F.takes sink.old [] sink.old }
    ensures frames { IfOk result (λ cut.
        HasTaken F.takes (D.held desk.old name.now) limit sink.old cut sink.new) }
    ensures fault { IfErr result (IsFaultOf (D.held desk.old name.now) limit) }
    ensures unread { IsErrOf result StreamFault.Unread
        → Rose (D.faults desk.old) (D.faults desk.new) }
    ensures later { D.faults desk.old ≤ D.faults desk.new }
    ensures held { D.held desk.new ≡ D.held desk.old }
    ensures told { GoesOnTelling (D.left desk.old) (D.left desk.new) }
    ensures asked { IfSome (D.asked desk.new) (λ asked. asked ≡ name.now) }
{
    match desk.begin(name) {
        Begin::Ok => read_begun(alloc, desk, limit, sink),
        Begin::Failed => Err(StreamFault::Unread),
    }
}

// Reads a file that was begun, as `read_frames` does.
fn read_begun<D: Desk, F: FrameSink>(
    alloc: Global,
    desk: &mut D,
    limit: usize,
    sink: &mut F,
) -> Result<Option<u32>, StreamFault>
    requires limit { limit ≤ MAX_FILE }
    requires began { F.takes sink.old [] sink.old }
    ensures frames { (named : Option (List ℕ)) → Keeps named (D.left desk.old)
        → IfOk result (λ cut. HasTaken F.takes named limit sink.old cut sink.new) }
    ensures fault { (named : Option (List ℕ)) → Keeps named (D.left desk.old)
        → IfErr result (IsFaultOf named limit) }
    ensures unread { IsErrOf result StreamFault.Unread
        → Rose (D.faults desk.old) (D.faults desk.new) }
    ensures later { D.faults desk.old ≤ D.faults desk.new }
    ensures held { D.held desk.new ≡ D.held desk.old }
    ensures told { GoesOnTelling (D.left desk.old) (D.left desk.new) }
    ensures asked { D.asked desk.new ≡ D.asked desk.old }
{
    let mut window = Window::new(alloc, limit);
    let mut piece = [0u8; PIECE];
    let enough = fill(desk, &mut window, &mut piece, FILE_HEADER)?;
    if is_pcapng(window.bytes()) {
        return walk(
            desk,
            &mut NgWalker::new(alloc),
            &mut window,
            &mut piece,
            sink,
        );
    }
    if !enough {
        let len = window.bytes().len();
        return Err(StreamFault::Classic(CaptureFault::ShortHeader { len }));
    }
    read_classic(desk, &mut window, &mut piece, sink)
}

// Reads a classic pcap file, of which the window has the header, as `read_frames` does.
fn read_classic<D: Desk, F: FrameSink>(
    desk: &mut D,
    window: &mut Window,
    piece: &mut [u8],
    sink: &mut F,
) -> Result<Option<u32>, StreamFault>
    requires piece { 0 < length piece.old }
    requires whole { 24 ≤ length (content window.old) }
    requires classic { BeginsNg (content window.old) → ⊥ }
    requires begun { (named : Option (List ℕ)) × IsBegun named (D.left desk.old) window.old }
    requires began { F.takes sink.old [] sink.old }
    ensures frames { (named : Option (List ℕ)) → IsBegun named (D.left desk.old) window.old
        → IfOk result (λ cut. HasTaken F.takes named window.old.limit sink.old cut sink.new) }
    ensures fault { (named : Option (List ℕ)) → IsBegun named (D.left desk.old) window.old
        → IfErr result (IsFaultOf named window.old.limit) }
    ensures unread { IsErrOf result StreamFault.Unread
        → Rose (D.faults desk.old) (D.faults desk.new) }
    ensures later { D.faults desk.old ≤ D.faults desk.new }
    ensures held { D.held desk.new ≡ D.held desk.old }
    ensures told { GoesOnTelling (D.left desk.old) (D.left desk.new) }
    ensures asked { D.asked desk.new ≡ D.asked desk.old }
{
    match ClassicWalker::open(window.bytes()) {
        Ok(mut walker) => {
            window.pass(FILE_HEADER);
            walk(desk, &mut walker, window, piece, sink)
        }
        Err(fault) => Err(read_out(desk, window, piece, fault)),
    }
}

// Walks to the end of the file, and hands each frame to the sink. Returns how many bytes of a last
// record there are, if the file ends within it.
fn walk<D: Desk, F: FrameSink, W: Walk>(
    desk: &mut D,
    walker: &mut W,
    window: &mut Window,
    piece: &mut [u8],
    sink: &mut F,
) -> Result<Option<u32>, StreamFault>
    requires piece { 0 < length piece.old }
    requires begun { (named : Option (List ℕ)) × (first : F) × IsUnderWay W.passed F.takes
        named (D.left desk.old) first walker.old window.old sink.old }
    ensures frames { (named : Option (List ℕ)) (first : F) → IsUnderWay W.passed F.takes
        named (D.left desk.old) first walker.old window.old sink.old
        → IfOk result (λ cut. HasTaken F.takes named window.old.limit first cut sink.new) }
    ensures fault { (named : Option (List ℕ)) (first : F) → IsUnderWay W.passed F.takes
        named (D.left desk.old) first walker.old window.old sink.old
        → IfErr result (IsFaultOf named window.old.limit) }
    ensures unread { IsErrOf result StreamFault.Unread
        → Rose (D.faults desk.old) (D.faults desk.new) }
    ensures later { D.faults desk.old ≤ D.faults desk.new }
    ensures held { D.held desk.new ≡ D.held desk.old }
    ensures told { GoesOnTelling (D.left desk.old) (D.left desk.new) }
    ensures asked { D.asked desk.new ≡ D.asked desk.old }
{
    loop {
        walker.goes_on();
        match walker.next(window.bytes()) {
            Ok(Next::Frame { start, len, size }) => {
                sink.take(&window.bytes()[start..start + len])?;
                window.pass(size);
            }
            Ok(Next::Other { size }) => window.pass(size),
            Ok(Next::Incomplete) => {
                if !window.more(desk, piece)? {
                    return Ok(cut_of(window.bytes()));
                }
            }
            Err(fault) => return Err(read_out(desk, window, piece, fault)),
        }
    }
}

// How many bytes of a record there are that is not complete, if any.
fn cut_of(rest: &[u8]) -> Option<u32>
    requires { length rest.now ≤ MAX_FILE }
    ensures { result ≡ cut_of rest.now }
{
    if rest.is_empty() {
        None
    } else {
        Some(rest.len() as u32)
    }
}

// Reads until the window has so many bytes. `false` says that the file has fewer.
fn fill<D: Desk>(
    desk: &mut D,
    window: &mut Window,
    piece: &mut [u8],
    wanted: usize,
) -> Result<bool, StreamFault>
    requires piece { 0 < length piece.old }
    ensures filled { (named : Option (List ℕ)) → IsBegun named (D.left desk.old) window.old
        → IfOk result (IsFilled named wanted (D.left desk.new) window.new) }
    ensures fault { (named : Option (List ℕ)) → IsBegun named (D.left desk.old) window.old
        → IfErr result (IsFaultOf named window.old.limit) }
    ensures limit { IfOk result (λ _. window.new.limit ≡ window.old.limit) }
    ensures piece { length piece.new ≡ length piece.old }
    ensures unread { IsErrOf result StreamFault.Unread
        → Rose (D.faults desk.old) (D.faults desk.new) }
    ensures later { D.faults desk.old ≤ D.faults desk.new }
    ensures held { D.held desk.new ≡ D.held desk.old }
    ensures told { GoesOnTelling (D.left desk.old) (D.left desk.new) }
    ensures asked { D.asked desk.new ≡ D.asked desk.old }
{
    while window.bytes().len() < wanted {
        if !window.more(desk, piece)? {
            return Ok(false);
        }
    }
    Ok(true)
}

// Reads the rest of a file that is no capture, for it may be too long, or not be read to its end.
fn read_out<D: Desk>(
    desk: &mut D,
    window: &mut Window,
    piece: &mut [u8],
    fault: StreamFault,
) -> StreamFault
    requires piece { 0 < length piece.old }
    requires tells { (named : Option (List ℕ)) × (bytes : List ℕ)
        × AreRead named (D.left desk.old) window.old bytes × TellsOf bytes fault }
    ensures fault { (named : Option (List ℕ)) (bytes : List ℕ)
        → AreRead named (D.left desk.old) window.old bytes → TellsOf bytes fault
        → IsFaultOf named window.old.limit result }
    ensures unread { result ≡ StreamFault.Unread → Rose (D.faults desk.old) (D.faults desk.new) }
    ensures later { D.faults desk.old ≤ D.faults desk.new }
    ensures held { D.held desk.new ≡ D.held desk.old }
    ensures told { GoesOnTelling (D.left desk.old) (D.left desk.new) }
    ensures asked { D.asked desk.new ≡ D.asked desk.old }
{
    loop {
        window.pass(window.bytes().len());
        match window.more(desk, piece) {
            Ok(true) => {}
            Ok(false) => return fault,
            Err(stop) => return stop,
        }
    }
}
