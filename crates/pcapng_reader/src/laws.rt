//! Lemmas about captures, each the contract of a function with an empty body.
ghost use Rattle.pcapng_reader.specs.Laws.{HasOneNgCapture, HasOneNgFault, HasNotBothNg};
ghost use Rattle.pcapng_reader.specs.Laws.{HasOneOfBothNg};
ghost use Rattle.pcapng_reader.specs.Laws.{IsNoWant, HasFourPieces, BeginsWithSection};
ghost use Rattle.pcapng_reader.specs.Laws.{GrowsByFrame, ReadsNgBack, KeepsNgFrames};
ghost use Rattle.pcapng_reader.specs.Laws.{ReadsWritten, ReadsWrittenOnly, TruncatesWritten};
ghost use Rattle.pcapng_reader.specs.Laws.{ReadsWrittenFiles, ReadsExamples};
ghost use Rattle.pcapng_reader.specs.Walkers.{BeginsMore, PassesMore, FillsBytes, CapturesAll};
ghost use Rattle.pcapng_reader.specs.Walkers.{CapturesCut};

/// Lemma: a file's bytes have exactly one capture or exactly one fault, and never both. Running out
/// of memory is not a fault of bytes.
pub fn one_capture_or_fault()
    ensures one_capture { HasOneNgCapture }
    ensures one_fault { HasOneNgFault }
    ensures not_both { HasNotBothNg }
    ensures either { HasOneOfBothNg }
    ensures memory { IsNoWant }
{}

/// Lemma: a complete block is a type, its total length, a body and the length again, of 4, 4, the
/// length minus 12, and 4 bytes; the length is a multiple of 4.
pub fn a_block_is_four_pieces()
    ensures { HasFourPieces }
{}

/// Lemma: a block is read, with what it says, if and only if the bytes are this block as a writer
/// puts it together after the format; likewise a truncated block. Two blocks that are written out
/// byte by byte are read as worked out by hand.
pub fn a_block_is_read_as_written()
    ensures read { ReadsWritten }
    ensures only { ReadsWrittenOnly }
    ensures truncated { TruncatesWritten }
    ensures examples { ReadsExamples }
{}

/// Lemma: a file has a capture if and only if its bytes were put together after the format so that
/// its blocks say this capture.
pub fn a_file_is_read_as_written()
    ensures { ReadsWrittenFiles }
{}

/// Lemma: what `put_section` and then one `put_enhanced` for each frame write is read back with
/// exactly the same frames, and nothing truncated.
pub fn frames_are_read_back()
    ensures section { BeginsWithSection }
    ensures frame { GrowsByFrame }
    ensures reads_back { ReadsNgBack }
    ensures frames { KeepsNgFrames }
{}

/// Lemma: what a walker has passed stays passed when the file goes on with more bytes; its place is
/// the number of bytes that it has passed; and at the end of the file its frames are those of the
/// file's capture, whose last block is truncated if bytes are left that are no whole block.
pub fn a_walker_passes_blocks()
    ensures begins { BeginsMore }
    ensures more { PassesMore }
    ensures fills { FillsBytes }
    ensures all { CapturesAll }
    ensures cut { CapturesCut }
{}
