//! Lemmas about captures, each the contract of a function with an empty body.
ghost use Rattle.pcap_reader.specs.Laws.{MagicIsRead, HasOneCapture, HasOneFault, HasNotBoth};
ghost use Rattle.pcap_reader.specs.Laws.{HasOneOfBoth, BeginsWithHeader, GrowsByPacket, ReadsBack};
ghost use Rattle.pcap_reader.specs.Laws.{KeepsFrames};

/// Lemma: a file's bytes have exactly one capture or exactly one fault, and never both. Comparing
/// the magic number as four bytes or as a number is the same.
pub fn one_capture_or_fault()
    ensures magic { MagicIsRead }
    ensures one_capture { HasOneCapture }
    ensures one_fault { HasOneFault }
    ensures not_both { HasNotBoth }
    ensures either { HasOneOfBoth }
{}

/// Lemma: what `put_header` and then one `put_packet` for each packet write is read back with the
/// same times and the same frames, and nothing truncated.
pub fn captures_read_back()
    ensures header { BeginsWithHeader }
    ensures packet { GrowsByPacket }
    ensures reads_back { ReadsBack }
    ensures frames { KeepsFrames }
{}
