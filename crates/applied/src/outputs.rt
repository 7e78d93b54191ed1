// Bytes, records and the programs' outputs, computed and applied.
ghost use Rattle.applied.specs.Capi.{UnchangedApplied};
ghost use Rattle.applied.specs.Lengths.{LengthsApplied};
ghost use Rattle.applied.specs.Records.{ReaderOrder, FirstOrder, WriterOrder};
ghost use Rattle.applied.specs.Handover.{ReadApplied, TurnedBack, FirstApplied, RestApplied, BackApplied, AcceptedApplied};
ghost use Rattle.applied.specs.Listing.{Listing, StepsApplied};
ghost use Rattle.applied.specs.Peaks.{PeaksApplied};
ghost use Rattle.applied.specs.Report.{ReportApplied};

/// Calls over bytes that are refused.
pub fn refused_bytes()
    ensures unchanged { UnchangedApplied }
    ensures lengths { LengthsApplied }
{}

/// The orders of the reader and of the writer.
pub fn record_orders()
    ensures reader { ReaderOrder }
    ensures first { FirstOrder }
    ensures writer { WriterOrder }
{}

/// Records that are written and read.
pub fn handovers()
    ensures read { ReadApplied }
    ensures turned { TurnedBack }
    ensures first { FirstApplied }
    ensures rest { RestApplied }
    ensures back { BackApplied }
    ensures accepted { AcceptedApplied }
{}

/// The bench program's listing.
pub fn listings()
    ensures listing { Listing }
    ensures steps { StepsApplied }
{}

/// Peaks, marks and lines.
pub fn line_peaks()
    ensures { PeaksApplied }
{}

/// The shift report.
pub fn reports()
    ensures { ReportApplied }
{}
