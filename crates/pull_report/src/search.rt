// Prints of what a search for signatures skipped.
use crate::printed::{Printed, print_row, word};
use cosign_layers::{LayerPart, LayerRejection};
use cosign_rows::{SkipCause, Skipped, SourceKind};
use json_values::{Blob, row};
use std::alloc::{AllocError, Global};

impl Printed for LayerPart {
    ghost use Rattle.pull_report.specs.Prints.{part_print};

    ghost print = { part_print };

    fn write_print(&self, _alloc: Global, out: &mut Blob) -> Result<(), AllocError> {
        match self {
            Self::Content => word(out, "Content"),
            Self::Signature => word(out, "Signature"),
            Self::LogEntry => word(out, "LogEntry"),
            Self::Certificate => word(out, "Certificate"),
        }
    }
}

impl Printed for LayerRejection {
    ghost use Rattle.pull_report.specs.Prints.{rejection_print};

    ghost print = { rejection_print };

    fn write_print(&self, alloc: Global, out: &mut Blob) -> Result<(), AllocError> {
        match self {
            Self::DigestMismatch => word(out, "DigestMismatch"),
            Self::Unreadable(part) => print_row(alloc, out, "Unreadable", row![part]),
            Self::OtherDigest => word(out, "OtherDigest"),
            Self::NoSignature => word(out, "NoSignature"),
            Self::UnknownLogKey(log) => print_row(alloc, out, "UnknownLogKey", row![log]),
            Self::BadLogSignature => word(out, "BadLogSignature"),
            Self::OtherLogEntry(body) => print_row(alloc, out, "OtherLogEntry", row![body]),
            Self::NoLogEntry => word(out, "NoLogEntry"),
            Self::NotVouched => word(out, "NotVouched"),
            Self::LayerNotPulled => word(out, "LayerNotPulled"),
            Self::WantOfMemory => word(out, "WantOfMemory"),
        }
    }
}

impl Printed for SourceKind {
    ghost use Rattle.pull_report.specs.Prints.{source_print};

    ghost print = { source_print };

    fn write_print(&self, _alloc: Global, out: &mut Blob) -> Result<(), AllocError> {
        match self {
            Self::Tag => word(out, "Tag"),
            Self::Referrers => word(out, "Referrers"),
        }
    }
}

impl Printed for SkipCause {
    ghost use Rattle.pull_report.specs.Prints.{skip_print};

    ghost print = { skip_print };

    fn write_print(&self, alloc: Global, out: &mut Blob) -> Result<(), AllocError> {
        match self {
            Self::NotAReference(text) => print_row(alloc, out, "NotAReference", row![text]),
            Self::FoundIndex => word(out, "FoundIndex"),
            Self::Refused(error) => print_row(alloc, out, "Refused", row![error]),
        }
    }
}

impl Printed for Skipped {
    ghost use Rattle.pull_report.specs.Prints.{skipped_print};

    ghost print = { skipped_print };

    fn write_print(&self, alloc: Global, out: &mut Blob) -> Result<(), AllocError> {
        match self {
            Self::Source(source, cause) => print_row(alloc, out, "Source", row![source, cause]),
            Self::Referrer(referrer, cause) => print_row(
                alloc,
                out,
                "Referrer",
                row![referrer, cause],
            ),
            Self::Layer(source, layer, rejection) => {
                print_row(alloc, out, "Layer", row![source, layer, rejection])
            }
        }
    }
}
