//! Laws of log entries, as contracts of empty functions.
ghost use Rattle.cosign_parts.specs.LogEntry.{EntriesAreInLog, TextsAreCanonical};

/// The text that a log signs of an entry is the canonical text (RFC 8785) of the object of its body, its time, its
/// log's id and its index, if its time and index are in the log's range. They are for each entry that is parsed.
pub fn log_texts_are_canonical()
    ensures canonical { TextsAreCanonical }
    ensures range { EntriesAreInLog }
{}
