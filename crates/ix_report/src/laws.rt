//! A law of a report's lines.

ghost use Rattle.ix_report.specs.Feeds.{LinesEndOnce};

/// Each line of a report has one line feed, at its end, where the name of an entry's lane has none.
pub fn lines_end_once()
    ensures once { LinesEndOnce }
{}
