//! How much was seen.

/// Whether all orders were seen.
#[derive(Clone, Copy, PartialEq, Eq)]
pub enum Sight {
    /// All were.
    Whole,
    /// More configurations are reached than were asked for, so nothing is said of them.
    More,
}

/// Whether all orders were seen, and whether they come to what is denied.
#[derive(PartialEq, Eq, Drop)]
pub enum Judged {
    /// All were, and none comes to anything that is denied.
    Clear,
    /// All were, and some order comes to what is denied. The line says to what first, without its newline.
    Denied(String),
    /// More configurations are reached than were asked for, so nothing is said of them.
    More,
}

/// What came of asking for a report that comes to an end.
#[derive(Clone, Copy, PartialEq, Eq)]
pub enum Witnessed {
    /// There is one.
    Report,
    /// There is no end of that number.
    NoEnd,
    /// More configurations are reached than were asked for, so nothing is said of them.
    Beyond,
}
