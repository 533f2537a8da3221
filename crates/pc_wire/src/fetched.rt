//! What comes of reading a line.

/// What `LineReader::fetch` answers.
#[derive(Clone, Copy, Debug, PartialEq, Eq)]
pub enum Fetched {
    /// A line waits.
    Waits,
    /// The input has ended, and no line is left.
    End,
    /// The next line is past the limit, whatever follows, and its LF wasn't among the bytes read so
    /// far. No line waits; another call goes on with this one.
    Overlong,
}

/// Where the line is that comes next.
#[derive(Clone, Copy, Debug, PartialEq, Eq)]
pub(crate) enum Held {
    /// The feed has what came of a line that hasn't ended; no line waits.
    Begun,
    /// The feed has a line that its LF ended.
    Whole,
    /// The feed has the last line, which no LF ended.
    Last,
    /// The feed has nothing, and the line is in front of what was read ahead, up to the LF at this place.
    Ahead { stop: usize },
}
