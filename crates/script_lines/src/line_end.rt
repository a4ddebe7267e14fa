/// How the hearing of a line ended.
#[derive(Clone, Copy, Debug, PartialEq, Eq)]
pub enum LineEnd {
    /// With its line feed, or with the end of the script after at least one byte.
    Whole,
    /// With one byte too many, which is no line feed.
    TooLong,
    /// The script had ended.
    Nothing,
}
