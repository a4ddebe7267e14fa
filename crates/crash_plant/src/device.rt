/// A device of a site. Journals and volumes are numbered from 0.
#[derive(Clone, Copy, Debug, PartialEq, Eq)]
pub enum Device {
    Control,
    State,
    Journal(u16),
    Volume(u16),
}

/// What the console gives: the next byte of the script, or its end.
#[derive(Clone, Copy, Debug, PartialEq, Eq)]
pub enum Heard {
    Byte(u8),
    End,
}
