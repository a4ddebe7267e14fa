/// A call in the record of a console: its moment, and how many bytes were heard and said by then.
#[derive(Clone, Copy)]
pub(crate) struct ConsoleTurn {
    pub(crate) at: u64,
    pub(crate) heard: u64,
    pub(crate) said: u64,
}
