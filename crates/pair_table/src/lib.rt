//! Pairs of volumes: their rows, the spelling of a row, and the table of a session's rows.
//!
//! A table keeps its rows in a map from devices that holds them in order of adding.
#![tactic(auto)]

mod command;
mod commanding;
mod format;
mod laws;
mod level;
mod limits;
mod names;
mod row;
mod table;

pub use command::{Change, Choice, Command, CommandError, DeviceList, Refusal};
pub use format::{decode_row, decode_row_of, decode_row1, encode_row, row_length};
pub use laws::{narrow_rows_read_back, rows_read_back};
pub use level::Level;
pub use limits::{MOST_ROWS, NARROW_ROW_LENGTH, ROW_LENGTH};
pub use names::{NamedDevice, NamedVolume, Names};
pub use row::{PairRow, PairState, SuspendCause};
pub use table::PairTable;
