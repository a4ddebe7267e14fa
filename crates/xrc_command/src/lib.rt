//! Scripts: a line that an operator writes, and the command that it gives.
//!
//! The grammar, in which a serial has 1 to 6 and a session 1 to 8 characters of A to Z, 0 to 9, @, # and $:
//!
//! ```text
//! line     = time " " command
//! time     = 16 hexadecimal digits of either case, not all zero
//! command  = "XSTART " session [ " ERRORLEVEL(" ( "VOLUME" | "SESSION" | "GROUP" ) ")" ]
//!          | "XADDPAIR " session " VOLUME(" serial "," serial ")" [ " GROUP(" serial ")" ]
//!          | "XDELPAIR " session " VOLUME(" ( serial "," serial | "ALL" ) ")"
//!          | "XSUSPEND " session " VOLUME(" ( serial "," serial | "ALL" ) ")"
//!          | "XQUERY " session
//!          | "XEND " session
//! ```
#![tactic(auto)]

mod command;
mod laws;
mod line;
mod parts;

pub use laws::{lines_are_read, lines_are_told_apart};
pub use line::{Line, read_line};
