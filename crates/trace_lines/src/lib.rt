//! Traces as lines of text: the trace that lines say, and the lines of a trace.
//!
//! A line is empty, a remark that begins with `#`, or one of these, in this order; words are parted by one space:
//!
//! ```text
//! volume SERIAL CYLINDERS
//! base VOLUME TRACK RECORD ..
//! idle STAMP
//! write STAMP VOLUME TRACK RECORD ..
//! format STAMP VOLUME TRACK AFTER RECORD ..
//! update STAMP VOLUME TRACK NUMBER BYTES
//! ```
//!
//! VOLUME counts the volumes from 0, and TRACK the tracks of a volume. STAMP has 16 hexadecimal digits, and numbers have decimal ones. A
//! RECORD is NUMBER:KEY:CONTENT. BYTES, KEY and CONTENT are hexadecimal digits, two a byte, or a text between quotation marks, in
//! which no space stands, and in a KEY no colon.
#![tactic(auto)]

mod draft;
mod drafting;
mod line;
mod pieces;
mod printing;
mod reading;
mod refusal;
mod spelling;
mod words;
mod writing;

pub use printing::text_of_trace;
pub use refusal::{Cause, Refusal, Unread, Unwritten};
pub use writing::trace_of_text;
