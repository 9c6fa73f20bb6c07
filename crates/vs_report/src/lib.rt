//! What the lines of a script print: the answers of a play, and the report behind its last line.
//!
//! Each function appends one line, its LF included. The only error is want of memory, and then a part of the line may be appended.
#![tactic(auto)]

pub mod bytes;
pub mod device_lines;
pub mod giving;
pub mod guest_lines;
pub mod host_lines;
pub mod number;
pub mod report;
