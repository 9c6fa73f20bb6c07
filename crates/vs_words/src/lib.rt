//! The command line: what the words behind the program's name ask for.
//!
//! ```text
//! play [--rings list|plain|shared] [--queue Q] [--first F]
//! run --base PATH [--queue Q] [--idle I] [--first F]
//! hostile
//! load --number N --conns N --bytes N [--queue Q]
//! peer --base PATH --port N [--idle I]
//!
//! Q        8, 16, 32, 64, 128 or 256; 64, where none is given
//! PATH     1 to 90 bytes
//! I        1 to 1,000,000; 10,000, where none is given
//! F        1,024 to 1,073,741,823; 1,024, where none is given
//! number   0 to 4,294,967,295
//! conns    1 to 64
//! bytes    0 to 1,000,000
//! port     0 to 4,294,967,295
//! ```
//!
//! An option is `--NAME VALUE` or `--NAME=VALUE`, given once at most. Numbers have no sign and no leading zero.
#![tactic(auto)]

mod command;
mod error;
mod number;
mod options;

pub use crate::command::{Command, Rings, command_of};
pub use crate::error::WordsError;
