//! Scripts of the commands `play`, `run` and `hostile`: what a text says, whole, before anything of it runs.
//!
//! A script is ASCII text of at most 1,048,576 bytes, in lines that LF ends, which may be missing after the last one. Words stand
//! between spaces. A line that has no word, or whose first byte is `#`, is skipped at any length; it counts in line numbers, which
//! start at 1. Any other line has at most 4,200 bytes without its LF.
//!
//! ```text
//! PORT      0 to 4,294,967,295                C, H   1 to 4,294,967,295: a connection, a stream
//! numbers   1 to 20 decimal digits            B      1 to 3: bits of a shutdown
//! DATA      -, or 2 to 4,096 hex digits of either case, an even number of them, or fill N S: N bytes (0 to 65,536, in apps
//!           0 to 1,000,000), byte i being (S + 7i + i/251) mod 256, S from 0 to 255
//!
//! play      connect PORT, listen PORT, unlisten PORT, accept PORT, send C DATA, recv C N (1 to 65,536), shutdown C B,
//!           grow C N (1 to 1,000,000), close C, state C, poll, and the lines that follow
//!           turn, reset CID (3 to 4,294,967,294), tick MS (0 to 1,000,000), client, host listen PORT, host unlisten PORT,
//!           host write H DATA, host allow H N (0 to 1,000,000), host end H, host closed H, host fail N (1 to 1,000),
//!           host grow H N (1 to 1,000,000)
//!
//! run       app, and behind it the instructions of the app: connect PORT, listen PORT, accept PORT, send DATA,
//!           recv N (1 to 1,000,000), drain, exchange DATA, shutdown B, grow N (1 to 1,000,000), close
//!
//! hostile   memory BASE SIZE (a multiple of 16 up to 2^62; 4,096 to 1,048,576), then rings N (8 to 256, a power of two; they
//!           lie in the memory), then write ADDR DATA, desc Q I ADDR LEN FLAGS NEXT, give Q PLACE HEAD, index Q V,
//!           packet ADDR SRC DST SPORT DPORT LEN TYPE OP FLAGS ALLOC FWD DATA, before N ADDR DATA (1 to 10,000),
//!           look ADDR N (1 to 64), and the lines from `turn` on that a play has; Q is rx, tx or event, I and PLACE lie below the
//!           queue size, other numbers are as wide as their field, and all bytes lie in the memory
//! ```
//!
//! There are at most 20,000 event lines, or 64 apps of 1,000 instructions each.
#![tactic(auto)]

mod app;
mod data;
mod fault;
mod hex_word;
mod hostile;
mod laws;
mod number;
mod outside;
mod play;
mod script;
mod words;

pub use crate::app::{App, Instruction};
pub use crate::data::{Data, Fill};
pub use crate::fault::{ParseFault, Refused, Why};
pub use crate::hostile::HostileLine;
pub use crate::laws::{limits, worked_scripts};
pub use crate::outside::{HostLine, OutsideLine};
pub use crate::play::PlayLine;
pub use crate::script::{Command, Numbered, Script, parse};
