//! What tests of the command share: how its words are made, and how its reports end.
#![tactic(auto)]

use std::alloc::{AllocError, Global};

/// The last line of a report where nothing was counted, as far as `before_end` compares it; the same where one call of a host failed, and of a run
/// without a driver.
pub const COUNTED: &str = "dropped 0 overrun 0 broken 0 faults 0\n";

pub const FAULT_COUNTED: &str = "dropped 0 overrun 0 broken 0 faults 1\n";

pub const HOSTILE_COUNTED: &str = "dropped 0 overrun 0 faults 0\n";

/// The whole of that line.
pub const NOTHING_COUNTED: &str = "dropped 0 overrun 0 broken 0 faults 0\n";

/// How a report ends where nothing was counted and no connection is left, where one is, and where 64 are.
pub const NONE_OPEN: &str = "guest open 0\ndevice open 0\ndropped 0 overrun 0 broken 0 faults 0\n";

pub const ONE_OPEN: &str = "guest open 1\ndevice open 1\ndropped 0 overrun 0 broken 0 faults 0\n";

pub const ALL_OPEN: &str = "guest open 64\ndevice open 64\ndropped 0 overrun 0 broken 0 faults 0\n";

/// What stands before this end of a text, if it ends so. Where the end's last line is one of counts, further ones may stand behind them.
pub fn before_end<'a>(text: &'a [u8], end: &str) -> Option<&'a [u8]> {
    if !end.contains("dropped ") {
        return text.strip_suffix(end.as_bytes());
    }
    let wanted = end.as_bytes().strip_suffix(b"\n".as_slice())?;
    let text = text.strip_suffix(b"\n".as_slice())?;
    for behind in 0..text.len() {
        let (front, more) = text.split_at(text.len() - behind);
        if more.contains(&b'\n') {
            return None;
        }
        if more.is_empty() || more.first() == Some(&b' ') {
            if let Some(before) = front.strip_suffix(wanted) {
                return Some(before);
            }
        }
    }
    None
}

/// The words of a command line, the program's name first.
pub fn words_of(alloc: Global, line: &str) -> Result<Vec<String>, AllocError> {
    let mut words = Vec::new(alloc);
    for word in line.split_ascii_whitespace() {
        words.push(String::from_str(alloc, word)?)?;
    }
    Ok(words)
}
