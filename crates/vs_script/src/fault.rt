//! Why a script is refused.

ghost use Rattle.std.specs.Prelude.{◌≡◌};
ghost use Rattle.vs_script.specs.Fault.{fault_at};

use std::alloc::AllocError;
use std::fmt;

/// Why a line is refused.
#[derive(Clone, Copy, Debug, PartialEq, Eq)]
pub enum Why {
    /// The line is longer than 4,200 bytes, or the script longer than 1,048,576.
    TooLong,
    /// A word is unknown, missing or one too many, or stands on a line that isn't of this command or not in its place; or a byte is
    /// neither printable ASCII nor a space.
    BadWord,
    /// A number isn't 1 to 20 digits, or is out of its range.
    BadNumber,
    /// Bytes aren't an even number of hex digits, 2 to 4,096.
    BadHex,
    /// The line is the 20,001st event line, the 65th app, or the 1,001st instruction of its app.
    TooMany,
}

impl fmt::Display for Why {
    ghost use Rattle.std.specs.Prelude.{Some};
    ghost use Rattle.vs_script.specs.Fault.{why_text};

    ghost output = { λ why. Some (why_text why) };

    fn fmt<W: fmt::Write>(&self, f: &mut fmt::Formatter<W>) -> fmt::Result {
        match self {
            Why::TooLong => f.write_str("TooLong"),
            Why::BadWord => f.write_str("BadWord"),
            Why::BadNumber => f.write_str("BadNumber"),
            Why::BadHex => f.write_str("BadHex"),
            Why::TooMany => f.write_str("TooMany"),
        }
    }
}

/// The line that a script is refused for, written as `line L WHY`.
#[derive(Clone, Copy, Debug, PartialEq, Eq)]
pub struct Refused {
    /// The number of the line, from 1; 0 is the script as a whole.
    pub line: u64,
    /// Why it is refused.
    pub why: Why,
}

impl fmt::Display for Refused {
    ghost use Rattle.std.specs.Prelude.{Some};
    ghost use Rattle.vs_script.specs.Fault.{refused_text};

    ghost output = { λ refused. Some (refused_text refused) };

    fn fmt<W: fmt::Write>(&self, f: &mut fmt::Formatter<W>) -> fmt::Result {
        write!(f, "line {} {}", self.line, self.why)
    }
}

/// Why a text isn't read as a script.
#[derive(Clone, Copy, Debug, PartialEq, Eq)]
pub enum ParseFault {
    /// It is refused for a line.
    Refused(Refused),
    /// Memory ran out.
    OutOfMemory,
}

/// Why a line isn't read.
#[derive(Clone, Copy)]
pub enum LineFault {
    /// It is refused.
    Refused(Why),
    /// Memory ran out.
    OutOfMemory,
}

impl LineFault {
    /// The fault of the script whose line of this number has the fault.
    pub fn at(self, line: u64) -> ParseFault
        ensures { result ≡ fault_at line self }
    {
        match self {
            LineFault::Refused(why) => ParseFault::Refused(Refused { line, why }),
            LineFault::OutOfMemory => ParseFault::OutOfMemory,
        }
    }
}

impl From<Why> for LineFault {
    ghost use Rattle.std.specs.Prelude.{◌≡◌};
    ghost use Rattle.vs_script.specs.declared.fault.LineFault.TheVariants.{Refused};

    ghost from_gives = { λ why fault. fault ≡ Refused why };

    fn from(why: Why) -> LineFault {
        LineFault::Refused(why)
    }
}

impl From<AllocError> for LineFault {
    ghost use Rattle.std.specs.Prelude.{◌≡◌};
    ghost use Rattle.vs_script.specs.declared.fault.LineFault.TheVariants.{OutOfMemory};

    ghost from_gives = { λ _ fault. fault ≡ OutOfMemory };

    fn from(_: AllocError) -> LineFault {
        LineFault::OutOfMemory
    }
}
