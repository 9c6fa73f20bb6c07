//! The bytes that a line of a script carries.

ghost use Rattle.std.specs.Prelude.{◌≡◌, ◌≤◌, ◌<◌, ◌+◌, ◌-◌, ◌++◌, ◌^◌, IfOk, OnOk, drop, length, min, take};
ghost use Rattle.vs_script.specs.Data.{content_of, size_of, bytes_of, filled_bytes};

use std::alloc::{AllocError, Global};

/// The bytes that a line carries: as the script gives them, or by a rule.
#[derive(Drop)]
pub enum Data {
    /// These bytes: none, or 1 to 2,048 of them.
    Given(Vec<u8>),
    /// `fill N S`.
    Fill(Fill),
}

/// Bytes by a rule, `fill N S`: the byte at place i is (start + 7i + i/251) mod 256.
#[derive(Clone, Copy)]
pub struct Fill {
    /// How many bytes.
    pub n: u32,
    /// The byte at place 0.
    pub start: u8,
}

/// After so many bytes the rule adds one more.
const RUN: usize = 251;

/// The multiples of 7 from 0 on, mod 256. Each run of bytes by the rule is a part of it, since 183 is the inverse of 7: a run that begins with
/// the byte b lies at (183b) mod 256. From one run to the next the first byte grows by 222, and so the place by 178, both mod 256.
static SEVENS: [u8; 507] = [
    0, 7, 14, 21, 28, 35, 42, 49, 56, 63, 70, 77, 84, 91, 98, 105, 112, 119, 126, 133, 140, 147,
    154, 161, 168, 175, 182, 189, 196, 203, 210, 217, 224, 231, 238, 245, 252, 3, 10, 17, 24, 31,
    38, 45, 52, 59, 66, 73, 80, 87, 94, 101, 108, 115, 122, 129, 136, 143, 150, 157, 164, 171, 178,
    185, 192, 199, 206, 213, 220, 227, 234, 241, 248, 255, 6, 13, 20, 27, 34, 41, 48, 55, 62, 69,
    76, 83, 90, 97, 104, 111, 118, 125, 132, 139, 146, 153, 160, 167, 174, 181, 188, 195, 202, 209,
    216, 223, 230, 237, 244, 251, 2, 9, 16, 23, 30, 37, 44, 51, 58, 65, 72, 79, 86, 93, 100, 107,
    114, 121, 128, 135, 142, 149, 156, 163, 170, 177, 184, 191, 198, 205, 212, 219, 226, 233, 240,
    247, 254, 5, 12, 19, 26, 33, 40, 47, 54, 61, 68, 75, 82, 89, 96, 103, 110, 117, 124, 131, 138,
    145, 152, 159, 166, 173, 180, 187, 194, 201, 208, 215, 222, 229, 236, 243, 250, 1, 8, 15, 22,
    29, 36, 43, 50, 57, 64, 71, 78, 85, 92, 99, 106, 113, 120, 127, 134, 141, 148, 155, 162, 169,
    176, 183, 190, 197, 204, 211, 218, 225, 232, 239, 246, 253, 4, 11, 18, 25, 32, 39, 46, 53, 60,
    67, 74, 81, 88, 95, 102, 109, 116, 123, 130, 137, 144, 151, 158, 165, 172, 179, 186, 193, 200,
    207, 214, 221, 228, 235, 242, 249, 0, 7, 14, 21, 28, 35, 42, 49, 56, 63, 70, 77, 84, 91, 98,
    105, 112, 119, 126, 133, 140, 147, 154, 161, 168, 175, 182, 189, 196, 203, 210, 217, 224, 231,
    238, 245, 252, 3, 10, 17, 24, 31, 38, 45, 52, 59, 66, 73, 80, 87, 94, 101, 108, 115, 122, 129,
    136, 143, 150, 157, 164, 171, 178, 185, 192, 199, 206, 213, 220, 227, 234, 241, 248, 255, 6,
    13, 20, 27, 34, 41, 48, 55, 62, 69, 76, 83, 90, 97, 104, 111, 118, 125, 132, 139, 146, 153,
    160, 167, 174, 181, 188, 195, 202, 209, 216, 223, 230, 237, 244, 251, 2, 9, 16, 23, 30, 37, 44,
    51, 58, 65, 72, 79, 86, 93, 100, 107, 114, 121, 128, 135, 142, 149, 156, 163, 170, 177, 184,
    191, 198, 205, 212, 219, 226, 233, 240, 247, 254, 5, 12, 19, 26, 33, 40, 47, 54, 61, 68, 75,
    82, 89, 96, 103, 110, 117, 124, 131, 138, 145, 152, 159, 166, 173, 180, 187, 194, 201, 208,
    215, 222, 229, 236, 243, 250, 1, 8, 15, 22, 29, 36, 43, 50, 57, 64, 71, 78, 85, 92, 99, 106,
    113, 120, 127, 134, 141, 148, 155, 162, 169, 176, 183, 190, 197, 204, 211, 218, 225, 232, 239,
    246, 253, 4, 11, 18, 25, 32, 39, 46, 53, 60, 67, 74, 81, 88, 95, 102, 109, 116, 123, 130, 137,
    144, 151, 158, 165, 172, 179, 186, 193, 200, 207, 214,
];

impl Fill {
    // How many bytes there are from a place on, `most` at most.
    fn count_from(self, from: usize, most: usize) -> usize
        ensures { result ≡ min most (self.n - from) }
    {
        most.min((self.n as usize).saturating_sub(from))
    }

    // The bytes from a place on, to the end of their run and `most` at most.
    fn part(self, place: usize, most: usize) -> &'static [u8]
        requires { place + most ≤ self.n }
        ensures bytes { result.now ≡ take (length result.now) (drop place (filled_bytes self.n self.start)) }
        ensures most { length result.now ≤ most }
        ensures some { 0 < most → 0 < length result.now }
    {
        let run = place / RUN;
        let within = place % RUN;
        let first = (183 * usize::from(self.start) + 178 * run) % 256 + within;
        &SEVENS[first..first + most.min(RUN - within)]
    }

    // Copies the bytes from a place on to the front of `out`, as many as there are and as it holds, and returns how many.
    fn copy_to(self, from: usize, out: &mut [u8]) -> usize
        ensures count { result ≡ min (length out.old) (self.n - from) }
        ensures copied { take result out.new ≡ take result (drop from (filled_bytes self.n self.start)) }
        ensures rest { drop result out.new ≡ drop result out.old }
    {
        let count = self.count_from(from, out.len());
        let mut done = 0;
        while done < count {
            let part = self.part(from + done, count - done);
            let end = done + part.len();
            out[done..end].copy_from_slice(part);
            done = end;
        }
        count
    }

    // Appends the bytes from a place on, `most` at most. The only error is want of memory.
    fn push_to(self, from: usize, most: usize, out: &mut Vec<u8>) -> Result<(), AllocError>
        ensures { OnOk result (out.new.items ≡ out.old.items ++ take most (drop from (filled_bytes self.n self.start))) }
    {
        let count = self.count_from(from, most);
        let mut done = 0;
        while done < count {
            let part = self.part(from + done, count - done);
            out.extend_from_slice(part)?;
            done += part.len();
        }
        Ok(())
    }
}

// The bytes from a place on.
fn rest(bytes: &[u8], from: usize) -> &[u8]
    ensures { result.now ≡ drop from bytes.now }
{
    &bytes[from.min(bytes.len())..]
}

// Copies the first of these bytes to the front of `out`, as many as it holds, and returns how many.
fn copy_front(bytes: &[u8], out: &mut [u8]) -> usize
    ensures count { result ≡ min (length out.old) (length bytes.now) }
    ensures copied { take result out.new ≡ take result bytes.now }
    ensures rest { drop result out.new ≡ drop result out.old }
{
    let count = out.len().min(bytes.len());
    out[..count].copy_from_slice(&bytes[..count]);
    count
}

impl Data {
    /// How many bytes they are.
    pub fn len(&self) -> usize
        ensures size { result ≡ size_of (content_of self.now) }
        ensures bound { result < 2 ^ 63 }
    {
        match self {
            Data::Given(bytes) => bytes.len(),
            Data::Fill(fill) => fill.n as usize,
        }
    }

    /// Copies the bytes from a place on to the front of `out`, as many as there are and as it holds, and returns how many. The rest of `out`
    /// stays.
    pub fn copy_to(&self, from: usize, out: &mut [u8]) -> usize
        ensures count { result ≡ min (length out.old) (size_of (content_of self.now) - from) }
        ensures copied { take result out.new ≡ take result (drop from (bytes_of (content_of self.now))) }
        ensures rest { drop result out.new ≡ drop result out.old }
    {
        match self {
            Data::Given(bytes) => copy_front(rest(bytes, from), out),
            Data::Fill(fill) => fill.copy_to(from, out),
        }
    }

    /// Appends the bytes from a place on, `most` at most. The only error is want of memory.
    pub fn push_to(&self, from: usize, most: usize, out: &mut Vec<u8>) -> Result<(), AllocError>
        ensures { OnOk result (out.new.items ≡ out.old.items ++ take most (drop from (bytes_of (content_of self.now)))) }
    {
        match self {
            Data::Given(bytes) => {
                let rest = rest(bytes, from);
                out.extend_from_slice(&rest[..most.min(rest.len())])
            }
            Data::Fill(fill) => fill.push_to(from, most, out),
        }
    }

    /// All of the bytes. The only error is want of memory.
    pub fn to_vec(&self, alloc: Global) -> Result<Vec<u8>, AllocError>
        ensures { IfOk result (λ bytes. bytes.items ≡ bytes_of (content_of self.now)) }
    {
        let mut bytes = Vec::with_capacity(alloc, self.len())?;
        self.push_to(0, self.len(), &mut bytes)?;
        Ok(bytes)
    }
}
