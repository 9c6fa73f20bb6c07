//! Lines of a hostile guest: what it writes into the device's memory, and the turns that the device takes.

ghost use Rattle.std.specs.Prelude.{◌≡◌, IfOk, IfErr, Ok, Err, ◌≤◌};
ghost use Rattle.vs_layout.specs.Layout.{queue_areas_of};
ghost use Rattle.vs_script.specs.{Field.IsFault, Hostile.{hostile_view, queue, base, queue_size, header, descriptor, memory_line, rings_fit, rings_line, place, write_line}};
ghost use Rattle.vs_script.specs.Hostile.{desc_line, give_line, index_line, packet_line, before_line, look_line, guest_line, touched, is_inside, inside_line, hostile_line};

use crate::data::Data;
use crate::fault::{LineFault, Why};
use crate::outside::{MAX_FILL, OutsideLine, outside_line};
use crate::words::{Words, is};
use std::alloc::Global;
use vs_header::{HEADER_LEN, Header};
use vs_layout::{Desc, Span, queue_areas};
use vs_ring_port::Queue;

/// What the lowest address of the memory is a multiple of.
const BASE_ALIGN: u64 = 16;

/// The highest lowest address of the memory: 2^62.
const MAX_BASE: u64 = 4_611_686_018_427_387_904;

/// The fewest bytes of the memory.
const MIN_MEMORY: u64 = 4_096;

/// The most bytes of the memory.
const MAX_MEMORY: u64 = 1_048_576;

/// The most accesses that a `before` counts.
const MAX_BEFORE: u32 = 10_000;

/// The most bytes that a `look` shows.
const MAX_LOOK: u8 = 64;

/// A line of a hostile guest.
#[derive(Drop)]
pub enum HostileLine {
    /// `memory BASE SIZE`, the first line: the device's memory, all 0. BASE is a multiple of 16 up to 2^62, SIZE 4,096 to 1,048,576.
    Memory {
        memory: Span,
    },
    /// `rings N`, the second line: three rings of N entries, 8 to 256 and a power of two, from the memory's lowest address on.
    Rings {
        n: u16,
    },
    /// `write ADDR DATA`: bytes are written.
    Write {
        addr: u64,
        content: Data,
    },
    /// `desc Q I ADDR LEN FLAGS NEXT`: descriptor I of a queue is written.
    Desc {
        queue: Queue,
        number: u16,
        desc: Desc,
    },
    /// `give Q PLACE HEAD`: an available entry is written.
    Give {
        queue: Queue,
        place: u16,
        head: u16,
    },
    /// `index Q V`: the available index is written.
    Index {
        queue: Queue,
        value: u16,
    },
    /// `packet ADDR SRC DST SPORT DPORT LEN TYPE OP FLAGS ALLOC FWD DATA`: a header is written, and bytes behind it.
    Packet {
        addr: u64,
        header: Header,
        content: Data,
    },
    /// `before N ADDR DATA`: bytes are written before the Nth access of the device from now, 1 to 10,000.
    Before {
        access: u32,
        addr: u64,
        content: Data,
    },
    /// `look ADDR N`: bytes of the memory are shown, 1 to 64.
    Look {
        addr: u64,
        len: u8,
    },
    /// A line on the device, the moment or the host.
    Outside(OutsideLine),
}

/// What the lines before have set up.
#[derive(Clone, Copy)]
pub enum Stage {
    /// There is no memory yet.
    NoMemory,
    /// There is memory, and no rings.
    NoRings(Span),
    /// There is memory, and three rings of this many entries.
    Ready(Span, u16),
}

/// The line that the words of a line say, behind lines that have set up so much.
pub fn hostile_line(
    alloc: Global,
    stage: Stage,
    words: &mut Words,
) -> Result<HostileLine, LineFault>
    ensures ok { IfOk result (λ line. hostile_line stage words.old ≡ Ok (hostile_view line)) }
    ensures fault { IfErr result (IsFault (hostile_line stage words.old)) }
{
    match stage {
        Stage::NoMemory => memory_line(words),
        Stage::NoRings(memory) => rings_line(memory, words),
        Stage::Ready(memory, n) => inside_line(alloc, memory, n, words),
    }
}

/// `memory BASE SIZE`.
fn memory_line(words: &mut Words) -> Result<HostileLine, LineFault>
    ensures ok { IfOk result (λ line. memory_line words.old ≡ Ok (hostile_view line)) }
    ensures fault { IfErr result (IsFault (memory_line words.old)) }
{
    words.keyword(b"memory")?;
    let at = base(words)?;
    let len = words.number(MIN_MEMORY, MAX_MEMORY)?;
    words.end()?;
    let memory = Span { at, len };
    Ok(HostileLine::Memory { memory })
}

/// BASE: a multiple of 16 up to 2^62.
fn base(words: &mut Words) -> Result<u64, Why>
    ensures ok { IfOk result (λ n. base words.old ≡ Ok (n, words.new)) }
    ensures fault { IfErr result (λ why. base words.old ≡ Err why) }
{
    let at = words.number(0, MAX_BASE)?;
    if at % BASE_ALIGN == 0 {
        Ok(at)
    } else {
        Err(Why::BadNumber)
    }
}

/// `rings N`, over this memory.
fn rings_line(memory: Span, words: &mut Words) -> Result<HostileLine, LineFault>
    ensures ok { IfOk result (λ line. rings_line memory words.old ≡ Ok (hostile_view line)) }
    ensures fault { IfErr result (IsFault (rings_line memory words.old)) }
{
    words.keyword(b"rings")?;
    let n = queue_size(words)?;
    words.end()?;
    if rings_fit(memory, n) {
        Ok(HostileLine::Rings { n })
    } else {
        Err(LineFault::Refused(Why::BadNumber))
    }
}

/// N of `rings`: 8 to 256, a power of two.
fn queue_size(words: &mut Words) -> Result<u16, Why>
    ensures ok { IfOk result (λ n. queue_size words.old ≡ Ok (n, words.new)) }
    ensures range { IfOk result (λ n. n ≤ 256) }
    ensures fault { IfErr result (λ why. queue_size words.old ≡ Err why) }
{
    let n = words.number16(8, 256)?;
    if matches!(n, 8 | 16 | 32 | 64 | 128 | 256) {
        Ok(n)
    } else {
        Err(Why::BadNumber)
    }
}

/// Whether three rings of n entries from the memory's lowest address on lie in it.
fn rings_fit(memory: Span, n: u16) -> bool
    ensures { result ≡ rings_fit memory n }
{
    memory.at <= MAX_BASE && rings_end(memory.at, n) - memory.at <= memory.len
}

/// Where three rings of n entries from an address on end.
fn rings_end(at: u64, n: u16) -> u64
    requires low { at ≤ MAX_BASE }
    ensures end { result ≡ (queue_areas_of at n).event.end }
    ensures behind { at ≤ result }
{
    queue_areas(at, n).event.end
}

/// A line behind `memory` and `rings`, whose bytes lie in the memory.
fn inside_line(
    alloc: Global,
    memory: Span,
    n: u16,
    words: &mut Words,
) -> Result<HostileLine, LineFault>
    ensures ok { IfOk result (λ line. inside_line memory n words.old ≡ Ok (hostile_view line)) }
    ensures fault { IfErr result (IsFault (inside_line memory n words.old)) }
{
    let name = words.word()?;
    let line = guest_line(alloc, n, name, words)?;
    if line.is_inside(memory) {
        Ok(line)
    } else {
        Err(LineFault::Refused(Why::BadNumber))
    }
}

impl HostileLine {
    /// The bytes of the memory that the line names by their address: none for lines that name none.
    fn touched(&self) -> Span
        ensures { result ≡ touched (hostile_view self.now) }
    {
        match self {
            HostileLine::Write { addr, content } => span(*addr, content.len()),
            HostileLine::Packet { addr, content, .. } => span(*addr, HEADER_LEN + content.len()),
            HostileLine::Before { addr, content, .. } => span(*addr, content.len()),
            HostileLine::Look { addr, len } => span(*addr, usize::from(*len)),
            _ => span(0, 0),
        }
    }

    /// Whether those bytes lie in the memory.
    fn is_inside(&self, memory: Span) -> bool
        ensures { result ≡ is_inside memory (touched (hostile_view self.now)) }
    {
        let bytes = self.touched();
        bytes.len == 0 || bytes.lies_in(memory)
    }
}

/// So many bytes from an address on.
fn span(at: u64, len: usize) -> Span
    ensures { result ≡ record { at = at; len = len } }
{
    Span {
        at,
        len: len as u64,
    }
}

/// A line behind `memory` and `rings`, by its name and the words behind it, wherever its bytes lie.
fn guest_line(
    alloc: Global,
    n: u16,
    name: &[u8],
    words: &mut Words,
) -> Result<HostileLine, LineFault>
    ensures ok { IfOk result (λ line. guest_line n name.now words.old ≡ Ok (hostile_view line)) }
    ensures fault { IfErr result (IsFault (guest_line n name.now words.old)) }
{
    if is(name, b"write") {
        write_line(alloc, words)
    } else if is(name, b"desc") {
        desc_line(n, words)
    } else if is(name, b"give") {
        give_line(n, words)
    } else if is(name, b"index") {
        index_line(words)
    } else if is(name, b"packet") {
        packet_line(alloc, words)
    } else if is(name, b"before") {
        before_line(alloc, words)
    } else if is(name, b"look") {
        look_line(words)
    } else {
        let line = outside_line(alloc, name, words)?;
        Ok(HostileLine::Outside(line))
    }
}

/// Q: `rx`, `tx` or `event`.
fn queue(words: &mut Words) -> Result<Queue, Why>
    ensures ok { IfOk result (λ q. queue words.old ≡ Ok (q, words.new)) }
    ensures fault { IfErr result (λ why. queue words.old ≡ Err why) }
{
    let word = words.word()?;
    if is(word, b"rx") {
        Ok(Queue::Rx)
    } else if is(word, b"tx") {
        Ok(Queue::Tx)
    } else if is(word, b"event") {
        Ok(Queue::Event)
    } else {
        Err(Why::BadWord)
    }
}

/// I or PLACE: a place of a queue of n entries.
fn place(n: u16, words: &mut Words) -> Result<u16, Why>
    ensures ok { IfOk result (λ at. place n words.old ≡ Ok (at, words.new)) }
    ensures fault { IfErr result (λ why. place n words.old ≡ Err why) }
{
    let at = words.any16()?;
    if at < n { Ok(at) } else { Err(Why::BadNumber) }
}

/// `ADDR DATA` of `write`.
fn write_line(alloc: Global, words: &mut Words) -> Result<HostileLine, LineFault>
    ensures ok { IfOk result (λ line. write_line words.old ≡ Ok (hostile_view line)) }
    ensures fault { IfErr result (IsFault (write_line words.old)) }
{
    let addr = words.any64()?;
    let content = words.only_content(alloc, MAX_FILL)?;
    Ok(HostileLine::Write { addr, content })
}

/// `Q I ADDR LEN FLAGS NEXT` of `desc`, where queues have n entries.
fn desc_line(n: u16, words: &mut Words) -> Result<HostileLine, LineFault>
    ensures ok { IfOk result (λ line. desc_line n words.old ≡ Ok (hostile_view line)) }
    ensures fault { IfErr result (IsFault (desc_line n words.old)) }
{
    let queue = queue(words)?;
    let number = place(n, words)?;
    let desc = descriptor(words)?;
    words.end()?;
    Ok(HostileLine::Desc {
        queue,
        number,
        desc,
    })
}

/// `ADDR LEN FLAGS NEXT` of `desc`.
fn descriptor(words: &mut Words) -> Result<Desc, Why>
    ensures ok { IfOk result (λ d. descriptor words.old ≡ Ok (d, words.new)) }
    ensures fault { IfErr result (λ why. descriptor words.old ≡ Err why) }
{
    Ok(Desc {
        addr: words.any64()?,
        len: words.any32()?,
        flags: words.any16()?,
        next: words.any16()?,
    })
}

/// `Q PLACE HEAD` of `give`, where queues have n entries.
fn give_line(n: u16, words: &mut Words) -> Result<HostileLine, LineFault>
    ensures ok { IfOk result (λ line. give_line n words.old ≡ Ok (hostile_view line)) }
    ensures fault { IfErr result (IsFault (give_line n words.old)) }
{
    let queue = queue(words)?;
    let place = place(n, words)?;
    let head = words.only_any16()?;
    Ok(HostileLine::Give { queue, place, head })
}

/// `Q V` of `index`.
fn index_line(words: &mut Words) -> Result<HostileLine, LineFault>
    ensures ok { IfOk result (λ line. index_line words.old ≡ Ok (hostile_view line)) }
    ensures fault { IfErr result (IsFault (index_line words.old)) }
{
    let queue = queue(words)?;
    let value = words.only_any16()?;
    Ok(HostileLine::Index { queue, value })
}

/// `ADDR SRC DST SPORT DPORT LEN TYPE OP FLAGS ALLOC FWD DATA` of `packet`.
fn packet_line(alloc: Global, words: &mut Words) -> Result<HostileLine, LineFault>
    ensures ok { IfOk result (λ line. packet_line words.old ≡ Ok (hostile_view line)) }
    ensures fault { IfErr result (IsFault (packet_line words.old)) }
{
    let addr = words.any64()?;
    let header = header(words)?;
    let content = words.only_content(alloc, MAX_FILL)?;
    Ok(HostileLine::Packet {
        addr,
        header,
        content,
    })
}

/// `SRC DST SPORT DPORT LEN TYPE OP FLAGS ALLOC FWD` of `packet`: the fields of a header.
fn header(words: &mut Words) -> Result<Header, Why>
    ensures ok { IfOk result (λ fields. header words.old ≡ Ok (fields, words.new)) }
    ensures fault { IfErr result (λ why. header words.old ≡ Err why) }
{
    Ok(Header {
        src_cid: words.any64()?,
        dst_cid: words.any64()?,
        src_port: words.any32()?,
        dst_port: words.any32()?,
        len: words.any32()?,
        kind: words.any16()?,
        op: words.any16()?,
        flags: words.any32()?,
        buf_alloc: words.any32()?,
        fwd_cnt: words.any32()?,
    })
}

/// `N ADDR DATA` of `before`.
fn before_line(alloc: Global, words: &mut Words) -> Result<HostileLine, LineFault>
    ensures ok { IfOk result (λ line. before_line words.old ≡ Ok (hostile_view line)) }
    ensures fault { IfErr result (IsFault (before_line words.old)) }
{
    let access = words.number32(1, MAX_BEFORE)?;
    let addr = words.any64()?;
    let content = words.only_content(alloc, MAX_FILL)?;
    Ok(HostileLine::Before {
        access,
        addr,
        content,
    })
}

/// `ADDR N` of `look`.
fn look_line(words: &mut Words) -> Result<HostileLine, LineFault>
    ensures ok { IfOk result (λ line. look_line words.old ≡ Ok (hostile_view line)) }
    ensures fault { IfErr result (IsFault (look_line words.old)) }
{
    let addr = words.any64()?;
    let len = words.only_number8(1, MAX_LOOK)?;
    Ok(HostileLine::Look { addr, len })
}
