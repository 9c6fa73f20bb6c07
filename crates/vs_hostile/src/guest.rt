//! What a hostile guest writes into the memory of the device's rings.

ghost use Rattle.std.specs.Prelude.{◌≡◌, ◌<◌, ◌+◌, ◌++◌, ◌^◌, IfOk, OnErr, OnOk, length};
ghost use Rattle.byteorder.specs.Endian.{little_bytes};
ghost use Rattle.vs_header.specs.Packet.{header_bytes};
ghost use Rattle.vs_layout.specs.{Entry.desc_bytes, Layout.AreInside, Layout.avail_entry, Layout.avail_idx, Layout.desc_entry};
ghost use Rattle.vs_ring_plain.specs.{Device.areas_at, Take.whole};
ghost use Rattle.vs_script.specs.{Data.bytes_of, Data.content_of, Hostile.hostile_view};
ghost use Rattle.vs_hostile.specs.Guest.{guest_writes, planned, poked, poked_at};

use byteorder::{ByteOrder, LittleEndian};
use std::alloc::{AllocError, Global};
use vs_header::Header;
use vs_layout::{Areas, Desc};
use vs_ring_plain::device::DeviceSide;
use vs_ring_port::{DeviceRing, Queue};
use vs_script::{Data, HostileLine};

/// Does what a line of the guest's says to the memory, and nothing for any other line. Without memory for the bytes of the line the
/// guest's memory is as before.
pub fn write_line(
    alloc: Global,
    ring: &mut DeviceSide,
    line: &HostileLine,
) -> Result<(), AllocError>
    ensures ok { OnOk result (ring.new ≡ guest_writes (hostile_view line.now) ring.old) }
    ensures err { OnErr result (ring.new ≡ ring.old) }
{
    match line {
        HostileLine::Write { addr, content } => write_content(alloc, ring, *addr, content),
        HostileLine::Packet {
            addr,
            header,
            content,
        } => write_packet(alloc, ring, *addr, header, content),
        HostileLine::Before {
            access,
            addr,
            content,
        } => write_before(alloc, ring, *access as u64, *addr, content),
        HostileLine::Desc {
            queue,
            number,
            desc,
        } => {
            write_desc(ring, *queue, *number, desc);
            Ok(())
        }
        HostileLine::Give { queue, place, head } => {
            write_entry(ring, *queue, *place, *head);
            Ok(())
        }
        HostileLine::Index { queue, value } => {
            write_index(ring, *queue, *value);
            Ok(())
        }
        _ => Ok(()),
    }
}

// Writes bytes, where all of them lie in the memory.
fn poke(ring: &mut DeviceSide, addr: u64, bytes: &[u8])
    ensures { ring.new ≡ poked addr bytes.now ring.old }
{
    let _outside = ring.poke(addr, bytes);
}

fn write_content(
    alloc: Global,
    ring: &mut DeviceSide,
    addr: u64,
    content: &Data,
) -> Result<(), AllocError>
    ensures ok { OnOk result (ring.new ≡ poked addr (bytes_of (content_of content.now)) ring.old) }
    ensures err { OnErr result (ring.new ≡ ring.old) }
{
    let bytes = content.to_vec(alloc)?;
    poke(ring, addr, &bytes);
    Ok(())
}

fn write_packet(
    alloc: Global,
    ring: &mut DeviceSide,
    addr: u64,
    header: &Header,
    content: &Data,
) -> Result<(), AllocError>
    ensures ok { OnOk result (ring.new ≡ poked addr (header_bytes header.now ++ bytes_of (content_of content.now)) ring.old) }
    ensures err { OnErr result (ring.new ≡ ring.old) }
{
    let bytes = packet(alloc, header, content)?;
    poke(ring, addr, &bytes);
    Ok(())
}

// A header, and bytes behind it.
fn packet(alloc: Global, header: &Header, content: &Data) -> Result<Vec<u8>, AllocError>
    ensures { IfOk result (λ bytes. bytes.items ≡ header_bytes header.now ++ bytes_of (content_of content.now)) }
{
    let mut bytes = header.encode().to_vec(alloc)?;
    let payload = content.to_vec(alloc)?;
    bytes.extend_from_slice(&payload)?;
    Ok(bytes)
}

// Adds bytes that are written before an access to come, where all of them lie in the memory.
fn write_before(
    alloc: Global,
    ring: &mut DeviceSide,
    nth: u64,
    addr: u64,
    content: &Data,
) -> Result<(), AllocError>
    ensures ok { OnOk result (ring.new ≡ planned nth addr (bytes_of (content_of content.now)) ring.old) }
    ensures err { OnErr result (ring.new ≡ ring.old) }
{
    let bytes = content.to_vec(alloc)?;
    if nth == 0 || !ring.mem().is_inside(addr, bytes.len() as u64) {
        return Ok(());
    }
    ring.change_before(alloc, nth, addr, &bytes)
}

fn write_desc(ring: &mut DeviceSide, queue: Queue, number: u16, desc: &Desc)
    ensures { ring.new ≡ poked_at number (desc_entry (areas_at queue ring.old.areas) number).at (desc_bytes desc.now) ring.old }
{
    if number < DeviceRing::size(ring) {
        let areas = areas_of(ring, queue);
        poke(ring, areas.desc_at(number), &desc.encode());
    }
}

fn write_entry(ring: &mut DeviceSide, queue: Queue, place: u16, head: u16)
    ensures { ring.new ≡ poked_at place (avail_entry (areas_at queue ring.old.areas) place).at (little_bytes 2 head) ring.old }
{
    if place < DeviceRing::size(ring) {
        let areas = areas_of(ring, queue);
        poke(ring, areas.avail_entry_at(place), &number_bytes(head));
    }
}

fn write_index(ring: &mut DeviceSide, queue: Queue, value: u16)
    ensures { ring.new ≡ poked (avail_idx (areas_at queue ring.old.areas)).at (little_bytes 2 value) ring.old }
{
    let areas = areas_of(ring, queue);
    poke(ring, areas.avail_idx_at(), &number_bytes(value));
}

// Where the areas of a queue lie.
fn areas_of(ring: &DeviceSide, queue: Queue) -> Areas
    ensures value { result ≡ areas_at queue ring.now.areas }
    ensures inside { AreInside result ring.now.size (whole ring.now.memory) }
    ensures fits { ring.now.memory.base + length ring.now.memory.bytes < 2 ^ 64 }
    ensures nonzero { 0 < ring.now.size }
{
    let areas = ring.areas();
    match queue {
        Queue::Rx => areas.rx,
        Queue::Tx => areas.tx,
        Queue::Event => areas.event,
    }
}

// A number of 2 bytes.
fn number_bytes(number: u16) -> [u8; 2]
    ensures { result ≡ little_bytes 2 number }
{
    let mut bytes = [0; 2];
    LittleEndian::write_u16(&mut bytes, number);
    bytes
}
