//! The driver's end of one queue.
ghost use Rattle.std.specs.Prelude.{min, IfSome, ◌≡◌, ◌<◌, ◌≤◌, ◌+◌, ◌-◌, ◌*◌, ◌^◌, [], length, nat_lt, replicate, IfOk, IfErr, IfNone};
ghost use Rattle.std.specs.Prelude.{OnOk, OnErr, OnSome, IsTrue, None, Some, is_ok};
ghost use Rattle.std.specs.{List.range_with_len, VecDeque.deque_capacity};
ghost use Rattle.vs_guest_mem.specs.Memory.{bytes_at, is_inside};
ghost use Rattle.byteorder.specs.Endian.{little_bytes, little_number};
ghost use Rattle.vs_page.specs.declared.page.TheConstants.{PAGE_LEN};
ghost use Rattle.vs_layout.specs.{Entry.used_elem_of, Layout.used_elem, Layout.AreInside};
ghost use Rattle.vs_ring_plain.specs.{Device.SamePlace, Device.areas_at, Device.with_memory, Take.whole};
ghost use Rattle.vs_ring_port.specs.declared.queue.TheConstants.{QUEUE_SIZE_MAX};
ghost use Rattle.vs_plain_driver.specs.Queue.{
  cleared_avail,
  desc_for,
  flight_in,
  next_elem,
  next_free,
  next_used,
  page_at,
  page_back,
  published_memory,
  published_queue,
  reaped_page,
  reaped_queue,
  staged_memory,
  staged_queue,
  with_page,
};
ghost use Rattle.vs_plain_driver.specs.View.{ArePagesIn};

use byteorder::{ByteOrder, LittleEndian};
use std::alloc::{AllocError, Global};
use std::collections::VecDeque;
use std::marker::Model;
use vs_layout::{Areas, Desc, UsedElem, WRITE};
use vs_page::{PAGE_LEN, Page};
use vs_ring_plain::device::DeviceSide;
use vs_ring_port::{DeviceRing, Queue};

/// The driver's end of a queue of n descriptors (Virtio 1.2, section 2.7). Each descriptor has a page in the memory. A page gets the
/// descriptor that has been free longest, so that descriptors come in order where the device returns pages in order.
///
/// All memory is taken when it is made.
#[derive(Debug, Drop)]
pub struct DriverQueue {
    n: u16,
    // The address of the first descriptor's page, where the pages lie in the memory.
    pages_at: Option<u64>,
    pages: Vec<Option<Page>>,
    free: VecDeque<u16>,
    published: u16,
    staged: u16,
    reaped: u16,
}

impl Model for DriverQueue {
    ghost use Rattle.vs_plain_driver.specs.Queue.{DriverQueueState};

    ghost Value = { DriverQueueState };

    ghost use Rattle.vs_plain_driver.specs.View.{queue_in, IsInOrder};

    ghost view = { queue_in };

    ghost invariant = { IsInOrder };
}

impl DriverQueue {
    /// A queue with no page in flight, whose pages lie from `pages_at` on. What the driver owns of the available ring beside the entries is
    /// written as it stands before the first call: flags, index and `used_event` are 0 (Virtio 1.2, sections 2.7.6 and 2.7.7).
    ///
    /// The only error is want of memory.
    pub fn new(
        alloc: Global,
        device: &mut DeviceSide,
        queue: Queue,
        pages_at: Option<u64>,
    ) -> Result<DriverQueue, AllocError>
        ensures queue { IfOk result (λ q. q ≡ record {
          n = device.old.size;
          pages_at = pages_at;
          pages = replicate device.old.size None;
          free = range_with_len 0 device.old.size;
          published = 0;
          staged = 0;
          reaped = 0;
        }) }
        ensures memory { let d = device.old in
            OnOk result (device.new ≡ with_memory d (cleared_avail (areas_at queue d.areas) d.size d.memory)) }
        ensures place { SamePlace device.old device.new }
    {
        let areas = areas_of(device, queue);
        let n = device.size();
        let pages = no_pages(alloc, n)?;
        let free = all_numbers(alloc, n)?;
        device.set(areas.avail, &[0, 0]);
        device.set(areas.avail_idx_at(), &[0, 0]);
        device.set(areas.used_event_at(n), &[0, 0]);
        Ok(DriverQueue {
            n,
            pages_at,
            pages,
            free,
            published: 0,
            staged: 0,
            reaped: 0,
        })
    }

    /// Pages that were staged and not reaped.
    pub fn in_flight(&self) -> u16
        ensures value { result ≡ flight_in self.now }
        ensures within { result ≤ self.now.n }
        ensures staged { self.now.staged ≤ result }
    {
        self.n - self.free.len() as u16
    }

    /// Stages a page: its bytes, its descriptor and its entry in the available ring are written. The page comes back where no descriptor
    /// is free.
    pub fn stage(&mut self, device: &mut DeviceSide, queue: Queue, page: Page) -> Result<(), Page>
        requires same_size { self.old.n ≡ device.old.size }
        requires pages { ArePagesIn self.old device.old.memory }
        ensures ok { is_ok result ≡ nat_lt 0 (length self.old.free) }
        ensures staged { OnOk result (self.new ≡ staged_queue page self.old) }
        ensures memory { OnOk result (device.new ≡ with_memory device.old
            (staged_memory queue page (areas_at queue device.old.areas) self.old device.old.memory)) }
        ensures room { OnOk result (flight_in self.old < self.old.n) }
        ensures more { OnOk result (flight_in self.new ≡ flight_in self.old + 1) }
        ensures full { OnErr result (flight_in self.old ≡ self.old.n) }
        ensures page_back { IfErr result (λ back. back ≡ page) }
        ensures same { OnErr result ((self.new ≡ self.old) × (device.new ≡ device.old)) }
        ensures place { SamePlace device.old device.new }
        ensures same_size { self.new.n ≡ self.old.n }
        ensures same_place { self.new.pages_at ≡ self.old.pages_at }
    {
        let areas = areas_of(device, queue);
        let Some(id) = self.free.pop_front() else {
            return Err(page);
        };
        write_page(device, self.pages_at, self.n, id, &page);
        let desc = describe(queue, self.pages_at, id, &page);
        device.set(areas.desc_at(id), &desc.encode());
        let place = (self.published as u32 + self.staged as u32) % self.n as u32;
        device.set(areas.avail_entry_at(place as u16), &number_bytes(id));
        self.pages[id as usize] = Some(page);
        self.staged += 1;
        Ok(())
    }

    /// Publishes the pages staged: the index of the available ring is stored, once. Nothing is stored where none is staged.
    pub fn publish(&mut self, device: &mut DeviceSide, queue: Queue)
        requires same_size { self.old.n ≡ device.old.size }
        ensures queue { self.new ≡ published_queue self.old }
        ensures memory { device.new ≡ with_memory device.old
            (published_memory (areas_at queue device.old.areas) self.old device.old.memory) }
        ensures place { SamePlace device.old device.new }
        ensures same_size { self.new.n ≡ self.old.n }
        ensures same_place { self.new.pages_at ≡ self.old.pages_at }
    {
        if self.staged != 0 {
            let areas = areas_of(device, queue);
            self.published = self.published.wrapping_add(self.staged);
            self.staged = 0;
            device.set(areas.avail_idx_at(), &number_bytes(self.published));
        }
    }

    /// Gets back the page of the used ring's next element, with as many bytes as that tells, 4,096 at most. Where the used index lies
    /// further ahead than published pages are in flight, or the element names no descriptor of one in flight, there is none.
    pub fn reap(&mut self, device: &DeviceSide, queue: Queue) -> Option<Page>
        requires same_size { self.old.n ≡ device.now.size }
        requires pages { ArePagesIn self.old device.now.memory }
        ensures page { let areas = areas_at queue device.now.areas in
            result ≡ reaped_page areas self.old device.now.memory (next_used areas self.old device.now.memory) }
        ensures queue { let areas = areas_at queue device.now.areas in
            self.new ≡ reaped_queue self.old (next_used areas self.old device.now.memory) }
        ensures less { OnSome result (flight_in self.old ≡ flight_in self.new + 1) }
        ensures published { OnSome result (self.old.staged < flight_in self.old) }
        ensures none { IfNone result (self.new ≡ self.old) }
        ensures staged { self.new.staged ≡ self.old.staged }
        ensures same_size { self.new.n ≡ self.old.n }
        ensures same_place { self.new.pages_at ≡ self.old.pages_at }
    {
        let areas = areas_of(device, queue);
        let more = load_number(device, areas.used_idx_at()).wrapping_sub(self.reaped);
        if more == 0 || more > self.in_flight() - self.staged {
            return None;
        }
        let element = load_element(device, &areas, self.reaped % self.n);
        if element.id >= self.n as u32 {
            return None;
        }
        let id = element.id as u16;
        let mut page = self.pages[id as usize].take()?;
        read_page(device, self.pages_at, self.n, id, element.len, &mut page);
        self.free.push_back_reserved(id);
        self.reaped = self.reaped.wrapping_add(1);
        Some(page)
    }
}

// A place for the page of each of n descriptors.
fn no_pages(alloc: Global, n: u16) -> Result<Vec<Option<Page>>, AllocError>
    ensures { IfOk result (λ pages. pages.items ≡ replicate n None) }
{
    let mut pages = Vec::with_capacity(alloc, n as usize)?;
    for _ in 0..n {
        pages.push_reserved(None);
    }
    Ok(pages)
}

// The numbers below n.
#[tactic(auto, using(crate::proofs::Numbers::next_number))]
fn all_numbers(alloc: Global, n: u16) -> Result<VecDeque<u16>, AllocError>
    ensures items { IfOk result (λ numbers. numbers.items ≡ range_with_len 0 n) }
    ensures room { IfOk result (λ numbers. n ≤ deque_capacity numbers) }
{
    let mut numbers = VecDeque::with_capacity(alloc, n as usize)?;
    for number in 0..n {
        numbers.push_back_reserved(number);
    }
    Ok(numbers)
}

// Where the areas of a queue lie.
fn areas_of(device: &DeviceSide, queue: Queue) -> Areas
    ensures value { result ≡ areas_at queue device.now.areas }
    ensures inside { AreInside result device.now.size (whole device.now.memory) }
    ensures fits { device.now.memory.base + length device.now.memory.bytes < 2 ^ 64 }
    ensures nonzero { 0 < device.now.size }
    ensures limit { device.now.size ≤ QUEUE_SIZE_MAX }
{
    let areas = device.areas();
    match queue {
        Queue::Rx => areas.rx,
        Queue::Tx => areas.tx,
        Queue::Event => areas.event,
    }
}

// Writes a page's bytes to its place.
fn write_page(device: &mut DeviceSide, pages_at: Option<u64>, n: u16, id: u16, page: &Page)
    requires number { id < n }
    requires inside { IfSome pages_at (λ at. (device.old.memory.base ≤ at)
        × (at + PAGE_LEN * n ≤ device.old.memory.base + length device.old.memory.bytes)) }
    ensures memory { device.new ≡ with_memory device.old (with_page pages_at id page.now device.old.memory) }
    ensures size { length device.new.memory.bytes ≡ length device.old.memory.bytes }
{
    let _fits = device.areas();
    if let Some(at) = pages_at {
        device.set(at + PAGE_LEN as u64 * id as u64, page.bytes());
    }
}

// Reads the first `len` bytes of a page back from its place, 4,096 at most.
fn read_page(device: &DeviceSide, pages_at: Option<u64>, n: u16, id: u16, len: u32, page: &mut Page)
    requires number { id < n }
    requires inside { IfSome pages_at (λ at. (device.now.memory.base ≤ at)
        × (at + PAGE_LEN * n ≤ device.now.memory.base + length device.now.memory.bytes)) }
    ensures { page.new ≡ page_back pages_at id (min len PAGE_LEN) page.old device.now.memory }
{
    let _fits = device.areas();
    let count = (len as usize).min(PAGE_LEN);
    match pages_at {
        None => page.truncate(count),
        Some(at) => {
            let mut bytes = [0; PAGE_LEN];
            device.get(at + PAGE_LEN as u64 * id as u64, &mut bytes[..count]);
            page.clear();
            page.write(0, &bytes[..count]);
        }
    }
}

// The descriptor of a page.
fn describe(queue: Queue, pages_at: Option<u64>, id: u16, page: &Page) -> Desc
    requires fits { page_at pages_at id < 2 ^ 64 }
    ensures { result ≡ desc_for queue (page_at pages_at id) (length page.now) }
{
    let addr = pages_at.unwrap_or(0) + PAGE_LEN as u64 * id as u64;
    match queue {
        Queue::Tx => Desc {
            addr,
            len: page.bytes().len() as u32,
            flags: 0,
            next: 0,
        },
        Queue::Rx | Queue::Event => Desc {
            addr,
            len: PAGE_LEN as u32,
            flags: WRITE,
            next: 0,
        },
    }
}

// A number of 2 bytes.
fn number_bytes(number: u16) -> [u8; 2]
    ensures { result ≡ little_bytes 2 number }
{
    let mut bytes = [0; 2];
    LittleEndian::write_u16(&mut bytes, number);
    bytes
}

// Reads a number of 2 bytes.
fn load_number(device: &DeviceSide, addr: u64) -> u16
    requires { IsTrue (is_inside device.now.memory addr 2) }
    ensures { result ≡ little_number 2 (bytes_at device.now.memory addr 2) }
{
    let mut bytes = [0; 2];
    device.get(addr, &mut bytes);
    LittleEndian::read_u16(&bytes)
}

// Reads the used ring's element at a place.
fn load_element(device: &DeviceSide, areas: &Areas, place: u16) -> UsedElem
    requires inside { IsTrue (is_inside device.now.memory (used_elem areas.now place).at 8) }
    requires fits { (used_elem areas.now place).at < 2 ^ 64 }
    ensures { result ≡ used_elem_of (bytes_at device.now.memory (used_elem areas.now place).at 8) }
{
    let mut bytes = [0; 8];
    device.get(areas.used_elem_at(place), &mut bytes);
    UsedElem::decode(&bytes)
}
