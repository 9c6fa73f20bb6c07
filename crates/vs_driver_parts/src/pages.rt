//! The driver's transmit pages: those that are free, how many are in flight, and how many pages of the queue in work are staged.

ghost use Rattle.std.specs.{Prelude.{◌≡◌, [], ◌+◌, ◌-◌, ◌<◌, ◌≤◌, ◌==◌, length, vec_capacity, nat_lt, IfOk}, List.All};
ghost use Rattle.vs_driver_parts.specs.PageCounts.{PageCounts};
ghost use Rattle.vs_limits.specs.declared.TheConstants.{STAGED_MAX};

use std::alloc::{AllocError, Global};
use std::marker::Model;
use vs_limits::STAGED_MAX;
use vs_page::Page;

/// The pages of the transmit queue that are the driver's.
#[derive(Drop)]
pub struct Pages {
    // As many as the queue has descriptors, in flight or free.
    size: u16,
    staged: u16,
    free: Vec<Page>,
}

impl Model for Pages {
    ghost use Rattle.std.specs.Prelude.{◌-◌, length};
    ghost use Rattle.vs_driver_parts.specs.PageCounts.{PageCounts};

    ghost Value = { PageCounts };

    ghost use Rattle.vs_driver_parts.specs.PageFields.{AreCounted};

    ghost view = { λ p. record { size = p.size; in_flight = p.size - length p.free.items; staged = p.staged } };

    ghost invariant = { AreCounted };
}

impl Pages {
    /// The transmit pages of a queue of this size, all free.
    pub fn new(alloc: Global, size: u16) -> Result<Pages, AllocError>
        ensures { IfOk result (λ p. p ≡ record { size = size; in_flight = 0; staged = 0 }) }
    {
        Ok(Pages {
            size,
            staged: 0,
            free: free_pages(alloc, size)?,
        })
    }

    /// Descriptors of each queue.
    pub fn size(&self) -> u16
        ensures { result ≡ self.now.size }
    {
        self.size
    }

    /// Transmit pages that were staged and not reaped.
    pub fn in_flight(&self) -> u16
        ensures count { result ≡ self.now.in_flight }
        ensures within { result ≤ self.now.size }
    {
        self.size - self.free.len() as u16
    }

    /// Whether a page is free.
    pub fn has_page(&self) -> bool
        ensures { result ≡ nat_lt self.now.in_flight self.now.size }
    {
        !self.free.is_empty()
    }

    /// Takes a free page, which is in flight then.
    pub fn take(&mut self) -> Page
        requires free { self.old.in_flight < self.old.size }
        ensures { self.new ≡ record self.old { in_flight = self.old.in_flight + 1 } }
    {
        self.free.take_last()
    }

    /// Gets back a page that was in flight.
    pub fn give_back(&mut self, page: Page)
        requires in_flight { 0 < self.old.in_flight }
        ensures { self.new ≡ record self.old { in_flight = self.old.in_flight - 1 } }
    {
        self.free.push_reserved(page);
    }

    /// Pages of the queue in work that are staged and not published.
    pub fn staged(&self) -> u16
        ensures { result ≡ self.now.staged }
    {
        self.staged
    }

    /// Counts a page of the queue in work as staged.
    pub fn count_staged(&mut self)
        requires few { self.old.staged < STAGED_MAX }
        ensures { self.new ≡ record self.old { staged = self.old.staged + 1 } }
    {
        self.staged += 1;
    }

    /// Whether as many pages are staged as may be.
    pub fn are_all_staged(&self) -> bool
        ensures { result ≡ (self.now.staged == STAGED_MAX) }
    {
        self.staged == STAGED_MAX
    }

    /// Counts all staged pages as published.
    pub fn count_published(&mut self)
        ensures { self.new ≡ record self.old { staged = 0 } }
    {
        self.staged = 0;
    }
}

/// As many pages as the queue has descriptors, none of which has a used byte.
pub fn free_pages(alloc: Global, size: u16) -> Result<Vec<Page>, AllocError>
    ensures count { IfOk result (λ v. length v.items ≡ size) }
    ensures empty { IfOk result (λ v. All (λ page. page ≡ []) v.items) }
    ensures room { IfOk result (λ v. vec_capacity v ≡ size) }
{
    let mut pages = Vec::with_capacity(alloc, size as usize)?;
    for _ in 0..size {
        pages.push_reserved(Page::new(alloc)?);
    }
    Ok(pages)
}
