//! Both ends of standard rings as plain values, and how what each of them wrote lies in the memory as the lists of pages in flight
//! (Virtio 1.2, section 2.7).
#![tactic(auto)]

pub mod laws;
