//! The accesses of Linux's driver when it finds the device (`virtio_mmio.c`, `virtio.c`, `virtio_transport.c`), and their answers.

use crate::{ReadyQueue, Regs, Virtqueue, Wrote};

// Whether reads of four bytes, given by their offsets, have these answers.
fn reads(regs: &Regs, answers: &[(u64, u32)]) -> bool {
    for &(offset, answer) in answers {
        if regs.read(offset, 4) != answer {
            return false;
        }
    }
    true
}

fn writes(regs: &mut Regs, values: &[(u64, u32)]) {
    for &(offset, value) in values {
        regs.write(offset, value);
    }
}

// Sets up a queue of 8 entries at a page: its descriptors, its available ring behind them, and then its used ring.
fn sets_up(regs: &mut Regs, queue: u32, at: u32) -> bool {
    regs.write(0x030, queue);
    let found = reads(regs, &[(0x044, 0), (0x034, 256)]) && !regs.may_run();
    writes(regs, &[(0x038, 8), (0x080, at), (0x084, 0)]);
    writes(regs, &[(0x090, at | 128), (0x094, 0)]);
    writes(regs, &[(0x0a0, at | 152), (0x0a4, 0), (0x044, 1)]);
    found && reads(regs, &[(0x044, 1), (0x080, 0)])
}

#[test]
fn linux_driver_finds_the_device(rt: HostRuntime) {
    let mut regs = Regs::new(3, 256, 4_096, 65_536);
    assert!(rt; reads(&regs, &[(0x000, 0x7472_6976), (0x004, 2), (0x008, 19)]));
    writes(&mut regs, &[(0x070, 0), (0x070, 1), (0x070, 3), (0x014, 1)]);
    assert!(rt; reads(&regs, &[(0x070, 3), (0x010, 1), (0x00c, 0)]));
    writes(&mut regs, &[(0x014, 0), (0x024, 1), (0x020, 1), (0x024, 0)]);
    assert!(rt; reads(&regs, &[(0x010, 0x3000_0003), (0x020, 0)]));
    writes(&mut regs, &[(0x020, 0x3000_0003), (0x070, 11)]);
    assert!(rt; reads(&regs, &[(0x070, 11)]));
    for (queue, at) in [(0, 4_096), (1, 8_192), (2, 12_288)] {
        assert!(rt; sets_up(&mut regs, queue, at));
    }
    assert!(rt; reads(&regs, &[(0x0fc, 0), (0x100, 3), (0x104, 0)]) && !regs.may_run());
    writes(&mut regs, &[(0x070, 15), (0x050, 0)]);
    assert!(rt; reads(&regs, &[(0x070, 15)]) && regs.may_run());
    assert!(rt; regs.features() == 0x1_3000_0003 && regs.notified() == 0);
    let tx = ReadyQueue {
        size: 8,
        desc: 8_192,
        driver: 8_320,
        device: 8_344,
    };
    assert_eq!(rt; regs.queue(Virtqueue::Tx), Some(tx));
    regs.used();
    regs.set_cid(9);
    assert!(rt; reads(&regs, &[(0x060, 3), (0x0fc, 1), (0x100, 9)]));
    writes(&mut regs, &[(0x064, 1)]);
    regs.failed();
    assert!(rt; reads(&regs, &[(0x060, 2), (0x070, 79)]));
    assert_eq!(rt; regs.write(0x070, 0), Wrote::Renew);
    assert_eq!(rt; regs.queue(Virtqueue::Tx), None);
}
