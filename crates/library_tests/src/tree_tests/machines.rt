//! CPUs and slices that are shared out among three caches.

use machine::{Machine, Parameters};
use std::process::Abort;

// Eight CPUs, and caches of four sets in two slices.
fn three_caches(rt: &impl Abort) -> Machine {
    let parameters = Parameters {
        domains: 3,
        sets: 4,
        cpus: 8,
        slices: 2,
        ..Parameters::default()
    };
    Machine::checked(&parameters).expect(rt, "the parameters are in range")
}

// CPUs with the caches that serve them.
const CPUS: [(u8, u8); 6] = [(0, 0), (2, 0), (3, 1), (5, 1), (6, 2), (7, 2)];

#[test]
fn cpus_are_shared_out_as_evenly_as_they_go(rt: HostRuntime) {
    let machine = three_caches(&rt);
    for (cpu, domain) in CPUS {
        assert!(rt; cpu < machine.cpus);
        assert_eq!(rt; machine.domain_of(cpu), domain, "CPU {cpu}");
    }
}

#[test]
fn slices_are_numbered_through_all_caches(rt: HostRuntime) {
    let machine = three_caches(&rt);
    assert!(rt; machine.domains == 3 && machine.slices == 2);
    assert_eq!(rt; machine.set_of(u64::MAX), 3);
    assert_eq!(rt; machine.slice_of(u64::MAX), 1);
    assert_eq!(rt; machine.slice_count(), 6);
    assert_eq!(rt; machine.slice_number(2, 1), 5);
    assert_eq!(rt; machine.first_slice(1), 2);
    assert_eq!(rt; machine.line_slice(1, 3), 3);
}
