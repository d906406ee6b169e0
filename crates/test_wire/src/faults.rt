//! The numbers of the faults.

use wire::WireFault;

#[test]
fn faults_have_numbers(rt: HostRuntime) {
    for (fault, number) in [
        (WireFault::TooLong, 1),
        (WireFault::Truncated, 2),
        (WireFault::Malformed, 3),
        (WireFault::Read, 4),
        (WireFault::NoMemory, 5),
    ] {
        assert_eq!(rt; fault.number(), number);
    }
}
