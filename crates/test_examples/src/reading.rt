//! How often a source is asked for bytes.

use byte_io::{ReadFault, read_all};
use test_samples::Dripping;

#[test]
fn sources_at_the_limit(rt: HostRuntime) {
    let bytes = [7u8; 1000];
    for (len, fails, want, calls) in [
        (4, false, Ok(4), 5),
        (5, false, Err(ReadFault::TooLong), 5),
        // A source that has more bytes than the test reads.
        (1000, false, Err(ReadFault::TooLong), 5),
        (1, true, Err(ReadFault::Read), 2),
    ] {
        let mut source = Dripping {
            bytes: &bytes[..len],
            step: 1,
            calls: 0,
            fails,
        };
        let answer = read_all(rt.alloc(), &mut source, 4);
        assert_eq!(rt; answer.map(|file| file.len()), want);
        assert_eq!(rt; source.calls, calls);
    }
}
