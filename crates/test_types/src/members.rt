//! The texts of definitions while memory is refused.

use super::calls::types_of;
use std::test::Fail;
use test_samples::{refusals, stream_with};
use type_expressions::{Asked, Query, find_asked, push_definitions};

/// A declaration, a method list, a list of one member, a list of one of each kind that goes on in it,
/// a class, a list of the least and the greatest values, an enumeration, and a union.
const RECORDS: [&[u8]; 8] = [
    b"\x1e\0\x05\x15\0\0\x80\0\0\0\0\0\0\0\0\0\0\0\0\0\0\0Packet\0\xf3\xf2\xf1",
    b"\x12\0\x06\x12\x03\0\0\0\x03\0\0\0\x03\0\0\0t\0\0\0",
    b"\x12\0\x03\x12\x0d\x15\x03\0t\0\0\0(\0last\0\xf1",
    b"\xda\0\x03\x12\0\x14\x03\0\0\x10\0\0\0\0\xf2\xf1\x01\x14\x01\0\0\x10\0\0t\x06\0\0\x08\0\x01\0\x02\x14\x02\0\0\x10\0\0t\x06\0\0\x10\0\x02\0\x09\x14\0\0t\x06\0\0\x0d\x15\x01\0u\0\0\0\x02\x80\xff\xffa\0\xf2\xf1\x0e\x15\x02\0t\0\0\0s\0\xf2\xf1\x0f\x15\x02\0\x01\x10\0\0f\0\xf2\xf1\x10\x15\0\0\0\x10\0\0N\0\xf2\xf1\x11\x15\x03\0\x03\0\0\0g\0\xf2\xf1\x11\x15\x07\0\x03\0\0\0h\0\xf2\xf1\x11\x15\x0b\0\x03\0\0\0i\0\xf2\xf1\x11\x15\x0f\0\x03\0\0\0j\0\xf2\xf1\x11\x15\x13\0\x03\0\0\0\x18\0\0\0k\0\xf2\xf1\x11\x15\x17\0\x03\0\0\0l\0\xf2\xf1\x11\x15\x19\0\x03\0\0\0 \0\0\0m\0\xf2\xf1\x1a\x15\x03\0\0\x10\0\0\x04\0\xf2\xf1\x04\x14\0\0\x02\x10\0\0",
    b"\x22\0\x04\x15\x10\0\0\0\x03\x10\0\0\0\0\0\0\0\0\0\0,\0Every \x22one\x22\0\xf2\xf1",
    b"\x9a\0\x03\x12\x02\x15\x03\0\xff\x7fa\0\x02\x15\x03\0\0\x80\x80b\0\xf3\xf2\xf1\x02\x15\x03\0\0\x80\x7fc\0\xf3\xf2\xf1\x02\x15\x03\0\x01\x80\0\x80d\0\xf2\xf1\x02\x15\x03\0\x01\x80\xff\x7fe\0\xf2\xf1\x02\x15\x03\0\x02\x80\xff\xfff\0\xf2\xf1\x02\x15\x03\0\x03\x80\0\0\0\x80g\0\x02\x15\x03\0\x03\x80\xff\xff\xff\x7fh\0\x02\x15\x03\0\x04\x80\xff\xff\xff\xffi\0\x02\x15\x03\0\x09\x80\0\0\0\0\0\0\0\x80j\0\x02\x15\x03\0\x09\x80\xff\xff\xff\xff\xff\xff\xff\x7fk\0\x02\x15\x03\0\x0a\x80\xff\xff\xff\xff\xff\xff\xff\xffl\0",
    b"\x16\0\x07\x15\x0c\0\0\0u\0\0\0\x05\x10\0\0Value\0\xf2\xf1",
    b"\x16\0\x06\x15\x01\0\0\0\x02\x10\0\0,\0Either\0\xf3\xf2\xf1",
];

#[test]
fn growth_for_lines_is_refused(rt: HostRuntime) -> Result<(), Fail> {
    let stream = stream_with(rt.alloc(), &RECORDS)?;
    let types = types_of(rt.alloc(), &stream)?;
    refusals(rt.alloc(), 16, 128, |heap| {
        let mut asked = [Asked::new(Query::Index(0x1006))];
        find_asked(&types, &mut asked);
        let mut text = Vec::new(heap);
        if push_definitions(heap, &mut text, &types, &asked).is_err() {
            return Ok(true);
        }
        assert_eq!(rt; text.len(), 310);
        Ok(false)
    })?;
    Ok(())
}
