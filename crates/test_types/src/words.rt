//! The words of types while memory is refused.

use super::calls::types_of;
use checked_types::Types;
use std::alloc::{AllocError, Allocator};
use std::test::Fail;
use test_samples::{refusals, stream_with};
use type_expressions::push_type;

/// Records of several kinds. Each names earlier ones.
const RECORDS: [&[u8]; 8] = [
    b"\x0a\0\x01\x10\x70\0\0\0\x01\0\xf2\xf1",
    b"\x0a\0\x02\x10\0\x10\0\0\x0c\0\x01\0",
    b"\x1e\0\x05\x15\0\0\x80\0\0\0\0\0\0\0\0\0\0\0\0\0\0\0Packet\0\xf3\xf2\xf1",
    b"\x0e\0\x03\x15\x02\x10\0\0\x23\0\0\0\0\x03\0\xf1",
    b"\x12\0\x01\x12\x03\0\0\0\x74\0\0\0\x01\x10\0\0\0\0\0\0",
    b"\x0e\0\x08\x10\x74\0\0\0\0\0\x03\0\x04\x10\0\0",
    b"\x0a\0\x05\x12\x75\0\0\0\x0c\x04\xf2\xf1",
    b"\x12\0\x02\x10\x74\0\0\0\x4c\0\x01\0\x02\x10\0\0\0\0\xf2\xf1",
];

/// Appends the words of a type.
fn tell<A: Allocator, T: Allocator>(
    text: &mut Vec<u8, A>,
    types: &Types<'_, T>,
    to: u32,
) -> Result<(), AllocError> {
    push_type(text, types, to)
}

#[test]
fn growth_for_words_is_refused(rt: HostRuntime) -> Result<(), Fail> {
    let stream = stream_with(rt.alloc(), &RECORDS)?;
    let types = types_of(rt.alloc(), &stream)?;
    refusals(rt.alloc(), 16, 32, |heap| {
        let mut text = Vec::new(heap);
        if tell(&mut text, &types, 0x1005).is_err() {
            return Ok(true);
        }
        assert_eq!(rt; text.len(), 53);
        Ok(false)
    })?;
    Ok(())
}
