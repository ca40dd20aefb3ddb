// The helpers on the write buffer and on the heap.
ghost use Rattle.std.specs.Prelude.{◌≡◌, ◌≤◌};
ghost use Rattle.xbgp_helpers.specs.Helping.{alloc, part_after, value_of, write_buf};

use crate::numbers::{HEAP_UNIT, MAX_BUFFER, MINUS_2};
use crate::ranges::octets;
use bpf_mem::Memory;
use bpf_mem::regions::{HEAP_BASE, HEAP_SIZE};
use xb_values::Buf;

/// Helper 12: appends to the write buffer.
pub(crate) fn write_buf(buffer: &mut Buf, src: u64, len: u64, memory: &Memory<'_>) -> Option<u64>
    requires { MAX_BUFFER ≤ buffer.old.capacity }
    ensures value { result ≡ value_of (write_buf buffer.old.octets src len memory.now) }
    ensures octets { buffer.new.octets ≡ part_after buffer.old.octets (write_buf buffer.old.octets src len memory.now) }
    ensures capacity { buffer.new.capacity ≡ buffer.old.capacity }
{
    let bytes = octets(memory, src, len)?;
    if buffer.len() > MAX_BUFFER || bytes.len() > MAX_BUFFER - buffer.len() {
        return Some(MINUS_2);
    }
    buffer.append(bytes);
    Some(0)
}

/// Helper 13: takes octets of the heap, of which `mark` are taken.
pub(crate) fn alloc(mark: &mut u64, len: u64) -> u64
    ensures value { result ≡ (alloc mark.old len).0 }
    ensures mark { mark.new ≡ (alloc mark.old len).1 }
{
    let size = HEAP_SIZE as u64;
    if *mark > size || len > size - *mark {
        return MINUS_2;
    }
    let taken = len.div_ceil(HEAP_UNIT) * HEAP_UNIT;
    if taken > size - *mark {
        return MINUS_2;
    }
    let addr = HEAP_BASE + *mark;
    *mark += taken;
    addr
}
