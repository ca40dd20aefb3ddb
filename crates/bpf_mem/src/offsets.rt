// From ranges of addresses to offsets. The tests never add to an address, so that none overflows.
ghost use Rattle.std.specs.Prelude.{◌≡◌, is_some};
ghost use Rattle.bpf_mem.specs.Offsets.{offset_in, writable_offset};

use crate::regions::{HEAP_BASE, HEAP_SIZE, STACK_BASE, STACK_SIZE};

// The offset of a range in the region at `base` of `size` octets, if the range is in it.
#[inline(always)]
pub(crate) fn offset_in(base: u64, size: usize, addr: u64, len: u64) -> Option<usize>
    ensures { result ≡ offset_in base size addr len }
{
    let size = size as u64;
    if base <= addr && len <= size && addr - base <= size - len {
        Some((addr - base) as usize)
    } else {
        None
    }
}

// The offset of a range that may be written in the octets of a room: the stack, then the heap.
#[inline(always)]
pub(crate) fn writable_offset(addr: u64, len: u64) -> Option<usize>
    ensures { result ≡ writable_offset addr len }
{
    if len == 0 {
        return Some(0);
    }
    if let Some(at) = offset_in(STACK_BASE, STACK_SIZE, addr, len) {
        return Some(at);
    }
    offset_in(HEAP_BASE, HEAP_SIZE, addr, len).map(|at| STACK_SIZE + at)
}

// Whether a range may be written.
#[inline(always)]
pub(crate) fn has_offset(addr: u64, len: u64) -> bool
    ensures { result ≡ is_some (writable_offset addr len) }
{
    writable_offset(addr, len).is_some()
}
