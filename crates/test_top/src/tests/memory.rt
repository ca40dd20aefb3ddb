use super::{answer, shelf_of, update};
use std::test::Fail;
use xbgp_top::Status;

const WHOLE: &str = "10.0.0.0/8 400101004002040201fde9400304c0000201
10.8.0.0/13 400101004002040201fde9400304c0000201
end
";

// If an allocation is made to fail, the set-up fails by itself, or the answer is want of memory with a front of the
// text.
#[test]
fn want_of_memory_leaves_a_front(rt: HostRuntime) -> Result<(), Fail> {
    let alloc = rt.alloc();
    let octets = update(alloc, &[8, 10, 13, 10, 8])?;
    let mut shelf = shelf_of(alloc, &octets, b"")?;
    let (status, written) = answer(alloc, &["heard", "x"], &mut shelf, 0)?;
    if status == Status::OutOfMemory {
        assert!(rt; WHOLE.as_bytes().starts_with(&written));
    } else {
        assert_eq!(rt; status, Status::Done);
        assert_eq!(rt; written.as_slice(), WHOLE.as_bytes());
    }
    Ok(())
}
