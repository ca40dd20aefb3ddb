//! The helpers of each point.
use super::expect;
use std::test::Fail;

const HELPERS: [(&str, &[u32]); 5] = [
    ("receive", &[1, 2, 3, 4, 5, 6, 9, 10, 11, 13, 14]),
    ("inbound", &[1, 2, 3, 4, 5, 6, 8, 9, 10, 11, 13, 14]),
    ("decision", &[1, 2, 5, 7, 8, 9, 13]),
    ("outbound", &[1, 2, 3, 4, 5, 6, 7, 8, 9, 13]),
    ("encode", &[1, 2, 5, 6, 7, 9, 12, 13]),
];

// A program that calls a helper is accepted at a point exactly if the point has the helper.
#[test]
fn each_point_has_its_helpers(rt: HostRuntime) -> Result<(), Fail> {
    for (point, numbers) in HELPERS {
        for number in 0..=16 {
            let manifest = format!(in rt.alloc();
                "version = 1\n[[program]]\nname = 'p'\npoint = '{point}'\nfuel = 1\ncode = '85000000{number:02x}0000009500000000000000'\n"
            )?;
            let want = if numbers.contains(&number) {
                "maps 0\nprograms 1"
            } else {
                "helper program 1 0"
            };
            expect(&rt, manifest.as_bytes(), want)?;
        }
    }
    Ok(())
}
