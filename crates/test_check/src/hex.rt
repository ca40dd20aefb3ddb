use std::alloc::{AllocError, Global};

fn digit(text: u8) -> u8 {
    match text {
        b'0'..=b'9' => text - b'0',
        b'a'..=b'f' => text - b'a' + 10,
        _ => 0,
    }
}

pub(crate) fn octets(alloc: Global, text: &str) -> Result<Vec<u8>, AllocError> {
    let mut octets = Vec::new(alloc);
    for pair in text.as_bytes().chunks_exact(2) {
        if let [high, low] = pair {
            octets.push(digit(*high) << 4 | digit(*low))?;
        }
    }
    Ok(octets)
}
