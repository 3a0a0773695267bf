// What a canvas holds, as a checksum.

// The fill pattern, byte `i` of a canvas before a session: never 0 nor 255, one of which is the fourth byte of each pixel.
fn pattern(i: usize) -> u8 {
    (1 + i % 251) as u8
}

pub(crate) fn fill(canvas: &mut [u8]) {
    for (i, byte) in canvas.iter_mut().enumerate() {
        *byte = pattern(i);
    }
}

// What a canvas holds after a session: the checksum of the visible rows, and whether all else is as it was.
#[derive(Clone, Copy)]
pub(crate) struct Shown {
    pub sum: u32,
    pub is_rest_kept: bool,
}

fn is_inside(pixel: usize, stride: usize, width: usize, height: usize) -> bool {
    stride != 0 && pixel % stride < width && pixel / stride < height
}

pub(crate) fn look(canvas: &[u8], stride: usize, width: usize, height: usize) -> Shown {
    let mut sum = 1;
    let mut is_rest_kept = true;
    for (i, &byte) in canvas.iter().enumerate() {
        if is_inside(i / 4, stride, width, height) {
            sum = answers::with_byte(sum, byte);
        } else if byte != pattern(i) {
            is_rest_kept = false;
        }
    }
    Shown { sum, is_rest_kept }
}
