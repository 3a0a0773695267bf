// The checksum of a hue's colours: Adler-32 over red, green and blue of each lightness and saturation, saturation fastest.
use answers::with_bytes;

pub(crate) fn checksum(hue: i32) -> u32 {
    let mut sum = 1;
    for lightness in 0..=100 {
        for saturation in 0..=100 {
            sum = with_bytes(sum, &hls::hls_to_rgb(hue, lightness, saturation));
        }
    }
    sum
}
