use ddl_class::Class;

/// The length of the longest run of small letters at the front, found this many times; the sum modulo 2^64.
pub fn letters_before_a_stop(text: &[u8], rounds: u32) -> u64 {
    let letters = Class::range(b'a', b'z');
    let mut sum: u64 = 0;
    for _ in 0..rounds {
        sum = sum.wrapping_add(letters.run_length(text) as u64);
    }
    sum
}
