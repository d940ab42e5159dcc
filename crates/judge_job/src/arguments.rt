// The arguments that are ids.
use std::env::Env;
use std::str;

// Whether argument `i` is there and begins with a digit. Of one that is longer, the host's `arg` leaves the first byte.
pub(crate) fn is_id(rt: &impl Env, i: usize) -> bool {
    let mut first = [0u8; 1];
    let _ = rt.arg(i, &mut first);
    first[0].is_ascii_digit()
}

// The id that argument `i` writes in at most ten digits, and nothing else, where it writes one. A longer argument does not fit the
// buffer, and `parse` alone would take a sign.
pub(crate) fn id_of(rt: &impl Env, i: usize) -> Option<u32> {
    let mut text = [0u8; 10];
    let length = rt.arg(i, &mut text).ok()?;
    let digits = &text[..length];
    if !digits.iter().all(|byte| byte.is_ascii_digit()) {
        return None;
    }
    str::from_utf8(digits).ok()?.parse().ok()
}
