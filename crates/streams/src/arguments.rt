// What a program is started with.
use std::env::FillError;
use std::rt::Env;

// Whether there is an argument of this number; number 0 is the program's own name.
pub fn has_argument<R: Env>(rt: &R, number: usize) -> bool {
    let mut front = [0u8; 8];
    !matches!(rt.arg(number, &mut front), Err(FillError::NotPresent))
}
