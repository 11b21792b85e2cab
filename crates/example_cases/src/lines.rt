//! Lines within an answer.
use std::alloc::AllocError;

/// Writes bytes, each as the character of its number, and a line feed as `\n`.
pub fn put_lines(text: &mut String, bytes: &[u8]) -> Result<(), AllocError> {
    for byte in bytes {
        match *byte {
            b'\n' => text.push_str("\\n")?,
            other => text.push(char::from(other))?,
        }
    }
    Ok(())
}
