// What every command that reads an input asks: what a byte looks like on a terminal.

// A byte as a terminal can show it.
pub fn printable(b: u8) -> u8 {
    if (32..127).contains(&b) { b } else { b'.' }
}
