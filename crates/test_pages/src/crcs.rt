// The CRC by its table: entries of it, and CRCs that are known beforehand.
use page::crc::crc_of;

// Entries of the CRC's table: 4Fh takes the start value to 4E00h, and the next byte looks up its place alone.
pub fn entries(rt: HostRuntime) {
    for i in [1, 2, 3, 255] {
        let crc = crc_of(&[0x4f, 0x4e ^ i]);
        let _ = println!(rt; "entry {i} {crc:04x}");
    }
}

fn known(rt: HostRuntime, label: &str, s: &[u8]) {
    let crc = crc_of(s);
    let _ = println!(rt; "crc of {label} {crc:04x}");
}

pub fn knowns(rt: HostRuntime) {
    known(rt, "nothing", b"");
    known(rt, "123456789", b"123456789");
    known(rt, "254 times 00", &[0u8; 254]);
    known(rt, "254 times ff", &[0xffu8; 254]);
}
