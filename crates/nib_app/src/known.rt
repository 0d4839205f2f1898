// The parts that have a name, and the version.
use nib_args::is_word;
use nib_print::pen::{Pen, To, Told, complain};
use nib_speech::version_number;

// A maker's part: its array is more than nib holds.
pub fn is_maker_s(name: &[u8]) -> bool {
    is_word(name, b"MT29F32G08ABAAAWP")
        || is_word(name, b"MT29F64G08AFAAAWP")
        || is_word(name, b"MT29F128G08AJAAAWP")
        || is_word(name, b"MT29F128G08AKAAAC5")
        || is_word(name, b"MT29F128G08AMAAAC5")
        || is_word(name, b"MT29F256G08AUAAAC5")
}

pub fn too_large(rt: HostRuntime, name: &[u8]) -> Told {
    complain(
        rt,
        name,
        b": the part is more than nib holds; python3 -m nibtoggle new makes it\n",
    )
}

// `nib parts`.
#[inline(never)]
pub fn show_parts(rt: HostRuntime) {
    let mut pen = Pen::new(rt, To::Output);
    pen.text(
        b"\
        T1                   512+16 bytes, 4 pages, 8 blocks, 2 LUNs, array 33792 bytes, device ID 68h\n\
        T2                   512+16 bytes, 3 pages, 5 blocks, 2 LUNs, array 15840 bytes, device ID 68h\n\
        W                    512+16 bytes, 4 pages, 8 blocks, 2 LUNs, array 33792 bytes, device ID 68h\n\
        more than nib holds, and made by python3 -m nibtoggle new:\n\
        MT29F32G08ABAAAWP    8192+448 bytes, 128 pages, 4096 blocks, 1 LUN, array 4529848320 bytes, device ID 68h\n\
        MT29F64G08AFAAAWP    8192+448 bytes, 128 pages, 4096 blocks, 1 LUN, array 4529848320 bytes, device ID 68h\n\
        MT29F128G08AJAAAWP   8192+448 bytes, 128 pages, 4096 blocks, 2 LUNs, array 9059696640 bytes, device ID 88h\n\
        MT29F128G08AKAAAC5   8192+448 bytes, 128 pages, 4096 blocks, 2 LUNs, array 9059696640 bytes, device ID 88h\n\
        MT29F128G08AMAAAC5   8192+448 bytes, 128 pages, 4096 blocks, 1 LUN, array 4529848320 bytes, device ID 68h\n\
        MT29F256G08AUAAAC5   8192+448 bytes, 128 pages, 4096 blocks, 2 LUNs, array 9059696640 bytes, device ID 88h\n",
    );
    pen.flush();
}

// `nib version`.
#[inline(never)]
pub fn show_version(rt: HostRuntime) {
    let v = version_number() as usize;
    let mut pen = Pen::new(rt, To::Output);
    pen.with_number(b"nib ", v / 65536);
    pen.with_number(b".", v / 256 % 256);
    pen.with_number(b".", v % 256);
    pen.end_line();
    pen.flush();
}
