/// A part of a wire: `width` bits from the place `lo` on. Wires are numbered from 0, and places
/// are counted from the least significant bit, which has place 0.
#[derive(Clone, Copy, Default)]
pub struct Seg {
    pub wire: usize,
    pub lo: u8,
    pub width: u8,
}

/// One bit of a wire, at a place counted from the least significant bit.
#[derive(Clone, Copy)]
pub struct WireBit {
    pub wire: usize,
    pub at: u8,
}
