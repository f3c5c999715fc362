//! The operations on vector registers.

/// The width of a lane: 8, 16, 32 or 64 bits.
#[derive(Clone, Copy, Debug, PartialEq, Eq)]
pub enum LaneWidth {
    Byte,
    Word,
    Doubleword,
    Quadword,
}

/// The operation of a vector instruction, legacy or VEX: one for each stem of a mnemonic in the
/// instruction table, with the width of its lanes where the stem has several. Each names its section
/// of Intel's SDM, volume 2.
#[derive(Clone, Copy, Debug, PartialEq, Eq)]
pub enum VectorOp {
    /// Each lane of the result is computed of the two lanes at its place.
    Lanewise(LaneOp),
    /// Each lane of the result is made of one lane, from wherever the row takes it.
    Moving(MoveOp),
    /// "PMADDWD: Multiply and Add Packed Integers".
    Pmaddwd,
    /// "PSADBW: Compute Sum of Absolute Differences".
    Psadbw,
    /// "PSHUFB: Packed Shuffle Bytes".
    Pshufb,
    /// "PMOVMSKB: Move Byte Mask".
    Pmovmskb,
    /// "VZEROUPPER: Zero Upper Bits of YMM and ZMM Registers".
    Vzeroupper,
}

/// The vector operations by lane: each lane of the result is computed of the lanes at its place in the
/// two arguments, or in the second alone.
#[derive(Clone, Copy, Debug, PartialEq, Eq)]
pub enum LaneOp {
    /// "PADDB/PADDW/PADDD/PADDQ: Add Packed Integers".
    Padd(LaneWidth),
    /// "PSUBB/PSUBW/PSUBD: Subtract Packed Integers" and "PSUBQ: Subtract Packed Quadword Integers".
    Psub(LaneWidth),
    /// "PADDSB/PADDSW: Add Packed Signed Integers with Signed Saturation".
    Padds(LaneWidth),
    /// "PSUBSB/PSUBSW: Subtract Packed Signed Integers With Signed Saturation".
    Psubs(LaneWidth),
    /// "PADDUSB/PADDUSW: Add Packed Unsigned Integers With Unsigned Saturation".
    Paddus(LaneWidth),
    /// "PSUBUSB/PSUBUSW: Subtract Packed Unsigned Integers With Unsigned Saturation".
    Psubus(LaneWidth),
    /// "PAND: Logical AND".
    Pand,
    /// "PANDN: Logical AND NOT".
    Pandn,
    /// "POR: Bitwise Logical OR".
    Por,
    /// "PXOR: Logical Exclusive OR".
    Pxor,
    /// "PCMPEQB/PCMPEQW/PCMPEQD: Compare Packed Data for Equal".
    Pcmpeq(LaneWidth),
    /// "PCMPGTB/PCMPGTW/PCMPGTD: Compare Packed Signed Integers for Greater Than".
    Pcmpgt(LaneWidth),
    /// "PMULLW: Multiply Packed Signed Integers and Store Low Result" and "PMULLD/PMULLQ: Multiply
    /// Packed Integers and Store Low Result".
    Pmull(LaneWidth),
    /// "PMULHW: Multiply Packed Signed Integers and Store High Result".
    Pmulhw,
    /// "PMULHUW: Multiply Packed Unsigned Integers and Store High Result".
    Pmulhuw,
    /// "PMULUDQ: Multiply Packed Unsigned Doubleword Integers".
    Pmuludq,
    /// "PSLLW/PSLLD/PSLLQ: Shift Packed Data Left Logical", by an immediate.
    Psll(LaneWidth),
    /// "PSRLW/PSRLD/PSRLQ: Shift Packed Data Right Logical", by an immediate.
    Psrl(LaneWidth),
    /// "PSRAW/PSRAD/PSRAQ: Shift Packed Data Right Arithmetic", by an immediate.
    Psra(LaneWidth),
    /// "PMINSB/PMINSW" and "PMINSD/PMINSQ: Minimum of Packed Signed Integers".
    Pmins(LaneWidth),
    /// "PMAXSB/PMAXSW/PMAXSD/PMAXSQ: Maximum of Packed Signed Integers".
    Pmaxs(LaneWidth),
    /// "PMINUB/PMINUW" and "PMINUD/PMINUQ: Minimum of Packed Unsigned Integers".
    Pminu(LaneWidth),
    /// "PMAXUB/PMAXUW" and "PMAXUD/PMAXUQ: Maximum of Packed Unsigned Integers".
    Pmaxu(LaneWidth),
    /// "PAVGB/PAVGW: Average Packed Integers".
    Pavg(LaneWidth),
    /// "PABSB/PABSW/PABSD/PABSQ: Packed Absolute Value".
    Pabs(LaneWidth),
}

/// The vector operations that move lanes: each lane of the result is one lane of the arguments, or
/// zero, as it is, narrowed or widened.
#[derive(Clone, Copy, Debug, PartialEq, Eq)]
pub enum MoveOp {
    /// "PSLLDQ: Shift Double Quadword Left Logical".
    Pslldq,
    /// "PSRLDQ: Shift Double Quadword Right Logical".
    Psrldq,
    /// "PUNPCKLBW/PUNPCKLWD/PUNPCKLDQ/PUNPCKLQDQ: Unpack Low Data", by the width of the lanes in turn.
    Punpckl(LaneWidth),
    /// "PUNPCKHBW/PUNPCKHWD/PUNPCKHDQ/PUNPCKHQDQ: Unpack High Data", by the width of the lanes in turn.
    Punpckh(LaneWidth),
    /// "PSHUFD: Shuffle Packed Doublewords".
    Pshufd,
    /// "PSHUFLW: Shuffle Packed Low Words".
    Pshuflw,
    /// "PSHUFHW: Shuffle Packed High Words".
    Pshufhw,
    /// "PACKSSWB/PACKSSDW: Pack With Signed Saturation", by the width of the source's lanes.
    Packss(LaneWidth),
    /// "PACKUSWB: Pack With Unsigned Saturation".
    Packuswb,
    /// "MOVD/MOVQ: Move Doubleword/Move Quadword", 32 bits.
    Movd,
    /// "MOVQ: Move Quadword" and "MOVD/MOVQ: Move Doubleword/Move Quadword", 64 bits.
    Movq,
    /// "MOVDQA,VMOVDQA32/64: Move Aligned Packed Integer Values".
    Movdqa,
    /// "MOVDQU,VMOVDQU8/16/32/64: Move Unaligned Packed Integer Values".
    Movdqu,
    /// "MOVAPS: Move Aligned Packed Single Precision Floating-Point Values".
    Movaps,
    /// "MOVUPS: Move Unaligned Packed Single Precision Floating-Point Values".
    Movups,
    /// "VPBROADCAST: Load Integer and Broadcast".
    Pbroadcast(LaneWidth),
    /// "VEXTRACTI128/..: Extract Packed Integer Values".
    Extracti128,
    /// "VINSERTI128/..: Insert Packed Integer Values".
    Inserti128,
    /// "VPERM2I128: Permute Integer Values".
    Perm2i128,
    /// "VPERMQ: Qwords Element Permutation".
    Permq,
    /// "PMOVZX: Packed Move With Zero Extend", from lanes of the first width to lanes of the second.
    Pmovzx(LaneWidth, LaneWidth),
    /// "PMOVSX: Packed Move With Sign Extend", from lanes of the first width to lanes of the second.
    Pmovsx(LaneWidth, LaneWidth),
}
