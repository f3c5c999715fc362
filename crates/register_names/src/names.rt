//! The table of names.
ghost use Rattle.std.specs.Prelude.{◌≡◌, ◌<◌, ◌≤◌, length, map, slice_get};
ghost use Rattle.std.specs.Option.{option_map};
ghost use Rattle.register_names.specs.Names.{IsNamedWidth, IsRegisterName, register_names};

/// The names of the registers of `w` bits, by number; none at any other width than the six.
pub(crate) fn names_at(w: u32) -> &'static [&'static str]
    ensures all { map (λ name. name.now) result.now ≡ register_names w }
    ensures few { length result.now ≤ 16 }
{
    match w {
        64 => &[
            "rax", "rcx", "rdx", "rbx", "rsp", "rbp", "rsi", "rdi", "r8", "r9", "r10", "r11",
            "r12", "r13", "r14", "r15",
        ],
        32 => &[
            "eax", "ecx", "edx", "ebx", "esp", "ebp", "esi", "edi", "r8d", "r9d", "r10d", "r11d",
            "r12d", "r13d", "r14d", "r15d",
        ],
        16 => &[
            "ax", "cx", "dx", "bx", "sp", "bp", "si", "di", "r8w", "r9w", "r10w", "r11w", "r12w",
            "r13w", "r14w", "r15w",
        ],
        8 => &[
            "al", "cl", "dl", "bl", "spl", "bpl", "sil", "dil", "r8b", "r9b", "r10b", "r11b",
            "r12b", "r13b", "r14b", "r15b",
        ],
        128 => &[
            "xmm0", "xmm1", "xmm2", "xmm3", "xmm4", "xmm5", "xmm6", "xmm7", "xmm8", "xmm9",
            "xmm10", "xmm11", "xmm12", "xmm13", "xmm14", "xmm15",
        ],
        256 => &[
            "ymm0", "ymm1", "ymm2", "ymm3", "ymm4", "ymm5", "ymm6", "ymm7", "ymm8", "ymm9",
            "ymm10", "ymm11", "ymm12", "ymm13", "ymm14", "ymm15",
        ],
        _ => &[],
    }
}

/// The name of register `n` of `w` bits, if it has one.
pub fn register_name(w: u32, n: u8) -> Option<&'static str>
    ensures { option_map (λ name. name.now) result ≡ slice_get (register_names w) n }
{
    names_at(w).get(n as usize).copied()
}

/// The name of a register that has one: register `n` of `w` bits.
pub fn name_of(w: u32, n: u8) -> &'static str
    requires width { IsNamedWidth w }
    requires number { n < 16 }
    ensures { IsRegisterName result.now w n }
{
    names_at(w)[n as usize]
}
