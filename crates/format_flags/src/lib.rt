// A file's mode and the flag word of RCV2 and SND2: both 32 bits, and neither passes for the other (000's sync/format.rs).
#![tactic(auto)]

ghost use Rattle.std.specs.Prelude.{[], ◌∷◌, map, ◌≡◌};
ghost use Rattle.protocol.specs.Flags as Flags;

// A Unix file mode: the file type and the permission bits in one number.
#[derive(Clone, Copy, PartialEq, Eq, Default)]
pub struct FileMode(pub u32);

// What a transfer asks besides: at most one packing flag, and a dry run of a push.
#[derive(Clone, Copy, PartialEq, Eq, Default)]
pub struct SyncFlags(pub u32);

impl SyncFlags {
    pub const NONE: SyncFlags = SyncFlags(0);

    pub const BROTLI: SyncFlags = SyncFlags(1);

    pub const LZ4: SyncFlags = SyncFlags(2);

    pub const ZSTD: SyncFlags = SyncFlags(4);

    pub const DRY_RUN: SyncFlags = SyncFlags(0x8000_0000);

    // The named values, in their order above.
    pub fn named() -> [SyncFlags; 5]
        ensures { map (λ f. f.0) result ≡ 0 ∷ 1 ∷ 2 ∷ 4 ∷ 0x8000_0000 ∷ [] }
    {
        [
            SyncFlags::NONE,
            SyncFlags::BROTLI,
            SyncFlags::LZ4,
            SyncFlags::ZSTD,
            SyncFlags::DRY_RUN,
        ]
    }

    // The flags as the request carries them.
    pub fn bits(self) -> u32
        ensures { result ≡ self.0 }
    {
        self.0
    }

    // Whether more than one packing flag is set.
    pub fn several(self) -> bool
        ensures { result ≡ Flags.several self.0 }
    {
        1 < (self.0 % 8).count_ones()
    }

    // Whether a bit is set that no flag has.
    pub fn unknown(self) -> bool
        ensures { result ≡ Flags.unknown self.0 }
    {
        0 < self.0 / 8 % 0x1000_0000
    }

    // Whether DRY_RUN is set.
    pub fn dry_run(self) -> bool
        ensures { result ≡ Flags.dry_run self.0 }
    {
        (self.0 / 0x8000_0000) % 2 == 1
    }

    // Whether answer 9 turns the word away, in a pull or in a push.
    pub fn refused(self, pull: bool) -> bool
        ensures { result ≡ Flags.refused_flags pull self.0 }
    {
        self.unknown() || self.several() || (pull && self.dry_run())
    }
}
