// What is wrong with a file.
ghost use Rattle.std.specs.Prelude.{◌≡◌};
ghost use Rattle.network_codec.specs.declared.damage.EncodeStop.TheVariants as stop;
ghost use Rattle.network_codec.specs.Stop.{stop_of};

use move_files::WriteFail;
use std::alloc::AllocError;

/// The first kind of damage of a network file, in the order of the variants.
#[derive(Clone, Copy, Debug, PartialEq, Eq)]
pub enum Damage {
    /// The file has fewer bytes than its head, or than its head tells of.
    TooShort,
    /// The first eight bytes are not the mark of a network file.
    Magic,
    /// The version is neither 1 nor 2.
    Version,
    /// The SHA-256 of the body is another one.
    Digest,
    /// The first section that is cut off or breaks a rule; 10 where bytes are left behind the sections.
    Section(u32),
}

/// Why a file was not decoded.
#[derive(Clone, Copy, Debug, PartialEq, Eq)]
pub enum DecodeStop {
    /// The bytes are the file of no value.
    Damaged(Damage),
    /// Memory was wanting, or a list was too long for numbers of 32 bits.
    NoMemory,
}

/// Why a file was not written.
#[derive(Clone, Copy, Debug, PartialEq, Eq)]
pub enum EncodeStop {
    /// A write failed.
    WriteFault,
    /// Memory was wanting.
    NoMemory,
}

impl From<AllocError> for EncodeStop {
    ghost from_gives = { λ _ e. e ≡ stop.NoMemory };

    fn from(_e: AllocError) -> EncodeStop {
        EncodeStop::NoMemory
    }
}

impl From<WriteFail> for EncodeStop {
    ghost from_gives = { λ fail e. e ≡ stop_of fail };

    fn from(fail: WriteFail) -> EncodeStop {
        match fail {
            WriteFail::Failed => EncodeStop::WriteFault,
            WriteFail::NoMemory => EncodeStop::NoMemory,
        }
    }
}
