//! The sixteen flags of a message, as the bits of a number.

ghost use Rattle.std.specs.Prelude.{◌≡◌, ◌<◌};
ghost use Rattle.pc_message.specs.Flags.{flag_of, flags_with};

/// Whether the flag is on. Flag 0 is the lowest bit.
pub fn is_on(flags: u16, flag: u8) -> bool
    requires { flag < 16 }
    ensures { result ≡ flag_of flags flag }
{
    flags >> flag & 1 == 1
}

/// The flags with this one on or off, and the others as they were.
pub fn with_flag(flags: u16, flag: u8, on: bool) -> u16
    requires { flag < 16 }
    ensures { result ≡ flags_with flags flag on }
{
    if on {
        flags | 1 << flag
    } else {
        flags & !(1 << flag)
    }
}
