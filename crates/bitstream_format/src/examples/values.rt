//! Formats that are only values, with their laws: GRE (parts after flags), an address of STUN (a choice in a part of
//! a stated size), the options that a relay adds to a DHCP message (a list that fills a size), and the first message
//! of TLS (extensions as a choice, in a list that fills a size).
ghost use Rattle.bitstream_format.specs.Format.{RoundTripLaw, LengthLaw};
ghost use Rattle.bitstream_format.specs.Sizes.{ListLimitLaw};
ghost use Rattle.bitstream_format.specs.Examples.Gre.{gre};
ghost use Rattle.bitstream_format.specs.Examples.Hello.{hello};
ghost use Rattle.bitstream_format.specs.Examples.Relay.{relay, sub_option, Reader, WrongSize};
ghost use Rattle.bitstream_format.specs.Examples.Stun.{xor_mapped_address};
ghost use Rattle.std.specs.Prelude.{ℕ};

/// States that what was written is read back, in either order of bits, at any position, and that a read takes only
/// its bits. The next three functions state the same for their formats.
pub fn gre_laws()
    ensures round_trip { RoundTripLaw gre }
    ensures length { LengthLaw gre }
{}

/// The laws of an address of STUN.
pub fn stun_laws()
    ensures round_trip { RoundTripLaw xor_mapped_address }
    ensures length { LengthLaw xor_mapped_address }
{}

/// The laws of what a relay adds. Its list is read only from the bytes that its size states.
pub fn relay_laws()
    ensures round_trip { RoundTripLaw relay }
    ensures length { LengthLaw relay }
    ensures limit { (size : ℕ) → ListLimitLaw size sub_option WrongSize Reader }
{}

/// The laws of the first message of TLS.
pub fn hello_laws()
    ensures round_trip { RoundTripLaw hello }
    ensures length { LengthLaw hello }
{}
