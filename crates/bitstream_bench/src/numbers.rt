//! Facts about the ten integer types that no clause of the library states: std's `default`, and std's
//! operators on the bits of signed numbers.
use crate::asserts::each_holds;
use bitstream_io::Numeric;

/// Returns true if `&`, `|`, `^` and `!` return the right values for 5 and 3, and the default is 0.
fn operates<N: Numeric>(five: N, three: N) -> bool {
    (five & three == N::ONE)
        & (five | three == N::from_u8(7))
        & (five ^ three == N::from_u8(6))
        & (!!five == five)
        & (N::default() == N::ZERO)
}

#[test]
fn operators_of_each_type(rt: HostRuntime) {
    let right = [
        operates::<u8>(5, 3),
        operates::<u16>(5, 3),
        operates::<u32>(5, 3),
        operates::<u64>(5, 3),
        operates::<u128>(5, 3),
        operates::<i8>(5, 3),
        operates::<i16>(5, 3),
        operates::<i32>(5, 3),
        operates::<i64>(5, 3),
        operates::<i128>(5, 3),
    ];
    each_holds(&rt, &right);
}
