// Few values, some from outside: QR codes use the powers of the eight-bit field.
use crate::bits::NoRoom;
use crate::field::{Field, NoSuchField};
use crate::runs::copy_bits;
use crate::{bits, powers};

#[test]
fn bits_are_counted_from_1_and_the_highest_comes_first(rt: HostRuntime) {
    let mut bytes = [0x80, 0x01];
    assert_eq!(rt; bits::bit(&bytes, 0), None);
    assert_eq!(rt; bits::bit(&bytes, 16), Some(true));
    assert_eq!(rt; bits::flip(&mut bytes, 9), Some(true));
    assert_eq!(rt; bits::flip(&mut bytes, 17), None);
    assert_eq!(rt; bits::number(&bytes, 7, 9), Some(0b0_1000_0001));
    assert_eq!(rt; bits::distance(&bytes, &[0xff, 0x81]), Some(7));
    assert_eq!(rt; bits::put_number(&mut bytes, 14, 3, 0), Err(NoRoom));
    assert_eq!(rt; bits::put_number(&mut bytes, 13, 3, 6), Ok(()));
    assert_eq!(rt; bytes, [0x80, 0x86]);
}

#[test]
fn runs_of_bits_keep_what_stands_round_them(rt: HostRuntime) {
    let source = [0b0000_0110, 0b1010_0101, 0b1110_0000];
    let mut out = [0xff; 3];
    assert_eq!(rt; copy_bits(&source, 5, 14, &mut out, 3), Ok(()));
    assert_eq!(rt; out, [0b1111_1010, 0b1001_0111, 0b1111_1111]);
    assert_eq!(rt; copy_bits(&source, 5, 20, &mut out, 3), Err(NoRoom));
    assert_eq!(rt;
        copy_bits(&source, usize::MAX, usize::MAX, &mut out, 3),
        Err(NoRoom)
    );
    assert_eq!(rt;
        bits::wide_number(&source, 5, 19),
        Some(0b110_1010_0101_1110_0000)
    );
    assert_eq!(rt; bits::wide_number(&source, 5, 20), None);
}

#[test]
fn powers_and_inverses_have_known_values(rt: HostRuntime) {
    let field = Field::Eight;
    assert_eq!(rt; Field::try_from(8), Ok(field));
    assert_eq!(rt; Field::try_from(9), Err(NoSuchField(9)));
    assert!(rt;
        [
            field.power(2, 8),
            field.power(2, 12),
            field.power(2, 25),
            field.power(2, 255),
        ] == [29, 205, 3, 1]
    );
    assert_eq!(rt; field.product(3, 205), field.power(2, 37));
    assert_eq!(rt; field.modulus().times_x(0x80), 29);
    assert_eq!(rt; field.inverse(2), Some(142));
    assert_eq!(rt; powers::power(usize::MAX), Field::Ten.power(2, u64::MAX));
}
