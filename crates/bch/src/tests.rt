// The code of 28 bits on one codeword: two wrong bits are corrected, and three that no codeword is near to are left as they are.
use crate::code::Bch;
use crate::settings::Worked;
use inner::code::InnerCode;
use std::test::Fail;

#[test]
fn two_wrong_bits_are_corrected_and_three_far_ones_left(rt: HostRuntime) -> Result<(), Fail> {
    let code = Bch::Worked;
    let data = [0b1101_1001, 0b1110_1001, 0b1100_0000, 0];
    let checks = code.check_bits(&data).ok_or("too short")?;
    let mut word = data;
    word[2] = word[2] | ((checks >> 4) & 0x3f) as u8;
    word[3] = ((checks & 0xf) << 4) as u8;
    let right = word;
    word[0] = word[0] ^ 0x80;
    word[3] = word[3] ^ 0x10;
    assert_eq!(rt; code.nearest(&mut word), Some(2));
    assert!(rt; word == right);
    word[0] = word[0] ^ 0xe0;
    let far = word;
    assert_eq!(rt; code.nearest(&mut word), None);
    assert!(rt; word == far);
    Ok(())
}

#[test]
fn two_wrong_bits_are_corrected_and_three_far_ones_left_through_the_trait(rt: HostRuntime) {
    let mut word = [0b1101_1001, 0b1110_1001, 0b1100_0000, 0];
    assert!(rt; Worked::complete(&mut word).is_ok());
    let right = word;
    word[0] = word[0] ^ 0x80;
    word[3] = word[3] ^ 0x10;
    assert!(rt; Worked::nearest(&mut word) == Some(2));
    assert!(rt; word == right);
    word[0] = word[0] ^ 0xe0;
    let far = word;
    assert!(rt; Worked::nearest(&mut word).is_none());
    assert!(rt; word == far);
}
