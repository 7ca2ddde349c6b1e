// One codeword: a wrong bit is corrected, and two whose labels add to no label are left.
use crate::code::Short;
use inner::code::InnerCode;

#[test]
fn one_wrong_bit_is_corrected_and_two_far_ones_left(rt: HostRuntime) {
    let mut word = [0; 70];
    word[0] = 0b1100_0000;
    word[69] = 0b0011_1111;
    assert!(rt; Short::complete(&mut word).is_ok());
    // The labels 3 and 5 add to 6.
    assert!(rt; word[68] == 0b0000_0001 && word[69] == 0b1011_1111);
    let right = word;
    word[50] = word[50] ^ 0x08;
    assert_eq!(rt; Short::nearest(&mut word), Some(1));
    assert!(rt; word == right);
    // The labels 63 and 512 add to 575.
    word[7] = word[7] ^ 0x80;
    word[68] = word[68] ^ 0x80;
    let far = word;
    assert_eq!(rt; Short::nearest(&mut word), None);
    assert!(rt; word == far);
}
