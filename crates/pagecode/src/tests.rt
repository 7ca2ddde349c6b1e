// The bits f of the example that the program explains, and what is refused.
use crate::message::inner_data;
use crate::nonlinear::{Misfit, f_over, nonlinear_bits};
use gf2::bits::NoRoom;
use gf2::field::Field;

#[test]
fn f_of_six_groups_of_three(rt: HostRuntime) {
    let run = [0b1101_1001, 0b1110_1001, 0b1100_0000];
    assert_eq!(rt; nonlinear_bits(&run, 18, 3), Ok(0b010));
    assert_eq!(rt; nonlinear_bits(&run, 0, 3), Ok(0));
    assert_eq!(rt; nonlinear_bits(&run, 15, 3), Err(Misfit::Length));
    assert_eq!(rt; nonlinear_bits(&run, 30, 3), Err(Misfit::Length));
    assert_eq!(rt; nonlinear_bits(&run, 18, 4), Err(Misfit::NoField));
    assert_eq!(rt; f_over(Field::Three, &run, 18), Ok(0b010));
    assert_eq!(rt; f_over(Field::Three, &run, 30), Err(Misfit::Length));
}

#[test]
fn v_k_of_eight_bits(rt: HostRuntime) {
    let mut data = [0xff];
    assert_eq!(rt; inner_data(&[0b1011_0001], 8, &mut data), Err(NoRoom));
    assert_eq!(rt; data, [0xff]);
    assert_eq!(rt; inner_data(&[0b1011_0001, 0], 8, &mut data), Ok(()));
    assert_eq!(rt; data, [0b1110_0010]);
}
