// Works out the nonlinear check bits of a message, and prints each step.
#![tactic(auto)]

use anyhow::Context;
use gf2::field::Field;
use pagecode::message::inner_data;
use steps::explain::Steps;

fn explain(rt: &impl Print) -> anyhow::Result<()> {
    let message = [0b1010_1100, 0b1111_0100, 0b1110_0000];
    let mut v_k = [0u8; 3];
    inner_data(&message, 18, &mut v_k)?;
    let steps = Steps::of(Field::Three, &message, &v_k, 18).context(
        "the message is no run of pairs of groups",
    )?;
    println!(rt; "{steps}")?;
    Ok(())
}

fn main(rt: HostRuntime) -> anyhow::Result<()> {
    explain(&rt)
}
