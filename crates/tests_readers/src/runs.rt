//! A module that starts at a number of choice.
use cyc_sim::Sim;
use std::test::Fail;
use v_reader::read;

// A register that counts, with an output before the input that it is made of.
const COUNT: &str =
    "module count (input PCLK, output [7:0] sum, input r, input [7:0] by);\n  reg [7:0] n;\n  assign sum = n + by;\n  always @(posedge PCLK or negedge r)\n    if (!r) n <= 8'h5;\n    else n <= sum;\nendmodule\n";

#[test]
fn a_reset_acts_before_the_outputs_are_read(rt: HostRuntime) -> Result<(), Fail> {
    let design = read(rt.alloc(), COUNT.as_bytes())?;
    let [register] = design.registers() else {
        return Err(Fail::new("one register"));
    };
    if register.width != 8 || design.inputs().len() != 2 || design.outputs().len() != 1 {
        return Err(Fail::new("a register of 8 bits, two inputs, an output"));
    }
    let mut sim = Sim::new(rt.alloc(), &design, &[7])?;
    let mut outs = [0];
    sim.step(&[0, 0], &mut outs);
    assert_eq!(rt; outs, [5]);
    Ok(())
}
