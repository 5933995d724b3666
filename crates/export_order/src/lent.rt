// What is lent to the exports, and a method for each of them: the one without a fee table beside the one with it.
use crate::fees::Fees;
use crate::print::Words;
use exports::calls::{
    triton_helper_variables, triton_open, triton_open_with_fees, triton_processor_row,
    triton_replay, triton_run, triton_run_with_fees, triton_step, triton_step_with_fees,
    triton_trace_execution, triton_trace_execution_with_fees, triton_trace_rows,
    triton_trace_rows_with_fees,
};
use std::io;

//  0: read_io 3; divine 2; push 20; write_mem 2; pop 1; call 14
// 12: call 0
// 14: merkle_step; write_io 1; call 12
const OPCODES: [u64; 19] = [
    73, 73, 9, 9, 1, 1, 11, 11, 3, 3, 49, 49, 49, 49, 36, 19, 19, 49, 49,
];

const ARGUMENTS: [u64; 19] = [
    3, 3, 2, 2, 20, 20, 2, 2, 1, 1, 14, 14, 0, 0, 0, 1, 1, 12, 12,
];

const PUBLIC: [u64; 3] = [101, 102, 103];

const SECRET: [u64; 2] = [201, 202];

const DIGESTS: [u64; 5] = [301, 302, 303, 304, 305];

const DIGEST: [u64; 5] = [401, 402, 403, 404, 405];

// RAM opens with two cells. The values do not ascend.
const ADDRESSES: [u64; 4] = [10, 30, 0, 0];

const VALUES: [u64; 4] = [99, 7, 0, 0];

// A fee table of three rows. Exchanged, a row is turned, or the fee is another.
const LOWEST: [u64; 3] = [0, 40, 60];

const HIGHEST: [u64; 3] = [39, 59, 200];

const FEES: [u64; 3] = [1000, 5, 70];

// What is lent to be changed. The lengths differ, but those that must be the same. Pairs are two arrays: the exports take them so.
#[derive(Clone, Copy)]
pub struct Lent {
    registers: [u64; 28],
    op_stack: [u64; 24],
    origins: [u64; 8],
    destinations: [u64; 8],
    addresses: [u64; 4],
    values: [u64; 4],
    output: [u64; 1],
}

fn answered(
    rt: &impl Print,
    call: &str,
    fees: Fees,
    number: u64,
    answer: &[u64],
) -> io::Result<()> {
    println!(rt; "{call}{fees} {number}:{}", Words(answer))
}

// From the opening's cells up to clock 4: write_mem's records are read, and the next one, of pop, ends the reading.
fn replay(rt: &impl Print, log: &[u8]) -> io::Result<()> {
    let mut rebuilt = [0u64; 3];
    let mut addresses = ADDRESSES;
    let mut values = VALUES;
    let mut words = [0u64; 9];
    let number = triton_replay(
        &mut rebuilt,
        log,
        1,
        4,
        2,
        &mut addresses,
        &mut values,
        &mut words,
    );
    answered(rt, "replay", Fees::Unpriced, number, &rebuilt)?;
    println!(rt; "addresses{}", Words(&addresses))?;
    println!(rt; "values{}", Words(&values))?;
    println!(rt; "words{}", Words(&words))
}

impl Lent {
    pub fn open(rt: &impl Print, fees: Fees) -> io::Result<Lent> {
        let mut lent = Lent {
            registers: [0; 28],
            op_stack: [0; 24],
            origins: [0; 8],
            destinations: [0; 8],
            addresses: ADDRESSES,
            values: VALUES,
            // no word of the field: a call that reads it refuses
            output: [u64::MAX],
        };
        let mut answer = [0u64; 7];
        let number = match fees {
            Fees::Unpriced => triton_open(
                &mut lent.registers,
                &mut answer,
                1,
                &DIGEST,
                2,
                &OPCODES,
                &ARGUMENTS,
                &PUBLIC,
                &SECRET,
                &DIGESTS,
                &mut lent.op_stack,
                &mut lent.origins,
                &mut lent.destinations,
                &lent.addresses,
                &lent.values,
                &lent.output,
            ),
            Fees::Priced => triton_open_with_fees(
                &mut lent.registers,
                &mut answer,
                1,
                &DIGEST,
                2,
                &OPCODES,
                &ARGUMENTS,
                &PUBLIC,
                &SECRET,
                &DIGESTS,
                &mut lent.op_stack,
                &mut lent.origins,
                &mut lent.destinations,
                &lent.addresses,
                &lent.values,
                &lent.output,
                &LOWEST,
                &HIGHEST,
                &FEES,
            ),
        };
        answered(rt, "open", fees, number, &answer)?;
        Ok(lent)
    }

    // Six steps. The last one is call, here and in the two calls below, so that each leaves an entry in the jump stack.
    pub fn trace_execution(&mut self, rt: &impl Print, fees: Fees) -> io::Result<()> {
        let mut words = [0u64; 8];
        let answer = &mut words[..fees.words()];
        let mut log = [0u8; 2048];
        let number = match fees {
            Fees::Unpriced => triton_trace_execution(
                &mut self.registers,
                answer,
                6,
                &OPCODES,
                &ARGUMENTS,
                &PUBLIC,
                &SECRET,
                &DIGESTS,
                &mut self.op_stack,
                &mut self.origins,
                &mut self.destinations,
                &mut self.addresses,
                &mut self.values,
                &mut self.output,
                &mut log,
            ),
            Fees::Priced => triton_trace_execution_with_fees(
                &mut self.registers,
                answer,
                6,
                &OPCODES,
                &ARGUMENTS,
                &PUBLIC,
                &SECRET,
                &DIGESTS,
                &mut self.op_stack,
                &mut self.origins,
                &mut self.destinations,
                &mut self.addresses,
                &mut self.values,
                &mut self.output,
                &mut log,
                &LOWEST,
                &HIGHEST,
                &FEES,
            ),
        };
        if let Fees::Unpriced = fees {
            replay(rt, &log)?;
        }
        answered(rt, "trace_execution", fees, number, answer)
    }

    // Nine steps, the sixth and the last one call. Prints the row of the seventh, merkle_step.
    pub fn trace_rows(&mut self, rt: &impl Print, fees: Fees) -> io::Result<()> {
        let mut words = [0u64; 8];
        let answer = &mut words[..fees.words()];
        let mut log = [0u8; 4096];
        let mut table = [0u64; 333];
        let number = match fees {
            Fees::Unpriced => triton_trace_rows(
                &mut self.registers,
                answer,
                9,
                &OPCODES,
                &ARGUMENTS,
                &PUBLIC,
                &SECRET,
                &DIGESTS,
                &mut self.op_stack,
                &mut self.origins,
                &mut self.destinations,
                &mut self.addresses,
                &mut self.values,
                &mut self.output,
                &mut log,
                &mut table,
            ),
            Fees::Priced => triton_trace_rows_with_fees(
                &mut self.registers,
                answer,
                9,
                &OPCODES,
                &ARGUMENTS,
                &PUBLIC,
                &SECRET,
                &DIGESTS,
                &mut self.op_stack,
                &mut self.origins,
                &mut self.destinations,
                &mut self.addresses,
                &mut self.values,
                &mut self.output,
                &mut log,
                &mut table,
                &LOWEST,
                &HIGHEST,
                &FEES,
            ),
        };
        if let Fees::Unpriced = fees {
            println!(rt; "row{}", Words(&table[222..259]))?;
        }
        answered(rt, "trace_rows", fees, number, answer)
    }

    // The helper variables of merkle_step.
    pub fn helper_variables(&self, rt: &impl Print) -> io::Result<()> {
        let mut helpers = [0u64; 6];
        let number = triton_helper_variables(
            &self.registers,
            &mut helpers,
            &OPCODES,
            &ARGUMENTS,
            &PUBLIC,
            &SECRET,
            &DIGESTS,
            &self.op_stack,
            &self.origins,
            &self.destinations,
            &self.addresses,
            &self.values,
            &self.output,
        );
        answered(rt, "helper_variables", Fees::Unpriced, number, &helpers)
    }

    // The row of merkle_step.
    pub fn processor_row(&self, rt: &impl Print) -> io::Result<()> {
        let mut row = [0u64; 37];
        let number = triton_processor_row(
            &self.registers,
            &mut row,
            &OPCODES,
            &ARGUMENTS,
            &PUBLIC,
            &SECRET,
            &DIGESTS,
            &self.op_stack,
            &self.origins,
            &self.destinations,
            &self.addresses,
            &self.values,
            &self.output,
        );
        answered(rt, "processor_row", Fees::Unpriced, number, &row)
    }

    // Three steps.
    pub fn run(&mut self, rt: &impl Print, fees: Fees) -> io::Result<()> {
        let mut words = [0u64; 8];
        let answer = &mut words[..fees.words()];
        let number = match fees {
            Fees::Unpriced => triton_run(
                &mut self.registers,
                answer,
                3,
                &OPCODES,
                &ARGUMENTS,
                &PUBLIC,
                &SECRET,
                &DIGESTS,
                &mut self.op_stack,
                &mut self.origins,
                &mut self.destinations,
                &mut self.addresses,
                &mut self.values,
                &mut self.output,
            ),
            Fees::Priced => triton_run_with_fees(
                &mut self.registers,
                answer,
                3,
                &OPCODES,
                &ARGUMENTS,
                &PUBLIC,
                &SECRET,
                &DIGESTS,
                &mut self.op_stack,
                &mut self.origins,
                &mut self.destinations,
                &mut self.addresses,
                &mut self.values,
                &mut self.output,
                &LOWEST,
                &HIGHEST,
                &FEES,
            ),
        };
        answered(rt, "run", fees, number, answer)
    }

    // One step.
    pub fn step(&mut self, rt: &impl Print, fees: Fees) -> io::Result<()> {
        let mut words = [0u64; 8];
        let answer = &mut words[..fees.words()];
        let mut calls = [0u8; 1024];
        let number = match fees {
            Fees::Unpriced => triton_step(
                &mut self.registers,
                answer,
                &OPCODES,
                &ARGUMENTS,
                &PUBLIC,
                &SECRET,
                &DIGESTS,
                &mut self.op_stack,
                &mut self.origins,
                &mut self.destinations,
                &mut self.addresses,
                &mut self.values,
                &mut self.output,
                &mut calls,
            ),
            Fees::Priced => triton_step_with_fees(
                &mut self.registers,
                answer,
                &OPCODES,
                &ARGUMENTS,
                &PUBLIC,
                &SECRET,
                &DIGESTS,
                &mut self.op_stack,
                &mut self.origins,
                &mut self.destinations,
                &mut self.addresses,
                &mut self.values,
                &mut self.output,
                &mut calls,
                &LOWEST,
                &HIGHEST,
                &FEES,
            ),
        };
        answered(rt, "step", fees, number, answer)
    }

    pub fn print_stacks(&self, rt: &impl Print) -> io::Result<()> {
        println!(rt; "registers{}", Words(&self.registers))?;
        println!(rt; "op_stack{}", Words(&self.op_stack))?;
        println!(rt; "origins{}", Words(&self.origins))?;
        println!(rt; "destinations{}", Words(&self.destinations))
    }

    pub fn print_cells(&self, rt: &impl Print) -> io::Result<()> {
        println!(rt; "addresses{}", Words(&self.addresses))?;
        println!(rt; "values{}", Words(&self.values))?;
        println!(rt; "output{}", Words(&self.output))
    }
}
