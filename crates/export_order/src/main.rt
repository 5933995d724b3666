// Calls the exports on one job whose slices differ in length or in words, without a fee table and with one, and prints what comes out. A contract names parameters by name, so
// that two of one type can be exchanged and every proof still holds: here such an exchange changes a line, or has a call refused.
//
// Three exchanges give the same function, so that nothing can show them: public and secret in triton_open, and origins and destinations in
// triton_open and in triton_helper_variables, with fees too. triton_step_registers is lent a struct: host/triton/tests/registers.rs tests its order.
#![tactic(auto)]

mod fees;
mod lent;
mod print;

use fees::Fees;
use lent::Lent;
use std::io;

fn unpriced(rt: &impl Print) -> io::Result<()> {
    let opened = Lent::open(rt, Fees::Unpriced)?;
    let mut traced = opened;
    traced.trace_execution(rt, Fees::Unpriced)?;
    let mut rowed = opened;
    rowed.trace_rows(rt, Fees::Unpriced)?;
    rowed.print_stacks(rt)?;
    traced.helper_variables(rt)?;
    traced.processor_row(rt)?;
    traced.run(rt, Fees::Unpriced)?;
    traced.step(rt, Fees::Unpriced)?;
    traced.print_stacks(rt)?;
    traced.print_cells(rt)
}

fn priced(rt: &impl Print) -> io::Result<()> {
    let opened = Lent::open(rt, Fees::Priced)?;
    let mut rowed = opened;
    rowed.trace_rows(rt, Fees::Priced)?;
    rowed.print_stacks(rt)?;
    let mut traced = opened;
    traced.trace_execution(rt, Fees::Priced)?;
    traced.run(rt, Fees::Priced)?;
    traced.step(rt, Fees::Priced)?;
    traced.print_stacks(rt)?;
    traced.print_cells(rt)
}

fn main(rt: HostRuntime) -> io::Result<()> {
    unpriced(&rt)?;
    priced(&rt)
}
