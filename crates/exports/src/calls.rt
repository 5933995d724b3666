// The functions that C and Rust link: each is one call and no test, since all of them stand in one crate.
ghost use Rattle.exports_calls.specs.GivenCall.{helper_call, row_call};
ghost use Rattle.exports_calls.specs.OpenCall.{open_call};
ghost use Rattle.exports_calls.specs.ReplayCall.{replay_call, replied};
ghost use Rattle.exports_calls.specs.RunCall.{run_call, trace_call, rows_call};
ghost use Rattle.exports_calls.specs.StepCall.{step_call};
ghost use Rattle.exports_calls.specs.ThinCall.{thin_call, thinly};
ghost use Rattle.exports_words.specs.Calls.{interface_version, called, recorded, tabled};
ghost use Rattle.machine.specs.FeeTable.{fee_table, unpriced, priced};
ghost use Rattle.machine.specs.Ram.{cells as cells_of};
ghost use Rattle.machine.specs.Given.{given};
ghost use Rattle.machine.specs.Lent.{code_in, memory_in, memory_out, opening_in, opening_out, shared_in};
ghost use Rattle.std.specs.Prelude.{◌≡◌};

use exports_calls::helper_variables::helper_call;
use exports_calls::open::open_call;
use exports_calls::processor_row::row_call;
use exports_calls::replay_call::replay_call;
use exports_calls::rows::rows_call;
use exports_calls::run::run_call;
use exports_calls::step::step_call;
use exports_calls::thin::{Registers, thin_call};
use exports_calls::trace::trace_call;
use machine::lent::{LentCode, LentMemory, OpeningMemory, SeenMemory};
use machine_fees::fee_table::LentFees;

// The number of this interface. It is raised where a call gets other parameters, or a word another meaning.
#[unsafe(no_mangle)]
pub extern "C" fn triton_interface_version() -> u64
    ensures { result ≡ interface_version }
{
    1
}

// A refused open changes nothing that is lent, and the registers keep their words.
#[unsafe(no_mangle)]
pub extern "C" fn triton_open(
    registers: &mut [u64],
    answer: &mut [u64],
    revision: u64,
    digest: &[u64],
    cells: u64,
    opcodes: &[u64],
    arguments: &[u64],
    public: &[u64],
    secret: &[u64],
    digests: &[u64],
    op_stack: &mut [u64],
    origins: &mut [u64],
    destinations: &mut [u64],
    addresses: &[u64],
    values: &[u64],
    output: &[u64],
) -> u64
    ensures { called result registers.new answer.new
        (opening_out op_stack origins destinations addresses values output)
        ≡ open_call unpriced registers.old answer.old revision digest.now cells
        (code_in opcodes arguments public secret digests)
        (opening_in op_stack origins destinations addresses values output) }
{
    let code = LentCode {
        opcodes,
        arguments,
        public,
        secret,
        digests,
    };
    let mut memory = OpeningMemory {
        op_stack,
        origins,
        destinations,
        addresses,
        values,
        output,
    };
    open_call(
        registers,
        answer,
        None,
        revision,
        digest,
        cells,
        &code,
        &mut memory,
    )
}

// The step's records are the first bytes of calls. A refused step changes nothing, but that skiz on 0 with nothing next has dropped its word.
#[unsafe(no_mangle)]
pub extern "C" fn triton_step(
    registers: &mut [u64],
    answer: &mut [u64],
    opcodes: &[u64],
    arguments: &[u64],
    public: &[u64],
    secret: &[u64],
    digests: &[u64],
    op_stack: &mut [u64],
    origins: &mut [u64],
    destinations: &mut [u64],
    addresses: &mut [u64],
    values: &mut [u64],
    output: &mut [u64],
    calls: &mut [u8],
) -> u64
    ensures { recorded (called result registers.new answer.new
        (memory_out op_stack origins destinations addresses values output)) calls.new
        ≡ step_call unpriced registers.old answer.old
        (code_in opcodes arguments public secret digests)
        (memory_in op_stack origins destinations addresses values output) calls.old }
{
    let code = LentCode {
        opcodes,
        arguments,
        public,
        secret,
        digests,
    };
    let mut memory = LentMemory {
        op_stack,
        origins,
        destinations,
        addresses,
        values,
        output,
    };
    step_call(registers, answer, None, &code, &mut memory, calls)
}

// As triton_step, but that the registers are a struct, so that all they can hold fits.
#[unsafe(no_mangle)]
pub extern "C" fn triton_step_registers(
    registers: &mut Registers,
    answer: &mut [u64],
    opcodes: &[u64],
    arguments: &[u64],
    public: &[u64],
    secret: &[u64],
    digests: &[u64],
    op_stack: &mut [u64],
    origins: &mut [u64],
    destinations: &mut [u64],
    addresses: &mut [u64],
    values: &mut [u64],
    output: &mut [u64],
    calls: &mut [u8],
) -> u64
    ensures { thinly result registers.new answer.new (memory_out op_stack origins destinations addresses values output) calls.new
        ≡ thin_call registers.old answer.old (code_in opcodes arguments public secret digests)
        (memory_in op_stack origins destinations addresses values output) calls.old }
{
    let code = LentCode {
        opcodes,
        arguments,
        public,
        secret,
        digests,
    };
    let mut memory = LentMemory {
        op_stack,
        origins,
        destinations,
        addresses,
        values,
        output,
    };
    thin_call(registers, answer, &code, &mut memory, calls)
}

// A refused run keeps the steps before the refused one.
#[unsafe(no_mangle)]
pub extern "C" fn triton_run(
    registers: &mut [u64],
    answer: &mut [u64],
    budget: u64,
    opcodes: &[u64],
    arguments: &[u64],
    public: &[u64],
    secret: &[u64],
    digests: &[u64],
    op_stack: &mut [u64],
    origins: &mut [u64],
    destinations: &mut [u64],
    addresses: &mut [u64],
    values: &mut [u64],
    output: &mut [u64],
) -> u64
    ensures { called result registers.new answer.new
        (memory_out op_stack origins destinations addresses values output)
        ≡ run_call unpriced budget registers.old answer.old
        (code_in opcodes arguments public secret digests)
        (memory_in op_stack origins destinations addresses values output) }
{
    let code = LentCode {
        opcodes,
        arguments,
        public,
        secret,
        digests,
    };
    let mut memory = LentMemory {
        op_stack,
        origins,
        destinations,
        addresses,
        values,
        output,
    };
    run_call(registers, answer, None, budget, &code, &mut memory)
}

// The records of the steps are the first bytes of calls, each step's behind the last one's.
#[unsafe(no_mangle)]
pub extern "C" fn triton_trace_execution(
    registers: &mut [u64],
    answer: &mut [u64],
    budget: u64,
    opcodes: &[u64],
    arguments: &[u64],
    public: &[u64],
    secret: &[u64],
    digests: &[u64],
    op_stack: &mut [u64],
    origins: &mut [u64],
    destinations: &mut [u64],
    addresses: &mut [u64],
    values: &mut [u64],
    output: &mut [u64],
    calls: &mut [u8],
) -> u64
    ensures { recorded (called result registers.new answer.new
        (memory_out op_stack origins destinations addresses values output)) calls.new
        ≡ trace_call unpriced budget registers.old answer.old
        (code_in opcodes arguments public secret digests)
        (memory_in op_stack origins destinations addresses values output) calls.old }
{
    let code = LentCode {
        opcodes,
        arguments,
        public,
        secret,
        digests,
    };
    let mut memory = LentMemory {
        op_stack,
        origins,
        destinations,
        addresses,
        values,
        output,
    };
    trace_call(registers, answer, None, budget, &code, &mut memory, calls)
}

// The same, and the rows of the steps are the first words of rows.
#[unsafe(no_mangle)]
pub extern "C" fn triton_trace_rows(
    registers: &mut [u64],
    answer: &mut [u64],
    budget: u64,
    opcodes: &[u64],
    arguments: &[u64],
    public: &[u64],
    secret: &[u64],
    digests: &[u64],
    op_stack: &mut [u64],
    origins: &mut [u64],
    destinations: &mut [u64],
    addresses: &mut [u64],
    values: &mut [u64],
    output: &mut [u64],
    calls: &mut [u8],
    rows: &mut [u64],
) -> u64
    ensures { tabled (recorded (called result registers.new answer.new
        (memory_out op_stack origins destinations addresses values output)) calls.new) rows.new
        ≡ rows_call unpriced budget registers.old answer.old
        (code_in opcodes arguments public secret digests)
        (memory_in op_stack origins destinations addresses values output) calls.old rows.old }
{
    let code = LentCode {
        opcodes,
        arguments,
        public,
        secret,
        digests,
    };
    let mut memory = LentMemory {
        op_stack,
        origins,
        destinations,
        addresses,
        values,
        output,
    };
    rows_call(
        registers,
        answer,
        None,
        budget,
        &code,
        &mut memory,
        calls,
        rows,
    )
}

// Refused, the helpers are zeros.
#[unsafe(no_mangle)]
pub extern "C" fn triton_helper_variables(
    registers: &[u64],
    helpers: &mut [u64],
    opcodes: &[u64],
    arguments: &[u64],
    public: &[u64],
    secret: &[u64],
    digests: &[u64],
    op_stack: &[u64],
    origins: &[u64],
    destinations: &[u64],
    addresses: &[u64],
    values: &[u64],
    output: &[u64],
) -> u64
    ensures { given result helpers.new ≡ helper_call registers.now helpers.old
        (code_in opcodes arguments public secret digests)
        (shared_in op_stack origins destinations addresses values output) }
{
    let code = LentCode {
        opcodes,
        arguments,
        public,
        secret,
        digests,
    };
    let memory = SeenMemory {
        op_stack,
        origins,
        destinations,
        addresses,
        values,
        output,
    };
    helper_call(registers, helpers, &code, &memory)
}

// Refused, the row is zeros.
#[unsafe(no_mangle)]
pub extern "C" fn triton_processor_row(
    registers: &[u64],
    row: &mut [u64],
    opcodes: &[u64],
    arguments: &[u64],
    public: &[u64],
    secret: &[u64],
    digests: &[u64],
    op_stack: &[u64],
    origins: &[u64],
    destinations: &[u64],
    addresses: &[u64],
    values: &[u64],
    output: &[u64],
) -> u64
    ensures { given result row.new ≡ row_call registers.now row.old
        (code_in opcodes arguments public secret digests)
        (shared_in op_stack origins destinations addresses values output) }
{
    let code = LentCode {
        opcodes,
        arguments,
        public,
        secret,
        digests,
    };
    let memory = SeenMemory {
        op_stack,
        origins,
        destinations,
        addresses,
        values,
        output,
    };
    row_call(registers, row, &code, &memory)
}

// Refused, everything lent but the answer is as it was.
#[unsafe(no_mangle)]
pub extern "C" fn triton_replay(
    rebuilt: &mut [u64],
    log: &[u8],
    revision: u64,
    clock: u64,
    cells: u64,
    addresses: &mut [u64],
    values: &mut [u64],
    words: &mut [u64],
) -> u64
    ensures { replied result rebuilt.new words.new addresses.new values.new
        ≡ replay_call rebuilt.old log.now revision clock (cells_of cells addresses.old values.old) words.old }
{
    replay_call(
        rebuilt, log, revision, clock, cells, addresses, values, words,
    )
}

// With a fee table, which is looked at last of all.
#[unsafe(no_mangle)]
pub extern "C" fn triton_open_with_fees(
    registers: &mut [u64],
    answer: &mut [u64],
    revision: u64,
    digest: &[u64],
    cells: u64,
    opcodes: &[u64],
    arguments: &[u64],
    public: &[u64],
    secret: &[u64],
    digests: &[u64],
    op_stack: &mut [u64],
    origins: &mut [u64],
    destinations: &mut [u64],
    addresses: &[u64],
    values: &[u64],
    output: &[u64],
    lowest: &[u64],
    highest: &[u64],
    fees: &[u64],
) -> u64
    ensures { called result registers.new answer.new
        (opening_out op_stack origins destinations addresses values output)
        ≡ open_call (priced (fee_table lowest.now highest.now fees.now)) registers.old answer.old revision digest.now cells
        (code_in opcodes arguments public secret digests)
        (opening_in op_stack origins destinations addresses values output) }
{
    let code = LentCode {
        opcodes,
        arguments,
        public,
        secret,
        digests,
    };
    let mut memory = OpeningMemory {
        op_stack,
        origins,
        destinations,
        addresses,
        values,
        output,
    };
    let fees = LentFees {
        lowest,
        highest,
        fees,
    };
    open_call(
        registers,
        answer,
        Some(fees),
        revision,
        digest,
        cells,
        &code,
        &mut memory,
    )
}

// With a fee table; the answer has eight words, the last the row that priced the step.
#[unsafe(no_mangle)]
pub extern "C" fn triton_step_with_fees(
    registers: &mut [u64],
    answer: &mut [u64],
    opcodes: &[u64],
    arguments: &[u64],
    public: &[u64],
    secret: &[u64],
    digests: &[u64],
    op_stack: &mut [u64],
    origins: &mut [u64],
    destinations: &mut [u64],
    addresses: &mut [u64],
    values: &mut [u64],
    output: &mut [u64],
    calls: &mut [u8],
    lowest: &[u64],
    highest: &[u64],
    fees: &[u64],
) -> u64
    ensures { recorded (called result registers.new answer.new
        (memory_out op_stack origins destinations addresses values output)) calls.new
        ≡ step_call (priced (fee_table lowest.now highest.now fees.now)) registers.old answer.old
        (code_in opcodes arguments public secret digests)
        (memory_in op_stack origins destinations addresses values output) calls.old }
{
    let code = LentCode {
        opcodes,
        arguments,
        public,
        secret,
        digests,
    };
    let mut memory = LentMemory {
        op_stack,
        origins,
        destinations,
        addresses,
        values,
        output,
    };
    let fees = LentFees {
        lowest,
        highest,
        fees,
    };
    step_call(registers, answer, Some(fees), &code, &mut memory, calls)
}

// With a fee table; the answer has eight words, the last what the steps cost.
#[unsafe(no_mangle)]
pub extern "C" fn triton_run_with_fees(
    registers: &mut [u64],
    answer: &mut [u64],
    budget: u64,
    opcodes: &[u64],
    arguments: &[u64],
    public: &[u64],
    secret: &[u64],
    digests: &[u64],
    op_stack: &mut [u64],
    origins: &mut [u64],
    destinations: &mut [u64],
    addresses: &mut [u64],
    values: &mut [u64],
    output: &mut [u64],
    lowest: &[u64],
    highest: &[u64],
    fees: &[u64],
) -> u64
    ensures { called result registers.new answer.new
        (memory_out op_stack origins destinations addresses values output)
        ≡ run_call (priced (fee_table lowest.now highest.now fees.now)) budget registers.old answer.old
        (code_in opcodes arguments public secret digests)
        (memory_in op_stack origins destinations addresses values output) }
{
    let code = LentCode {
        opcodes,
        arguments,
        public,
        secret,
        digests,
    };
    let mut memory = LentMemory {
        op_stack,
        origins,
        destinations,
        addresses,
        values,
        output,
    };
    let fees = LentFees {
        lowest,
        highest,
        fees,
    };
    run_call(registers, answer, Some(fees), budget, &code, &mut memory)
}

// The same with a fee table.
#[unsafe(no_mangle)]
pub extern "C" fn triton_trace_execution_with_fees(
    registers: &mut [u64],
    answer: &mut [u64],
    budget: u64,
    opcodes: &[u64],
    arguments: &[u64],
    public: &[u64],
    secret: &[u64],
    digests: &[u64],
    op_stack: &mut [u64],
    origins: &mut [u64],
    destinations: &mut [u64],
    addresses: &mut [u64],
    values: &mut [u64],
    output: &mut [u64],
    calls: &mut [u8],
    lowest: &[u64],
    highest: &[u64],
    fees: &[u64],
) -> u64
    ensures { recorded (called result registers.new answer.new
        (memory_out op_stack origins destinations addresses values output)) calls.new
        ≡ trace_call (priced (fee_table lowest.now highest.now fees.now)) budget registers.old answer.old
        (code_in opcodes arguments public secret digests)
        (memory_in op_stack origins destinations addresses values output) calls.old }
{
    let code = LentCode {
        opcodes,
        arguments,
        public,
        secret,
        digests,
    };
    let mut memory = LentMemory {
        op_stack,
        origins,
        destinations,
        addresses,
        values,
        output,
    };
    let fees = LentFees {
        lowest,
        highest,
        fees,
    };
    trace_call(
        registers,
        answer,
        Some(fees),
        budget,
        &code,
        &mut memory,
        calls,
    )
}

// The same with a fee table.
#[unsafe(no_mangle)]
pub extern "C" fn triton_trace_rows_with_fees(
    registers: &mut [u64],
    answer: &mut [u64],
    budget: u64,
    opcodes: &[u64],
    arguments: &[u64],
    public: &[u64],
    secret: &[u64],
    digests: &[u64],
    op_stack: &mut [u64],
    origins: &mut [u64],
    destinations: &mut [u64],
    addresses: &mut [u64],
    values: &mut [u64],
    output: &mut [u64],
    calls: &mut [u8],
    rows: &mut [u64],
    lowest: &[u64],
    highest: &[u64],
    fees: &[u64],
) -> u64
    ensures { tabled (recorded (called result registers.new answer.new
        (memory_out op_stack origins destinations addresses values output)) calls.new) rows.new
        ≡ rows_call (priced (fee_table lowest.now highest.now fees.now)) budget registers.old answer.old
        (code_in opcodes arguments public secret digests)
        (memory_in op_stack origins destinations addresses values output) calls.old rows.old }
{
    let code = LentCode {
        opcodes,
        arguments,
        public,
        secret,
        digests,
    };
    let mut memory = LentMemory {
        op_stack,
        origins,
        destinations,
        addresses,
        values,
        output,
    };
    let fees = LentFees {
        lowest,
        highest,
        fees,
    };
    rows_call(
        registers,
        answer,
        Some(fees),
        budget,
        &code,
        &mut memory,
        calls,
        rows,
    )
}
