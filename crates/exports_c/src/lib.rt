// What C and Rust link as libexports.a: each call of exports under its own name, with its contract. crates/exports/src/lib.rt says what the
// words are.
//
// A crate is a library or a static library: exports is the library that programs in Rattle call, and this one is the archive.
#![tactic(auto)]

ghost use Rattle.exports_calls.specs.GivenCall.{helper_call, row_call};
ghost use Rattle.exports_calls.specs.OpenCall.{open_call};
ghost use Rattle.exports_calls.specs.ReplayCall.{replay_call, replied};
ghost use Rattle.exports_calls.specs.RunCall.{run_call, trace_call, rows_call};
ghost use Rattle.exports_calls.specs.StepCall.{step_call};
ghost use Rattle.exports_calls.specs.ThinCall.{thin_call, thinly};
ghost use Rattle.exports_words.specs.Calls.{interface_version, called, recorded, tabled};
ghost use Rattle.machine.specs.FeeTable.{fee_table, unpriced, priced};
ghost use Rattle.machine.specs.Ram.{cells as cells_of};
ghost use Rattle.machine.specs.Given.{given};
ghost use Rattle.machine.specs.Lent.{code_in, memory_in, memory_out, opening_in, opening_out, shared_in};
ghost use Rattle.std.specs.Prelude.{◌≡◌};

use exports_calls::thin::Registers;

#[unsafe(no_mangle)]
pub extern "C" fn triton_interface_version() -> u64
    ensures { result ≡ interface_version }
{
    exports::calls::triton_interface_version()
}

#[unsafe(no_mangle)]
pub extern "C" fn triton_open(
    registers: &mut [u64],
    answer: &mut [u64],
    revision: u64,
    digest: &[u64],
    cells: u64,
    opcodes: &[u64],
    arguments: &[u64],
    public: &[u64],
    secret: &[u64],
    digests: &[u64],
    op_stack: &mut [u64],
    origins: &mut [u64],
    destinations: &mut [u64],
    addresses: &[u64],
    values: &[u64],
    output: &[u64],
) -> u64
    ensures { called result registers.new answer.new
        (opening_out op_stack origins destinations addresses values output)
        ≡ open_call unpriced registers.old answer.old revision digest.now cells
        (code_in opcodes arguments public secret digests)
        (opening_in op_stack origins destinations addresses values output) }
{
    exports::calls::triton_open(
        registers,
        answer,
        revision,
        digest,
        cells,
        opcodes,
        arguments,
        public,
        secret,
        digests,
        op_stack,
        origins,
        destinations,
        addresses,
        values,
        output,
    )
}

#[unsafe(no_mangle)]
pub extern "C" fn triton_step(
    registers: &mut [u64],
    answer: &mut [u64],
    opcodes: &[u64],
    arguments: &[u64],
    public: &[u64],
    secret: &[u64],
    digests: &[u64],
    op_stack: &mut [u64],
    origins: &mut [u64],
    destinations: &mut [u64],
    addresses: &mut [u64],
    values: &mut [u64],
    output: &mut [u64],
    calls: &mut [u8],
) -> u64
    ensures { recorded (called result registers.new answer.new
        (memory_out op_stack origins destinations addresses values output)) calls.new
        ≡ step_call unpriced registers.old answer.old
        (code_in opcodes arguments public secret digests)
        (memory_in op_stack origins destinations addresses values output) calls.old }
{
    exports::calls::triton_step(
        registers,
        answer,
        opcodes,
        arguments,
        public,
        secret,
        digests,
        op_stack,
        origins,
        destinations,
        addresses,
        values,
        output,
        calls,
    )
}

#[unsafe(no_mangle)]
pub extern "C" fn triton_step_registers(
    registers: &mut Registers,
    answer: &mut [u64],
    opcodes: &[u64],
    arguments: &[u64],
    public: &[u64],
    secret: &[u64],
    digests: &[u64],
    op_stack: &mut [u64],
    origins: &mut [u64],
    destinations: &mut [u64],
    addresses: &mut [u64],
    values: &mut [u64],
    output: &mut [u64],
    calls: &mut [u8],
) -> u64
    ensures { thinly result registers.new answer.new (memory_out op_stack origins destinations addresses values output) calls.new
        ≡ thin_call registers.old answer.old (code_in opcodes arguments public secret digests)
        (memory_in op_stack origins destinations addresses values output) calls.old }
{
    exports::calls::triton_step_registers(
        registers,
        answer,
        opcodes,
        arguments,
        public,
        secret,
        digests,
        op_stack,
        origins,
        destinations,
        addresses,
        values,
        output,
        calls,
    )
}

#[unsafe(no_mangle)]
pub extern "C" fn triton_run(
    registers: &mut [u64],
    answer: &mut [u64],
    budget: u64,
    opcodes: &[u64],
    arguments: &[u64],
    public: &[u64],
    secret: &[u64],
    digests: &[u64],
    op_stack: &mut [u64],
    origins: &mut [u64],
    destinations: &mut [u64],
    addresses: &mut [u64],
    values: &mut [u64],
    output: &mut [u64],
) -> u64
    ensures { called result registers.new answer.new
        (memory_out op_stack origins destinations addresses values output)
        ≡ run_call unpriced budget registers.old answer.old
        (code_in opcodes arguments public secret digests)
        (memory_in op_stack origins destinations addresses values output) }
{
    exports::calls::triton_run(
        registers,
        answer,
        budget,
        opcodes,
        arguments,
        public,
        secret,
        digests,
        op_stack,
        origins,
        destinations,
        addresses,
        values,
        output,
    )
}

#[unsafe(no_mangle)]
pub extern "C" fn triton_trace_execution(
    registers: &mut [u64],
    answer: &mut [u64],
    budget: u64,
    opcodes: &[u64],
    arguments: &[u64],
    public: &[u64],
    secret: &[u64],
    digests: &[u64],
    op_stack: &mut [u64],
    origins: &mut [u64],
    destinations: &mut [u64],
    addresses: &mut [u64],
    values: &mut [u64],
    output: &mut [u64],
    calls: &mut [u8],
) -> u64
    ensures { recorded (called result registers.new answer.new
        (memory_out op_stack origins destinations addresses values output)) calls.new
        ≡ trace_call unpriced budget registers.old answer.old
        (code_in opcodes arguments public secret digests)
        (memory_in op_stack origins destinations addresses values output) calls.old }
{
    exports::calls::triton_trace_execution(
        registers,
        answer,
        budget,
        opcodes,
        arguments,
        public,
        secret,
        digests,
        op_stack,
        origins,
        destinations,
        addresses,
        values,
        output,
        calls,
    )
}

#[unsafe(no_mangle)]
pub extern "C" fn triton_trace_rows(
    registers: &mut [u64],
    answer: &mut [u64],
    budget: u64,
    opcodes: &[u64],
    arguments: &[u64],
    public: &[u64],
    secret: &[u64],
    digests: &[u64],
    op_stack: &mut [u64],
    origins: &mut [u64],
    destinations: &mut [u64],
    addresses: &mut [u64],
    values: &mut [u64],
    output: &mut [u64],
    calls: &mut [u8],
    rows: &mut [u64],
) -> u64
    ensures { tabled (recorded (called result registers.new answer.new
        (memory_out op_stack origins destinations addresses values output)) calls.new) rows.new
        ≡ rows_call unpriced budget registers.old answer.old
        (code_in opcodes arguments public secret digests)
        (memory_in op_stack origins destinations addresses values output) calls.old rows.old }
{
    exports::calls::triton_trace_rows(
        registers,
        answer,
        budget,
        opcodes,
        arguments,
        public,
        secret,
        digests,
        op_stack,
        origins,
        destinations,
        addresses,
        values,
        output,
        calls,
        rows,
    )
}

#[unsafe(no_mangle)]
pub extern "C" fn triton_helper_variables(
    registers: &[u64],
    helpers: &mut [u64],
    opcodes: &[u64],
    arguments: &[u64],
    public: &[u64],
    secret: &[u64],
    digests: &[u64],
    op_stack: &[u64],
    origins: &[u64],
    destinations: &[u64],
    addresses: &[u64],
    values: &[u64],
    output: &[u64],
) -> u64
    ensures { given result helpers.new ≡ helper_call registers.now helpers.old
        (code_in opcodes arguments public secret digests)
        (shared_in op_stack origins destinations addresses values output) }
{
    exports::calls::triton_helper_variables(
        registers,
        helpers,
        opcodes,
        arguments,
        public,
        secret,
        digests,
        op_stack,
        origins,
        destinations,
        addresses,
        values,
        output,
    )
}

#[unsafe(no_mangle)]
pub extern "C" fn triton_processor_row(
    registers: &[u64],
    row: &mut [u64],
    opcodes: &[u64],
    arguments: &[u64],
    public: &[u64],
    secret: &[u64],
    digests: &[u64],
    op_stack: &[u64],
    origins: &[u64],
    destinations: &[u64],
    addresses: &[u64],
    values: &[u64],
    output: &[u64],
) -> u64
    ensures { given result row.new ≡ row_call registers.now row.old
        (code_in opcodes arguments public secret digests)
        (shared_in op_stack origins destinations addresses values output) }
{
    exports::calls::triton_processor_row(
        registers,
        row,
        opcodes,
        arguments,
        public,
        secret,
        digests,
        op_stack,
        origins,
        destinations,
        addresses,
        values,
        output,
    )
}

#[unsafe(no_mangle)]
pub extern "C" fn triton_replay(
    rebuilt: &mut [u64],
    log: &[u8],
    revision: u64,
    clock: u64,
    cells: u64,
    addresses: &mut [u64],
    values: &mut [u64],
    words: &mut [u64],
) -> u64
    ensures { replied result rebuilt.new words.new addresses.new values.new
        ≡ replay_call rebuilt.old log.now revision clock (cells_of cells addresses.old values.old) words.old }
{
    exports::calls::triton_replay(
        rebuilt, log, revision, clock, cells, addresses, values, words,
    )
}

#[unsafe(no_mangle)]
pub extern "C" fn triton_open_with_fees(
    registers: &mut [u64],
    answer: &mut [u64],
    revision: u64,
    digest: &[u64],
    cells: u64,
    opcodes: &[u64],
    arguments: &[u64],
    public: &[u64],
    secret: &[u64],
    digests: &[u64],
    op_stack: &mut [u64],
    origins: &mut [u64],
    destinations: &mut [u64],
    addresses: &[u64],
    values: &[u64],
    output: &[u64],
    lowest: &[u64],
    highest: &[u64],
    fees: &[u64],
) -> u64
    ensures { called result registers.new answer.new
        (opening_out op_stack origins destinations addresses values output)
        ≡ open_call (priced (fee_table lowest.now highest.now fees.now)) registers.old answer.old revision digest.now cells
        (code_in opcodes arguments public secret digests)
        (opening_in op_stack origins destinations addresses values output) }
{
    exports::calls::triton_open_with_fees(
        registers,
        answer,
        revision,
        digest,
        cells,
        opcodes,
        arguments,
        public,
        secret,
        digests,
        op_stack,
        origins,
        destinations,
        addresses,
        values,
        output,
        lowest,
        highest,
        fees,
    )
}

#[unsafe(no_mangle)]
pub extern "C" fn triton_step_with_fees(
    registers: &mut [u64],
    answer: &mut [u64],
    opcodes: &[u64],
    arguments: &[u64],
    public: &[u64],
    secret: &[u64],
    digests: &[u64],
    op_stack: &mut [u64],
    origins: &mut [u64],
    destinations: &mut [u64],
    addresses: &mut [u64],
    values: &mut [u64],
    output: &mut [u64],
    calls: &mut [u8],
    lowest: &[u64],
    highest: &[u64],
    fees: &[u64],
) -> u64
    ensures { recorded (called result registers.new answer.new
        (memory_out op_stack origins destinations addresses values output)) calls.new
        ≡ step_call (priced (fee_table lowest.now highest.now fees.now)) registers.old answer.old
        (code_in opcodes arguments public secret digests)
        (memory_in op_stack origins destinations addresses values output) calls.old }
{
    exports::calls::triton_step_with_fees(
        registers,
        answer,
        opcodes,
        arguments,
        public,
        secret,
        digests,
        op_stack,
        origins,
        destinations,
        addresses,
        values,
        output,
        calls,
        lowest,
        highest,
        fees,
    )
}

#[unsafe(no_mangle)]
pub extern "C" fn triton_run_with_fees(
    registers: &mut [u64],
    answer: &mut [u64],
    budget: u64,
    opcodes: &[u64],
    arguments: &[u64],
    public: &[u64],
    secret: &[u64],
    digests: &[u64],
    op_stack: &mut [u64],
    origins: &mut [u64],
    destinations: &mut [u64],
    addresses: &mut [u64],
    values: &mut [u64],
    output: &mut [u64],
    lowest: &[u64],
    highest: &[u64],
    fees: &[u64],
) -> u64
    ensures { called result registers.new answer.new
        (memory_out op_stack origins destinations addresses values output)
        ≡ run_call (priced (fee_table lowest.now highest.now fees.now)) budget registers.old answer.old
        (code_in opcodes arguments public secret digests)
        (memory_in op_stack origins destinations addresses values output) }
{
    exports::calls::triton_run_with_fees(
        registers,
        answer,
        budget,
        opcodes,
        arguments,
        public,
        secret,
        digests,
        op_stack,
        origins,
        destinations,
        addresses,
        values,
        output,
        lowest,
        highest,
        fees,
    )
}

#[unsafe(no_mangle)]
pub extern "C" fn triton_trace_execution_with_fees(
    registers: &mut [u64],
    answer: &mut [u64],
    budget: u64,
    opcodes: &[u64],
    arguments: &[u64],
    public: &[u64],
    secret: &[u64],
    digests: &[u64],
    op_stack: &mut [u64],
    origins: &mut [u64],
    destinations: &mut [u64],
    addresses: &mut [u64],
    values: &mut [u64],
    output: &mut [u64],
    calls: &mut [u8],
    lowest: &[u64],
    highest: &[u64],
    fees: &[u64],
) -> u64
    ensures { recorded (called result registers.new answer.new
        (memory_out op_stack origins destinations addresses values output)) calls.new
        ≡ trace_call (priced (fee_table lowest.now highest.now fees.now)) budget registers.old answer.old
        (code_in opcodes arguments public secret digests)
        (memory_in op_stack origins destinations addresses values output) calls.old }
{
    exports::calls::triton_trace_execution_with_fees(
        registers,
        answer,
        budget,
        opcodes,
        arguments,
        public,
        secret,
        digests,
        op_stack,
        origins,
        destinations,
        addresses,
        values,
        output,
        calls,
        lowest,
        highest,
        fees,
    )
}

#[unsafe(no_mangle)]
pub extern "C" fn triton_trace_rows_with_fees(
    registers: &mut [u64],
    answer: &mut [u64],
    budget: u64,
    opcodes: &[u64],
    arguments: &[u64],
    public: &[u64],
    secret: &[u64],
    digests: &[u64],
    op_stack: &mut [u64],
    origins: &mut [u64],
    destinations: &mut [u64],
    addresses: &mut [u64],
    values: &mut [u64],
    output: &mut [u64],
    calls: &mut [u8],
    rows: &mut [u64],
    lowest: &[u64],
    highest: &[u64],
    fees: &[u64],
) -> u64
    ensures { tabled (recorded (called result registers.new answer.new
        (memory_out op_stack origins destinations addresses values output)) calls.new) rows.new
        ≡ rows_call (priced (fee_table lowest.now highest.now fees.now)) budget registers.old answer.old
        (code_in opcodes arguments public secret digests)
        (memory_in op_stack origins destinations addresses values output) calls.old rows.old }
{
    exports::calls::triton_trace_rows_with_fees(
        registers,
        answer,
        budget,
        opcodes,
        arguments,
        public,
        secret,
        digests,
        op_stack,
        origins,
        destinations,
        addresses,
        values,
        output,
        calls,
        rows,
        lowest,
        highest,
        fees,
    )
}
