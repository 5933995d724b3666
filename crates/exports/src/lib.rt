// The C interface: the machine's calls over numbers and slices. A slice goes over as a pointer and a length.
//
// triton_interface_version()
// triton_open(registers, answer, revision, digest, cells, code, memory)
// triton_step(registers, answer, code, memory, calls)
// triton_step_registers(registers, answer, code, memory, calls)
// triton_run(registers, answer, budget, code, memory)
// triton_trace_execution(registers, answer, budget, code, memory, calls)
// triton_trace_rows(registers, answer, budget, code, memory, calls, rows)
// triton_helper_variables(registers, helpers, code, memory)
// triton_processor_row(registers, row, code, memory)
// triton_replay(rebuilt, log, revision, clock, cells, addresses, values, words)
//
// triton_open_with_fees, triton_step_with_fees, triton_run_with_fees, triton_trace_execution_with_fees, triton_trace_rows_with_fees: the same with a fee
// table behind the other parameters, which is lowest, highest, fees: a slice each, of a row the lowest opcode, the highest and the fee.
//
// code is opcodes, arguments, public, secret, digests, and memory is op_stack, origins, destinations, addresses, values, output: a slice each.
//
// registers, 28 words (exports_words, specs/Registers.antt):
//     0 clock, below 2^32
//     1 pointer
//     2 depth
//     3 jumps
//     4 cells
//     5 outputs
//     6 publics
//     7 secrets
//     8 digests
//     9 halted, 0 or 1
//    10 whether the sponge is set, 0 or 1
//    11 to 26 the sponge's words
//    27 the log's revision, 1 or 2; any other word gives 4 by place A
// answer, 7 words, and 8 of a call with a fee table, but for open's (exports_words, specs/Report.antt):
//     0 how the call ended: 0 opened, taken or halted, 1 spent, 2 log full, 3 refused, 4 table full: fewer words of rows left than a row has
//     1 the refusal's number, 0 where the call is not refused
//     2 to 4 the three words that the refusal carries
//     5 how many steps succeeded: of step 1 or 0, of open 0; triton_trace_rows has written as many rows
//     6 how many bytes of records were written
//     7 what the steps cost that succeeded; of step the row that priced it, counted from 0, and 0 where it is refused
// digest, 5 words. helpers, 6 words, zeros where the call is refused.
// row, 37 words, zeros where the call is refused; rows, any number of words, a row behind the other (machine, specs/ProcessorRow.antt):
//     0 CLK, 1 IP, 2 CI, 3 NIA, 4 to 10 IB0 to IB6, 11 JSP, 12 JSO, 13 JSD, 14 to 29 ST0 to ST15, 30 the op stack pointer, 31 to 36 HV0 to HV5
// rebuilt, 3 words (exports_calls, specs/ReplayCall.antt): the number, the depth and how many cells are used, the last two 0 where the call is refused. log is
// bytes; words is the stack slice, all 0 before the call.
//
// triton_step_registers is triton_step with the registers as a struct that is lent, `Registers` in exports_calls, src/thin.rt. A mirror in Rust is `#[repr(C)]`
// with the same fields in the same order; it has 216 bytes, and those that are reserved stay as they are:
//     0 clock, 4 reserved, 4 bytes each
//     8 pointer, 16 depth, 24 jumps, 32 cells, 40 outputs, 48 publics, 56 secrets, 64 digests, 8 bytes each
//    72 halted, 73 whether the sponge is set, a byte each, 0 or 1; 74 to 79 reserved
//    80 to 207 the sponge's words, 208 the log's revision, 8 bytes
//
// Each call gives the number too. One of these slices with another length, a clock at or above 2^32 and a mark other than 0 or 1 give 1: then
// nothing lent is changed, and an answer of as many words as it is to have says so; one of another length stays. open does not read the registers, only
// their length. Of a fee table 1 is slices of different lengths and a fee at or above 2^32; 64 to 66, which come behind place A's 1 to 5, also where the
// machine is halted, change nothing (machine, specs/FeeTable.antt).
#![tactic(auto)]

pub mod calls;
