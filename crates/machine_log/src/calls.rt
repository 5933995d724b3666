// A step's records in the lent call buffer, each written into the part behind the last one.
ghost use Rattle.std.specs.Prelude.{◌≡◌, [] as Nil, ◌∷◌, ◌++◌, ◌+◌, ◌-◌, ◌*◌, ◌≤◌, ◌<◌, min, ltb, length};
ghost use Rattle.choices.specs.Choice.{cond};
ghost use Rattle.machine.specs.Bytes.{bytes_of};
ghost use Rattle.machine.specs.Records.{other, stack as stacked, ram, record_bytes, words_bytes, stack_records, call_records};
ghost use Rattle.machine_effects.specs.EffectView.{u32s_of, calls_of};
ghost use Rattle.machine_log.specs.Logged.{logged, Wrote, WroteAny, FrontAny, tip5_bytes, u32_bytes, u32_count, direction_number, ram_records, access_records, call_bytes, stack_bytes, Deep, tip5_record, u32_record};
ghost use Rattle.machine_log.specs.Beside.{with_besides, calls_before, calls_behind, bytes_before, bytes_behind, besides_bytes, LogRoom};

use machine_effects::effect::{Access, Accesses, Direction, Effect, U32Call, U32Calls};

// The bytes go to place `at`.
fn put<const K: usize>(b: &mut [u8], at: usize, bytes: [u8; K])
    requires { at + K ≤ length b.old }
    ensures { b.new ≡ logged b.old at bytes.entry }
{
    b[at..at + K].copy_from_slice(&bytes);
}

// The two lower bytes.
fn put_opcode(b: &mut [u8], at: usize, opcode: u64)
    requires { at + 2 ≤ length b.old }
    ensures { b.new ≡ logged b.old at (bytes_of 2 opcode) }
{
    put(b, at, ((opcode % 0x1_0000) as u16).to_le_bytes());
}

// Eight bytes for each word.
fn put_words(b: &mut [u8], at: usize, words: &[u64])
    requires { at + 8 * length words.now ≤ length b.old }
    ensures { b.new ≡ logged b.old at (words_bytes words.now) }
{
    for (i, word) in words.iter().enumerate() {
        put(b, at + 8 * i, word.to_le_bytes());
    }
}

// 0 for a read, 1 for a write.
fn number(direction: Direction) -> u8
    ensures { result ≡ direction_number direction }
{
    direction as u8
}

// ---- one record of each kind, at the start of what is lent; its length and kind are one store, length + 65536 * kind

fn reset_record(b: &mut [u8])
    requires { 4 ≤ length b.old }
    ensures { FrontAny b.old b.new (other 1 Nil) }
{
    put(b, 0, 65538u32.to_le_bytes());
}

// Each gives how many bytes it takes. In revision 2 length and kind are larger by 4, and the clock stands before the fields; the places are written
// out, so that they are constants to the compiler.

fn tip5_record(b: &mut [u8], revision: u64, clock: u32, opcode: u64, trace: &[u64; 96]) -> usize
    requires { tip5_bytes revision ≤ length b.old }
    ensures { (b.new ≡ logged b.old 0 (record_bytes revision (tip5_record revision clock opcode trace.now))) × (result ≡ tip5_bytes revision) }
{
    if revision == 2 {
        put(b, 0, 393992u32.to_le_bytes());
        put(b, 4, clock.to_le_bytes()); // that before the step
        put_opcode(b, 8, opcode);
        put_words(b, 10, trace);
        return 778;
    }
    put(b, 0, 131844u32.to_le_bytes());
    put_opcode(b, 4, opcode);
    put_words(b, 6, trace);
    774
}

fn u32_record(b: &mut [u8], revision: u64, clock: u32, call: U32Call) -> usize
    requires { u32_bytes revision ≤ length b.old }
    ensures { (b.new ≡ logged b.old 0 (record_bytes revision (u32_record revision clock call))) × (result ≡ u32_bytes revision) }
{
    if revision == 2 {
        put(b, 0, 458776u32.to_le_bytes());
        put(b, 4, clock.to_le_bytes());
        put_opcode(b, 8, call.opcode);
        put(b, 10, call.left.to_le_bytes());
        put(b, 18, call.right.to_le_bytes());
        return 26;
    }
    put(b, 0, 196628u32.to_le_bytes());
    put_opcode(b, 4, call.opcode);
    put(b, 6, call.left.to_le_bytes());
    put(b, 14, call.right.to_le_bytes());
    22
}

fn stack_record(b: &mut [u8], clock: u32, pointer: u64, direction: Direction, value: u64)
    requires { 25 ≤ length b.old }
    ensures { FrontAny b.old b.new (stacked clock pointer (direction_number direction) value) }
{
    put(b, 0, 262167u32.to_le_bytes());
    put(b, 4, clock.to_le_bytes());
    put(b, 8, pointer.to_le_bytes());
    put(b, 16, [number(direction)]);
    put(b, 17, value.to_le_bytes());
}

fn ram_record(b: &mut [u8], clock: u32, access: Access, direction: Direction)
    requires { 25 ≤ length b.old }
    ensures { FrontAny b.old b.new (ram clock access.address access.value (direction_number direction)) }
{
    put(b, 0, 327703u32.to_le_bytes());
    put(b, 4, clock.to_le_bytes());
    put(b, 8, access.address.to_le_bytes());
    put(b, 16, access.value.to_le_bytes());
    put(b, 24, [number(direction)]);
}

// ---- the same behind place `at`; each gives the next place

fn log_reset(b: &mut [u8], at: usize) -> usize
    requires { at + 4 ≤ length b.old }
    ensures { WroteAny b.old b.new at (other 1 Nil ∷ Nil) 4 result }
{
    reset_record(&mut b[at..]);
    at + 4
}

fn log_tip5(
    b: &mut [u8],
    at: usize,
    revision: u64,
    clock: u32,
    opcode: u64,
    trace: &[u64; 96],
) -> usize
    requires { at + tip5_bytes revision ≤ length b.old }
    ensures { Wrote revision b.old b.new at (tip5_record revision clock opcode trace.now ∷ Nil) (tip5_bytes revision) result }
{
    let n = tip5_record(&mut b[at..], revision, clock, opcode, trace);
    at + n
}

fn log_u32(b: &mut [u8], at: usize, revision: u64, clock: u32, call: U32Call) -> usize
    requires { at + u32_bytes revision ≤ length b.old }
    ensures { Wrote revision b.old b.new at (u32_record revision clock call ∷ Nil) (u32_bytes revision) result }
{
    let n = u32_record(&mut b[at..], revision, clock, call);
    at + n
}

fn log_stack(
    b: &mut [u8],
    at: usize,
    clock: u32,
    pointer: u64,
    direction: Direction,
    value: u64,
) -> usize
    requires { at + 25 ≤ length b.old }
    ensures { WroteAny b.old b.new at (stacked clock pointer (direction_number direction) value ∷ Nil) 25 result }
{
    stack_record(&mut b[at..], clock, pointer, direction, value);
    at + 25
}

fn log_ram(b: &mut [u8], at: usize, clock: u32, access: Access, direction: Direction) -> usize
    requires { at + 25 ≤ length b.old }
    ensures { WroteAny b.old b.new at (ram clock access.address access.value (direction_number direction) ∷ Nil) 25 result }
{
    ram_record(&mut b[at..], clock, access, direction);
    at + 25
}

// ---- runs of records

fn log_u32s(b: &mut [u8], at: usize, revision: u64, clock: u32, calls: U32Calls) -> usize
    requires { at + u32_bytes revision * u32_count calls ≤ length b.old }
    ensures { Wrote revision b.old b.new at (call_records revision clock (u32s_of calls)) (u32_bytes revision * u32_count calls) result }
{
    match calls {
        U32Calls::Zero => at,
        U32Calls::One(call) => log_u32(b, at, revision, clock, call),
        U32Calls::Two(first, second) => {
            let next = log_u32(b, at, revision, clock, first);
            log_u32(b, next, revision, clock, second)
        }
    }
}

// Accesses that are all in one direction.
fn log_row(b: &mut [u8], at: usize, clock: u32, accesses: &[Access], direction: Direction) -> usize
    requires { at + 25 * length accesses.now ≤ length b.old }
    ensures { WroteAny b.old b.new at (ram_records clock direction accesses.now (length accesses.now)) (25 * length accesses.now) result }
{
    let mut next = at;
    for access in accesses {
        next = log_ram(b, next, clock, *access, direction);
    }
    next
}

// The reads, then the writes.
fn log_accesses(b: &mut [u8], at: usize, clock: u32, accesses: &Accesses) -> usize
    requires { at + 25 * accesses.now.count ≤ length b.old }
    ensures { WroteAny b.old b.new at (access_records clock accesses.now) (25 * accesses.now.count) result }
{
    let next = log_row(b, at, clock, accesses.reads_as_slice(), Direction::Read);
    log_row(b, next, clock, accesses.writes_as_slice(), Direction::Write)
}

// A write where the depth grows, else a read.
fn direction(depth: usize, after: usize) -> Direction
    ensures { direction_number result ≡ cond (ltb depth after) 1 0 }
{
    if depth < after {
        Direction::Write
    } else {
        Direction::Read
    }
}

// The pointer of record i: upward from the depth, or downward from below it.
fn pointer(depth: usize, after: usize, i: usize) -> usize
    requires { i < after - depth + (depth - after) }
    ensures { (result ≡ cond (ltb depth after) (depth + i) (depth - 1 - i)) × (min depth after ≤ result) × (result < depth + (after - depth)) }
{
    if depth < after {
        depth + i
    } else {
        depth - 1 - i
    }
}

// The op-stack records from one depth to another: the words that a growing step leaves below the top sixteen, or those that a shrinking step
// brings into them.
pub fn log_depth(
    b: &mut [u8],
    at: usize,
    clock: u32,
    stack: &[u64],
    depth: usize,
    after: usize,
) -> usize
    requires { (at + stack_bytes depth after ≤ length b.old) × Deep stack.now depth after }
    ensures { WroteAny b.old b.new at (stack_records clock stack.now stack.now depth after) (stack_bytes depth after) result }
{
    let way = direction(depth, after);
    let mut next = at;
    for i in 0..after.abs_diff(depth) {
        let q = pointer(depth, after, i);
        next = log_stack(b, next, clock, q as u64, way, stack[q - 16]);
    }
    next
}

// An effect's own calls: of the U32 table, then of RAM.
fn log_calls(b: &mut [u8], at: usize, revision: u64, clock: u32, effect: &Effect) -> usize
    requires { at + call_bytes revision effect.now ≤ length b.old }
    ensures { Wrote revision b.old b.new at (call_records revision clock (calls_of effect.now)) (call_bytes revision effect.now) result }
{
    let next = log_u32s(b, at, revision, clock, effect.u32s);
    log_accesses(b, next, clock, &effect.accesses)
}

// What a step records besides its effect's calls and the op stack's: a reset of the sponge before them, or, under an opcode, a
// trace before the effect's calls or behind them.
#[derive(Clone, Copy)]
pub enum Besides<'a> {
    Nothing,
    Reset,
    First(u64, &'a [u64; 96]),
    Last(u64, &'a [u64; 96]),
}

fn log_before(b: &mut [u8], revision: u64, clock: u32, besides: Besides<'_>) -> usize
    requires { bytes_before revision besides ≤ length b.old }
    ensures { Wrote revision b.old b.new 0 (call_records revision clock (calls_before besides.entry)) (bytes_before revision besides.entry) result }
{
    match besides {
        Besides::Reset => log_reset(b, 0),
        Besides::First(opcode, trace) => log_tip5(b, 0, revision, clock, opcode, trace),
        Besides::Nothing => 0,
        Besides::Last(_, _) => 0,
    }
}

fn log_behind(b: &mut [u8], at: usize, revision: u64, clock: u32, besides: Besides<'_>) -> usize
    requires { at + bytes_behind revision besides ≤ length b.old }
    ensures { Wrote revision b.old b.new at (call_records revision clock (calls_behind besides.entry)) (bytes_behind revision besides.entry) result }
{
    match besides {
        Besides::Last(opcode, trace) => log_tip5(b, at, revision, clock, opcode, trace),
        Besides::Nothing => at,
        Besides::Reset => at,
        Besides::First(_, _) => at,
    }
}

// The records of a step, from the start of the buffer on; gives how many bytes they take. `stack` is the stack after the step.
// Below the words that a step takes off it is the stack before it too, and there lie the words of a shrinking step's records.
pub fn write(
    b: &mut [u8],
    revision: u64,
    clock: u32,
    besides: Besides<'_>,
    effect: &Effect,
    stack: &[u64],
    depth: usize,
    after: usize,
) -> usize
    requires { LogRoom revision besides effect.now stack.now b.old depth after }
    ensures { Wrote revision b.old b.new 0
        (call_records revision clock (with_besides besides.entry (calls_of effect.now)) ++ stack_records clock stack.now stack.now depth after)
        (besides_bytes revision besides.entry + call_bytes revision effect.now + stack_bytes depth after) result }
{
    let next = log_before(b, revision, clock, besides);
    let then = log_calls(b, next, revision, clock, effect);
    let end = log_behind(b, then, revision, clock, besides);
    log_depth(b, end, clock, stack, depth, after)
}
