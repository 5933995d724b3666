// open: place A, and the fee table where one is handed in, then the machine before its first step.
ghost use Rattle.std.specs.Prelude.{◌≡◌, ◌≤◌, length, IsSome};
ghost use Rattle.machine.specs.Lent.{code_of, opening_of, KeepsOpening};
ghost use Rattle.machine.specs.Open.{opened_stack};
ghost use Rattle.machine_fees.specs.FeeView.{Priceable, fees_of};
ghost use Rattle.machine_open.specs.OpenView.{registers_of, Opens};

use machine::lent::{LentCode, OpeningMemory};
use machine::refusal::InstructionError;
use machine::state::VMState;
use machine_fees::fee_table::{LentFees, check_fees_behind};
use machine_isa::few::Few;
use machine_isa::op_stack::apply;
use machine_place_a::checks::check_open;
use tip5::sponge::Sponge;

// All registers 0 but for these three, and no sponge.
fn registers(depth: usize, cells: usize, revision: u64) -> VMState
    ensures { result ≡ registers_of depth cells revision }
{
    let sponge = Sponge {
        words: [0; 16],
        set: false,
    };
    VMState {
        clock: 0,
        pointer: 0,
        depth,
        jumps: 0,
        cells,
        outputs: 0,
        publics: 0,
        secrets: 0,
        digests: 0,
        sponge,
        halted: false,
        revision,
    }
}

// The digest reversed at the bottom, and zeros above: all words are taken off, and these five put on.
#[tactic(auto, using(crate::proofs::OpenLaws::stack_opened))]
fn open_stack(s: &mut [u64], digest: &[u64; 5])
    requires { 16 ≤ length s.old }
    ensures { s.new ≡ opened_stack digest.now s.old }
{
    let n = s.len();
    let reversed = [digest[4], digest[3], digest[2], digest[1], digest[0]];
    apply(s, n, n, &Few::of(reversed));
}

// An opening only looks at a table.
fn checked(
    fees: Option<LentFees<'_>>,
    prices: &mut [u64],
    revision: u64,
    digest: &[u64; 5],
    cells: usize,
    code: &LentCode<'_>,
    memory: &mut OpeningMemory<'_>,
) -> Result<VMState, InstructionError>
    requires { IsSome fees → Priceable prices.old }
    ensures opens { Opens (fees_of fees.entry) revision digest.now (code_of code.now) (opening_of memory.old) cells result (opening_of memory.new) }
    ensures lent { KeepsOpening memory.old memory.new }
{
    let handed = check_open(revision, digest, code, &memory.look(), cells);
    check_fees_behind(fees, handed, prices)?;
    open_stack(memory.op_stack, digest);
    memory.origins.fill(0);
    memory.destinations.fill(0);
    Ok(registers(16, cells, revision))
}

// With a log of the revision chosen. RAM and output are looked at and stay. Refused, nothing lent is changed. A fee table is looked at last of all and not
// kept.
#[tactic(auto, using(machine_fees::proofs::FeeLaws::zeros_priceable))]
pub fn open(
    fees: Option<LentFees<'_>>,
    revision: u64,
    digest: &[u64; 5],
    cells: usize,
    code: &LentCode<'_>,
    memory: &mut OpeningMemory<'_>,
) -> Result<VMState, InstructionError>
    ensures opens { Opens (fees_of fees.entry) revision digest.now (code_of code.now) (opening_of memory.old) cells result (opening_of memory.new) }
    ensures lent { KeepsOpening memory.old memory.new }
{
    match fees {
        None => {
            let mut none = [0; 1];
            checked(None, &mut none, revision, digest, cells, code, memory)
        }
        Some(_) => {
            let mut prices = [0; 128];
            checked(fees, &mut prices, revision, digest, cells, code, memory)
        }
    }
}
