// A fee table as C lends it: three slices, of each row the lowest opcode, the highest, and the fee. Loops take a row's words by one index:
// over `zip` they would know the slices by its iterators alone.
#![tactic(auto, unfolding(choices::specs::Choice::first_of, choices::specs::Choice::above_of, choices::specs::Choice::differ_of))]

ghost use Rattle.std.specs.Prelude.{◌≡◌, true, false, length, get_or, ltb, IsSome};
ghost use Rattle.choices.specs.Choice.{cond, above_of};
ghost use Rattle.machine.specs.Refusal.{plainly, found_a};
ghost use Rattle.machine.specs.FeeTable.{wide1, table1, rows64, earlier};
ghost use Rattle.machine_fees.specs.FeeView.{table_of, fees_of, found_fee, carrying, FoundIn, Shaped, Priceable, OpcodesChecked, TableChecked, FeesChecked, HandsOn, FeesBehind};

use machine::refusal::{FeeError, InstructionError, PlaceA};
use machine_isa::instruction::is_known;
use machine_place_a::checks::{check_at_most, check_length, check_pair};

#[derive(Clone, Copy)]
pub struct LentFees<'a> {
    pub lowest: &'a [u64],
    pub highest: &'a [u64],
    pub fees: &'a [u64],
}

// In how many rows an opcode lies, and the last of them. In none it is 0 and no Option: such a table is turned down, and its prices are not
// used.
#[derive(Clone, Copy)]
pub struct Found {
    pub times: usize,
    pub row: usize,
}

// ---- 1

// Each fee has 32 bits.
fn check_narrow(fees: &[u64]) -> Result<(), PlaceA>
    ensures { found_a result ≡ wide1 fees.now (length fees.now) }
{
    for fee in fees {
        check_at_most(*fee as usize, 4294967295, PlaceA::BadShape)?;
    }
    Ok(())
}

// Slices of one length, and fees of 32 bits.
#[tactic(auto, unfolding(choices::specs::Choice::first_of, choices::specs::Choice::above_of, choices::specs::Choice::differ_of, machine::specs::FeeTable::table1))]
pub fn check_slices(table: &LentFees<'_>) -> Result<(), PlaceA>
    ensures { found_a result ≡ table1 (table_of table.now) }
{
    check_length(table.lowest.len())?;
    check_length(table.highest.len())?;
    check_length(table.fees.len())?;
    check_pair(table.lowest.len(), table.fees.len())?;
    check_pair(table.highest.len(), table.fees.len())?;
    check_narrow(table.fees)
}

// ---- 64

// A row's lowest opcode is not above its highest.
fn check_row(lowest: u64, highest: u64) -> Result<(), FeeError>
    ensures { found_fee result ≡ plainly (above_of lowest highest 64) }
{
    if highest < lowest {
        Err(FeeError::BadFeeTable)
    } else {
        Ok(())
    }
}

// At most 64 rows, each of them right.
fn check_rows(table: &LentFees<'_>) -> Result<(), FeeError>
    requires { Shaped (table_of table.now) }
    ensures { found_fee result ≡ plainly (rows64 (table_of table.now)) }
{
    if 64 < table.fees.len() {
        return Err(FeeError::BadFeeTable);
    }
    for (k, lowest) in table.lowest.iter().enumerate() {
        check_row(*lowest, table.highest[k])?;
    }
    Ok(())
}

// ---- 65 and 66, and the prices

// Whether an opcode lies in a row.
fn covers(lowest: u64, highest: u64, opcode: u64) -> bool
    ensures { result ≡ cond (ltb opcode lowest) false (cond (ltb highest opcode) false true) }
{
    (lowest..=highest).contains(&opcode)
}

impl LentFees<'_> {
    pub fn find_row(&self, opcode: u64) -> Found
        requires { length self.now.lowest.now ≡ length self.now.highest.now }
        ensures { FoundIn self.now.lowest.now self.now.highest.now opcode result }
    {
        let mut times = 0;
        let mut row = 0;
        for (k, lowest) in self.lowest.iter().enumerate() {
            if covers(*lowest, self.highest[k], opcode) {
                times += 1;
                row = k;
            }
        }
        Found { times, row }
    }

    // The fee of a row, 0 where there is no such row.
    fn fee(&self, row: usize) -> u64
        ensures { result ≡ get_or self.now.fees.now row 0 }
    {
        self.fees.get(row).copied().unwrap_or(0)
    }
}

// An opcode in no row comes before one in two, wherever both are.
fn check_opcodes(gap: Option<u64>, twice: Option<u64>) -> Result<(), FeeError>
    ensures { found_fee result ≡ earlier (carrying 65 gap) (carrying 66 twice) }
{
    if let Some(opcode) = gap {
        return Err(FeeError::OpcodeWithoutFee(opcode));
    }
    match twice {
        Some(opcode) => Err(FeeError::OpcodeWithTwoFees(opcode)),
        None => Ok(()),
    }
}

// 65 and 66, and the price of each opcode, in one pass. A table that is bad leaves prices too; no caller uses them.
fn price_opcodes(table: &LentFees<'_>, prices: &mut [u64]) -> Result<(), FeeError>
    requires shaped { Shaped (table_of table.now) }
    requires prices { Priceable prices.old }
    ensures { OpcodesChecked (table_of table.now) result prices.new }
{
    let mut gap = None;
    let mut twice = None;
    for opcode in 0..128 {
        if is_known(opcode) {
            let found = table.find_row(opcode);
            gap = gap.or((found.times == 0).then_some(opcode));
            twice = twice.or((1 < found.times).then_some(opcode));
            prices[opcode as usize] = table.fee(found.row);
        }
    }
    check_opcodes(gap, twice)
}

// 64 to 66 in this order.
fn check_table(table: &LentFees<'_>, prices: &mut [u64]) -> Result<(), FeeError>
    requires shaped { Shaped (table_of table.now) }
    requires prices { Priceable prices.old }
    ensures { TableChecked (table_of table.now) result prices.new }
{
    check_rows(table)?;
    price_opcodes(table, prices)
}

// ---- a call with a table, or without

// An error found before, of any kind that an InstructionError is made of.
fn hand_on<E: Into<InstructionError>>(handed: Result<(), E>) -> Result<(), InstructionError>
    ensures { HandsOn E.converts handed result }
{
    match handed {
        Ok(()) => Ok(()),
        Err(error) => Err(error.into()),
    }
}

// What a call finds wrong, where `handed` is what it found before; with a good table the prices of the opcodes are in prices.
pub fn check_fees_behind<E: Into<InstructionError> + Drop>(
    fees: Option<LentFees<'_>>,
    handed: Result<(), E>,
    prices: &mut [u64],
) -> Result<(), InstructionError>
    requires { IsSome fees → Priceable prices.old }
    ensures { FeesBehind E.converts (fees_of fees.entry) handed result prices.new }
{
    match fees {
        None => hand_on(handed)?,
        Some(table) => {
            check_slices(&table)?;
            hand_on(handed)?;
            check_table(&table, prices)?;
        }
    }
    Ok(())
}

// The same behind place A.
pub fn check_fees(
    fees: Option<LentFees<'_>>,
    handed: Result<(), PlaceA>,
    prices: &mut [u64],
) -> Result<(), InstructionError>
    requires { IsSome fees → Priceable prices.old }
    ensures { FeesChecked (fees_of fees.entry) (found_a handed) result prices.new }
{
    check_fees_behind(fees, handed, prices)
}

#[cfg(test)]
mod tests {
    use super::*;
    use std::test::Fail;

    // Without a table it is what place A found. `Ok(())` needs no word on the error's type.
    #[test]
    fn hands_on_what_place_a_found(rt: HostRuntime) -> Result<(), Fail> {
        let mut prices = [0u64; 128];
        assert_eq!(rt; check_fees(None, Ok(()), &mut prices), Ok(()));
        let found = check_fees(None, Err(PlaceA::BadShape), &mut prices);
        assert_eq!(rt; found, Err(InstructionError::Handed(PlaceA::BadShape)));
        Ok(())
    }

    // One row for all opcodes, of which halt is 0 and nop 8: each costs its fee.
    #[tactic(auto, using(crate::proofs::FeeLaws::zeros_priceable))]
    #[test]
    fn prices_the_opcodes(rt: HostRuntime) -> Result<(), Fail> {
        let table = LentFees {
            lowest: &[0],
            highest: &[127],
            fees: &[3],
        };
        let mut prices = [0u64; 128];
        assert_eq!(rt; check_fees(Some(table), Ok(()), &mut prices), Ok(()));
        assert_eq!(rt; prices[0], 3);
        assert_eq!(rt; prices[8], 3);
        Ok(())
    }
}
