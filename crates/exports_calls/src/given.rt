// What the calls have in common that give words of a machine.
ghost use Rattle.std.specs.Prelude.{◌≡◌, length};
ghost use Rattle.machine.specs.Given.{given as gives};
ghost use Rattle.machine_open.specs.GivenView.{given_in};
ghost use Rattle.exports_calls.specs.GivenCall.{zeroed};

use machine::refusal::PlaceA;
use machine_refusals::refusals::Refusal;

// k zeros; a slice of another length stays.
#[tactic(auto, unfolding(crate::specs::GivenCall::zeroed))]
pub fn zero_words(v: &mut [u64], k: usize)
    ensures { v.new ≡ zeroed k v.old }
{
    if v.len() == k {
        v.fill(0);
    }
}

// The words that are given, or zeros; and the number.
pub fn write_given<const K: usize>(v: &mut [u64], given: Result<[u64; K], PlaceA>) -> u64
    requires { length v.old ≡ K }
    ensures { gives result v.new ≡ given_in K given.entry }
{
    match given {
        Ok(words) => {
            v.copy_from_slice(&words);
            0
        }
        Err(error) => {
            zero_words(v, K);
            Refusal::from(error).number
        }
    }
}
