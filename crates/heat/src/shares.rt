// Each meter's share of the house, in millionths: rounded down, and one more for those with the largest remainders.
ghost use Rattle.std.specs.Prelude.{◌≡◌, cond, ℕ, ◌+◌, ◌*◌, ◌/◌, ◌%◌, ◌^◌, ◌≤◌, ◌<◌, true, MatchOption};
ghost use Rattle.octets.specs.Lists.{at};
ghost use Rattle.transaction.specs.Transaction.{meters};
ghost use Rattle.heat.specs.Uses.{SmallUse, gain_of, listed_in, gains_in};
ghost use Rattle.heat.specs.Shares.{house, total, remainder, missing, rank, share};

use super::uses::Uses;
use transaction::METERS;

// The house, in millionths.
const HOUSE: u64 = 1_000_000;

// What a use adds to the total: nothing of a negative one, nor of a meter without a line.
fn gain_of(used: Option<i64>) -> u64
    requires { SmallUse used }
    ensures value { result ≡ gain_of used }
    ensures small { result < 2 ^ 32 }
{
    let Some(z) = used else {
        return 0;
    };
    if z < 0 {
        return 0;
    }
    z.unsigned_abs()
}

fn total(uses: &Uses) -> u64
    ensures { result ≡ total (gains_in uses.now.each) }
{
    let mut sum = 0;
    for used in &uses.each {
        sum += gain_of(*used);
    }
    sum
}

// A meter's part of the house, rounded down, and the remainder.
#[derive(Clone, Copy)]
struct Part {
    floor: u64,
    remainder: u64,
}

// The part of a use in a total.
fn part_of(used: Option<i64>, sum: u64) -> Part
    requires { (0 < sum) × SmallUse used }
    ensures floor { result.floor ≡ gain_of used * house / sum }
    ensures remainder { result.remainder ≡ gain_of used * house % sum }
    ensures small { result.floor < 2 ^ 52 }
{
    let x = gain_of(used) * HOUSE;
    Part {
        floor: x / sum,
        remainder: x % sum,
    }
}

// How many meters come before m: those with a larger remainder, and of equal ones the lower meters. All are looked at, and not
// those with a line alone: a meter without a line has no remainder, so it is before none that has one, and one that has none
// gets no unit (the loop with a test of the line takes three times as long).
fn rank_of(remainders: &[u64; METERS], m: usize) -> u64
    requires { m < meters }
    ensures { result ≡ rank (λ k. true) (at remainders.now) m }
{
    let own = remainders[m];
    let mut count = 0;
    for k in 0..METERS {
        let other = remainders[k];
        let before = (own < other) | ((own == other) & (k < m));
        count += before as u64;
    }
    count
}

// The uses divided by their total, which is not zero: the remainders, and the units that the floors leave.
#[derive(Clone, Copy)]
struct Divided<'a> {
    uses: &'a Uses,
    sum: u64,
    remainders: [u64; METERS],
    left: u64,
    ghost some: { 0 < sum },
    ghost whole: { sum ≡ total (gains_in uses.now.each) },
    ghost rests: { (m : ℕ) → m < meters → at remainders m ≡ remainder (gains_in uses.now.each) m },
    ghost units: { left ≡ missing (gains_in uses.now.each) },
}

impl<'a> Divided<'a> {
    // None where nothing was used.
    fn of(uses: &'a Uses) -> Option<Divided<'a>>
        ensures { MatchOption result (total (gains_in uses.now.each) ≡ 0) (λ d. d.uses.now ≡ uses.now) }
    {
        let sum = total(uses);
        if sum == 0 {
            return None;
        }
        // The index is the remainders': of what a zip of `iter_mut` writes nothing is known.
        let mut remainders = [0; METERS];
        let mut given = 0;
        for (m, used) in uses.each.iter().enumerate() {
            let part = part_of(*used, sum);
            remainders[m] = part.remainder;
            given += part.floor;
        }
        Some(Divided {
            uses,
            sum,
            remainders,
            left: HOUSE - given,
        })
    }

    // The share of a meter: 0 of one without a line.
    fn share_of(&self, m: usize) -> u64
        requires { m < meters }
        ensures { result ≡ cond (listed_in self.now.uses.now.each m) (share (listed_in self.now.uses.now.each) (gains_in self.now.uses.now.each) m) 0 }
    {
        let used = self.uses.each[m];
        if used.is_none() {
            return 0;
        }
        let floor = part_of(used, self.sum).floor;
        if rank_of(&self.remainders, m) < self.left {
            return floor + 1;
        }
        floor
    }
}

// The share of each meter, which is no more than the house: 0 of one without a line.
#[derive(Clone, Copy)]
pub(crate) struct Shares {
    pub(crate) each: [u64; METERS],
    ghost most: { (m : ℕ) → m < meters → at each m ≤ house },
}

impl Shares {
    // None where nothing was used.
    pub(crate) fn of(uses: &Uses) -> Option<Shares>
        ensures { MatchOption result (total (gains_in uses.now.each) ≡ 0) (λ s. (total (gains_in uses.now.each) ≡ 0 → ⊥) × ((m : ℕ) → m < meters → at s.each m ≡ cond (listed_in uses.now.each m) (share (listed_in uses.now.each) (gains_in uses.now.each) m) 0)) }
    {
        let d = Divided::of(uses)?;
        let mut each = [0; METERS];
        for m in 0..METERS {
            each[m] = d.share_of(m);
        }
        Some(Shares { each })
    }
}
