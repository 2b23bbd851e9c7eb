// The search for the nearest pair.
ghost use Rattle.std.specs.Prelude.{◌≡◌, ◌≤◌, true, false, MatchResult};
ghost use Rattle.wire.specs.declared.numbers.Refusal.TheVariants as Refusal;
ghost use Rattle.dividers.specs.Pairs.{measured};
ghost use Rattle.dividers.specs.Nearest.{wanted_fits, with_n1, nearest, nearest_pair, Begins};

use crate::pairs::{LARGEST, Nearest, SMALLEST, measure, nearer};
use wire::numbers::Refusal;

// Wanted periods, in nanoseconds.
const SHORTEST: u64 = 400;

const LONGEST: u64 = 429_483_622_500;

// What one more in n1 adds to a period at most, in nanoseconds.
const LONGEST_STEP: u64 = 6_553_500;

// A wanted period, in nanoseconds.
#[derive(Clone, Copy)]
struct Wanted {
    ns: u64,
    ghost fits: { wanted_fits ns ≡ true },
}

impl Wanted {
    // 21 outside 400 to 429,483,622,500 ns.
    #[tactic(auto, unfolding(crate::specs::Nearest::wanted_fits))]
    fn of(ns: u64) -> Result<Self, Refusal>
        ensures { MatchResult result (λ w. w.ns ≡ ns) (λ r. (r ≡ Refusal.OutsidePeriod) × (wanted_fits ns ≡ false)) }
    {
        match ns {
            SHORTEST..=LONGEST => Ok(Wanted { ns }),
            _ => Err(Refusal::OutsidePeriod),
        }
    }

    // The n1 to begin with: 2, or the last one with which 65,535 as n2 does not exceed the wanted period. With a smaller one every pair stays further below it.
    #[tactic(auto, using(crate::proofs::nearest::Going::begins_at, crate::proofs::nearest::Going::most))]
    fn first_n1(self) -> u32
        ensures { Begins self.ns result }
    {
        ((self.ns / LONGEST_STEP) as u32).max(SMALLEST)
    }

    // The nearest n2 beside an n1: the wanted period over 100 × n1, rounded, a half down, and held at 2 and at 65,535. The range of n1 is asked for here and is no type of its own:
    // n1 counts turns, and the last adds one to 65,535.
    #[tactic(auto, using(crate::proofs::nearest::Rows::held, crate::proofs::nearest::Going::most))]
    fn n2_for(self, n1: u32) -> u32
        requires { (2 ≤ n1) × (n1 ≤ 65535) }
        ensures { result ≡ (with_n1 self.ns n1).n2 }
    {
        let n = u64::from(n1);
        let n2 = (self.ns + 50 * n - 1) / (100 * n);
        n2.clamp(u64::from(SMALLEST), u64::from(LARGEST)) as u32
    }

    // Of the pairs with this n1, the nearest.
    #[tactic(auto, using(crate::proofs::nearest::Laws::row_n2, crate::proofs::nearest::Laws::row_is))]
    fn with_n1(self, n1: u32) -> Nearest
        requires { (2 ≤ n1) × (n1 ≤ 65535) }
        ensures { result ≡ measured self.ns (with_n1 self.ns n1) }
    {
        measure(self.ns, n1, self.n2_for(n1))
    }

    // Of all lawful pairs, the nearest. The best so far is first the pair with 65,535, which is nearer than all with a smaller n1. n1 rises, so the first exact pair that is met has
    // the least n1, and the search ends there at once. Else it ends where 100 × n1 × n1 is at least as far above the wanted period as the best so far: a pair that was not met,
    // either way round, has no divider below n1. Both ends are tested within a turn, on what that turn found, so it is a loop and no iterator.
    #[tactic(auto, using(crate::proofs::nearest::Going::best_begins, crate::proofs::nearest::Going::best_goes_on, crate::proofs::nearest::Going::best_exact, crate::proofs::nearest::Going::best_within, crate::proofs::nearest::Going::square))]
    fn search(self) -> Nearest
        ensures { result ≡ measured self.ns (nearest self.ns) }
    {
        let mut n1 = self.first_n1();
        let mut best = measure(self.ns, n1, LARGEST);
        loop {
            let next = self.with_n1(n1);
            if next.distance == 0 {
                break next;
            }
            best = nearer(next, best);
            n1 += 1;
            if self.ns + best.distance <= 100 * (u64::from(n1) * u64::from(n1)) {
                break best;
            }
        }
    }
}

// The nearest pair to a wanted period in nanoseconds: 21 outside 400 to 429,483,622,500.
#[tactic(auto, using(wire::proofs::numbers::Names::outside_period_named))]
pub fn nearest_pair(wanted: u64) -> Result<Nearest, Refusal>
    ensures { result ≡ nearest_pair wanted }
{
    Ok(Wanted::of(wanted)?.search())
}
