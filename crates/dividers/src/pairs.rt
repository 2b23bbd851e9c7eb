// Pairs of dividers, and how far their periods are from a wanted one.
ghost use Rattle.std.specs.Prelude.{◌≡◌, ◌≤◌};
ghost use Rattle.dividers.specs.Pairs.{pair, measured, nearer};

// What a divider may be.
pub(crate) const SMALLEST: u32 = 2;

pub(crate) const LARGEST: u32 = 65_535;

// Two dividers, as the periodic output takes them.
#[derive(Clone, Copy, Debug, PartialEq, Eq)]
pub struct Pair {
    pub n1: u32,
    pub n2: u32,
}

// A pair measured against a wanted period: its own, and how far the two are apart, in nanoseconds.
#[derive(Clone, Copy, Debug, PartialEq, Eq)]
pub struct Nearest {
    pub pair: Pair,
    pub period: u64,
    pub distance: u64,
}

// Measures two dividers against a wanted period.
#[tactic(auto, using(crate::proofs::pairs::Laws::product_most, crate::proofs::pairs::Laws::apart_is))]
pub(crate) fn measure(wanted: u64, n1: u32, n2: u32) -> Nearest
    requires { (n1 ≤ 65535) × (n2 ≤ 65535) }
    ensures { result ≡ measured wanted (pair n1 n2) }
{
    let period = 100 * (u64::from(n1) * u64::from(n2));
    Nearest {
        pair: Pair { n1, n2 },
        period,
        distance: wanted.abs_diff(period),
    }
}

// The nearer of two; of equal distances the one with the smaller period; of equal periods the second.
#[tactic(auto, unfolding(crate::specs::Pairs::nearer))]
pub(crate) fn nearer(p: Nearest, q: Nearest) -> Nearest
    ensures { result ≡ nearer p q }
{
    if p.distance < q.distance || (p.distance == q.distance && p.period < q.period) {
        p
    } else {
        q
    }
}
