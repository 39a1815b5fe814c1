//! The pair of nodes whose walk is the greatest multiple of its distance.
ghost use Rattle.std.specs.Prelude.{◌≡◌, ◌↔◌, ◌≤◌, IsTrue, length};
ghost use Rattle.ir_show.specs.{Before.{IsWorse, IsWorstWith}, Figures.IsWorstWithThoseTo};

/// An ordered pair of two nodes.
#[derive(Clone, Copy, Debug, PartialEq, Eq)]
pub struct Pair {
    pub from: u16,
    pub to: u16,
}

/// A pair, with the weight of its walk and its distance.
#[derive(Clone, Copy, Debug, PartialEq, Eq)]
pub struct Weighed {
    pub ends: Pair,
    pub walk: u32,
    pub distance: u32,
}

/// Whether the walk of a pair is a greater multiple of its distance than that of another; of two that are as great the
/// earlier pair is the worse one.
fn is_worse(pair: Weighed, other: Weighed) -> bool
    ensures { IsTrue result ↔ IsWorse pair other }
{
    let this = pair.walk as u64 * other.distance as u64;
    let that = other.walk as u64 * pair.distance as u64;
    if this != that {
        return that < this;
    }
    let Pair { from, to } = other.ends;
    pair.ends.from < from || (pair.ends.from == from && pair.ends.to < to)
}

/// The worst of the pairs up to a pair, by the worst of those looked at before it.
fn worse_of(best: Option<Weighed>, pair: Weighed) -> Option<Weighed>
    ensures { IsWorstWith pair best result }
{
    if pair.ends.from == pair.ends.to {
        return best;
    }
    let Some(other) = best else {
        return Some(pair);
    };
    if is_worse(pair, other) {
        Some(pair)
    } else {
        Some(other)
    }
}

/// The worst of the pairs up to those to `d`, by the worst of those to the nodes before it, and by the weights of the
/// walks and the distances to it.
pub fn worst_to(d: u16, walks: &[u32], distances: &[u32], best: Option<Weighed>) -> Option<Weighed>
    requires distances { length distances.now ≡ length walks.now }
    requires few { length walks.now ≤ 32768 }
    ensures { IsWorstWithThoseTo d walks.now distances.now best result }
{
    let mut worst = best;
    for u in 0..walks.len() {
        let pair = Weighed {
            ends: Pair {
                from: u as u16,
                to: d,
            },
            walk: walks[u],
            distance: distances[u],
        };
        worst = worse_of(worst, pair);
    }
    worst
}
