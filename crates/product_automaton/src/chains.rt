//! The bound of a chain of functions, each equivalent to the next.
ghost use Rattle.std.specs.Prelude.{◌≡◌, ◌^◌, ◌<◌, ◌≤◌, All, length};
ghost use Rattle.product_automaton.specs.ChainBounds.{composed_bound, joined_bound};

/// The bound of a chain, from the bounds of its links in order: one to seven, each at most 32,768.
///
/// Two links with the bounds k and l have together the bound `k * l + max(k, l)`, and longer chains
/// are joined from the left.
pub fn compose(ks: &[u64]) -> u128
    requires some { 1 ≤ length ks.now }
    requires few { length ks.now ≤ 7 }
    requires small { All (λ k. k ≤ 32768) ks.now }
    ensures bound { result ≡ composed_bound ks.now }
    ensures below { result < 2 ^ 106 }
{
    let mut bound = 0;
    let mut rest = ks;
    while let [k, after @ ..] = rest {
        bound = join(bound, *k as u128);
        rest = after;
    }
    bound
}

/// The bound of two links with these bounds.
fn join(k: u128, l: u128) -> u128
    requires { joined_bound k l < 2 ^ 128 }
    ensures { result ≡ joined_bound k l }
{
    k * l + k.max(l)
}
