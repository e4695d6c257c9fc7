//! The fold of a flow.
ghost use Rattle.std.specs.Prelude.{◌≡◌};
ghost use Rattle.ntuple_rules.specs.Folds.{fold_of, fold_pair};

use steer_base::{Flow, Pair};

/// Both addresses as the XOR of the two.
fn fold_pair(pair: Pair) -> Pair
    ensures { result ≡ fold_pair pair }
{
    match pair {
        Pair::V4 { src, dst } => Pair::V4 {
            src: src ^ dst,
            dst: src ^ dst,
        },
        Pair::V6 { src, dst } => Pair::V6 {
            src: src ^ dst,
            dst: src ^ dst,
        },
    }
}

/// The symmetric form of a flow: both addresses are the XOR of the flow's addresses, and both ports
/// the XOR of its ports, as `xfrm symmetric-xor` of ethtool. A flow and its other direction have
/// the same fold. Allocates nothing.
pub fn fold(flow: &Flow) -> Flow
    ensures { result ≡ fold_of flow.now }
{
    match *flow {
        Flow::Bare => Flow::Bare,
        Flow::Two(pair) => Flow::Two(fold_pair(pair)),
        Flow::Four(pair, proto, sport, dport) => {
            Flow::Four(fold_pair(pair), proto, sport ^ dport, sport ^ dport)
        }
    }
}
