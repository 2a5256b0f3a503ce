//! Replicas that nobody shares any more.
ghost use Rattle.std.specs.Prelude.{◌≡◌, Ok, IsOk, OnOk, IfErr, Some, None};
ghost use Rattle.tca_gossip.specs.Replicas.{least_of};
ghost use Rattle.tca_ingest.specs.Closed.{IsClash, clash_all, clash_among, replicas_of};
ghost use Rattle.tca_ingest.specs.CloseFaults.{IsClashFault};

use crate::close::Closed;
use crate::fault::CloseFault;
use tca_gossip::Replica;

/// Whether closed replicas agree: of each origin, of any two chains one begins with the other. Then those of one plan whose chains
/// are equally long hold equal logs and bills. `Clash` names the least origin of which two chains don't agree; no other fault comes.
/// It takes no memory.
pub fn close_all(closed: &[Closed]) -> Result<(), CloseFault>
    ensures ok { OnOk result (IsClash (replicas_of closed.now) None) }
    ensures fault { IfErr result (IsClashFault (replicas_of closed.now)) }
{
    match clash_in(closed) {
        Some(origin) => Err(CloseFault::Clash { origin }),
        None => Ok(()),
    }
}

// The least origin of which two of these replicas' chains don't agree.
fn clash_in(closed: &[Closed]) -> Option<u32>
    ensures { IsClash (replicas_of closed.now) result }
{
    let mut least = None;
    let mut i = closed.len();
    while i > 0 {
        i -= 1;
        let this = &closed[i];
        let replica = &this.replica;
        // For its clause alone: what is known of each replica.
        let _known = replica.log();
        least = lesser(clash_with(replica, &closed[i + 1..]), least);
    }
    least
}

// The least origin of which this replica's chain and one of another don't agree.
fn clash_with(replica: &Replica, others: &[Closed]) -> Option<u32>
    ensures { result ≡ clash_among replica.now (replicas_of others.now) }
{
    let mut least = None;
    let mut i = others.len();
    while i > 0 {
        i -= 1;
        let other = &others[i];
        least = lesser(replica.fork(&other.replica), least);
    }
    least
}

// The lesser of two origins that may be missing.
fn lesser(one: Option<u32>, other: Option<u32>) -> Option<u32>
    ensures { result ≡ least_of one other }
{
    match (one, other) {
        (Some(origin), Some(least)) if least < origin => Some(least),
        (Some(origin), _) => Some(origin),
        (None, least) => least,
    }
}
