//! Replicas that threads share, each with a journal of what was called on it.
//!
//! A `Shared` replica is called by `Pass`es, each of which is one caller's. A call takes the replica's one lock, makes one call of
//! the `Replica`, and writes down what it was given and what it answered, in the journal of the replica and in the list of its pass.
//! Whenever the lock is free the journal is the history of a single thread: replayed from a new replica it gives the replica as it
//! is, and each answer in it is the one that this thread would have got. Who gives all passes back by `close` gets the replica and
//! its journal, in which each pass's calls stand in the pass's order, and no others.
//!
//! Nothing is said of how long a call waits for the lock, or in which order calls that wait get it.
//!
//! - `entry`: one call with its answer; `copies`: the room for an entry in the three places where it stands, which share the list of a
//!   take;
//! - `held`: what lies under the lock, and the calls on it; `note`: how a call is written down; `pass`: who calls;
//!   `side`: which replica it is;
//! - `shared`: the calls by threads, and the exchange between two replicas;
//! - `close`: what comes of passes that are given back; `fitting`: whether they are all that there were; `closed`: many replicas
//!   that nobody shares any more;
//! - `workers`: threads that take inputs into a replica; `worker`: what one of them does; `job`: one input and what came of it; `collect`:
//!   the results of all; `in_order`: whether each pass has its entries in the order of the jobs; `gate`: what is called as they go;
//! - `fault`: why a call, a close or a run of workers is refused;
//! - `laws`: what a journal says of its replica and of its passes.
#![tactic(auto)]

mod close;
mod closed;
mod collect;
mod copies;
mod entry;
mod fault;
mod fitting;
mod gate;
mod held;
mod in_order;
mod job;
mod laws;
mod note;
mod pass;
mod shared;
mod side;
mod worker;
mod workers;

pub use close::{Closed, Unclosed, Unheld};
pub use closed::close_all;
pub use entry::{Entry, Receipt};
pub use fault::{CloseFault, ShareFault, WorkFault};
pub use gate::{Gate, NoGate};
pub use held::Held;
pub use job::{Done, JobFault};
pub use laws::{close_laws, closed_laws, entry_laws, history_laws, list_laws};
pub use pass::Pass;
pub use shared::{Shared, exchange};
pub use side::Side;
pub use workers::{WorkRefused, Worked, work, work_on};
