//! What is called as workers go from job to job.

/// Called by the workers of `work`, so that a caller can watch them or hold them back.
pub trait Gate: Sync {
    /// Before a job's input is read. No lock is held.
    fn before(&self, job: u32);

    /// Under the replica's lock, as the job's take begins.
    fn inside(&self, job: u32);

    /// After a job. No lock is held.
    fn after(&self, job: u32);
}

/// A gate that does nothing.
pub struct NoGate;

impl Gate for NoGate {
    fn before(&self, _job: u32) {}

    fn inside(&self, _job: u32) {}

    fn after(&self, _job: u32) {}
}
