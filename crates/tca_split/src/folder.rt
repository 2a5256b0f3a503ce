//! A folder with a file for each observation domain, and a count of the calls that failed.
ghost use Rattle.std.specs.Prelude.{◌≡◌, ◌≢◌, ◌⊎◌, ◌<◌, ◌≤◌, ℕ, true, Option, Some, None, IfOk, IfErr, OnOk, OnErr, length, take, is_some};
ghost use Rattle.tca_report.specs.device.Devices.{CountsFailure};
ghost use Rattle.tca_split.specs.Failures.{CountsWrite};
ghost use Rattle.tca_split.specs.Folders.{Files, Makes, Creates, Lengthens};
ghost use Rattle.tca_split.specs.Surveys.{is_among};
ghost use Rattle.tca_split.specs.inside.Buffering.{Starts, StartsMaking};

use crate::fault::SplitFault;
use std::io;

/// A folder that may have a file for each observation domain.
pub trait Folder {
    // The octets of each domain's file, where they are known.
    ghost files: { Self → Option Files };

    // How many calls have failed.
    ghost failures: { Self → ℕ };

    /// Whether there is a file of this domain.
    fn has(&mut self, domain: u32) -> io::Result<bool>
        ensures files { files self.new ≡ files self.old }
        ensures told { IfOk result (λ there. (all : Files) → files self.old ≡ Some all → there ≡ is_some (all domain)) }
        ensures count { CountsFailure result (failures self.old) (failures self.new) };

    /// Makes an empty file of this domain. It fails where there is one.
    fn create(&mut self, domain: u32) -> io::Result<()>
        ensures made { OnOk result (Makes domain (files self.old) (files self.new)) }
        ensures kept { OnErr result (files self.new ≡ files self.old) }
        ensures count { CountsFailure result (failures self.old) (failures self.new) };

    /// Writes some of the first octets behind those that the domain's file has, and gives their number. A call that
    /// writes none of them fails. An `Err` writes none.
    fn append(&mut self, domain: u32, octets: &[u8]) -> io::Result<usize>
        ensures some { 0 < length octets.now → IfOk result (λ n. 0 < n) }
        ensures bound { IfOk result (λ n. n ≤ length octets.now) }
        ensures octets { IfOk result (λ n. Lengthens domain (take n octets.now) (files self.old) (files self.new)) }
        ensures kept { OnErr result (files self.new ≡ files self.old) }
        ensures count { CountsFailure result (failures self.old) (failures self.new) };
}

// Writes all the octets behind those that the domain's file has. It stops at the first write that fails.
pub(crate) fn append_all<F: Folder>(
    domain: u32,
    octets: &[u8],
    folder: &mut F,
) -> Result<(), SplitFault>
    ensures all { OnOk result (Lengthens domain octets.now (F.files folder.old) (F.files folder.new)) }
    ensures part { OnErr result (Starts domain octets.now (F.files folder.old) (F.files folder.new)) }
    ensures fault { IfErr result (λ e. e ≡ SplitFault.Write) }
    ensures count { CountsWrite result (F.failures folder.old) (F.failures folder.new) }
{
    let mut done = 0;
    while done < octets.len() {
        match folder.append(domain, &octets[done..]) {
            Ok(n) => done += n,
            Err(_) => return Err(SplitFault::Write),
        }
    }
    Ok(())
}

// Looks whether no domain has a file yet.
pub(crate) fn check_free<F: Folder>(domains: &[u32], folder: &mut F) -> Result<(), SplitFault>
    ensures files { F.files folder.new ≡ F.files folder.old }
    ensures free { OnOk result ((all : Files) → F.files folder.old ≡ Some all → (d : ℕ) → is_among d domains.now ≡ true → all d ≡ None) }
    ensures exists { IfErr result (λ e. e ≡ SplitFault.Exists → (all : Files) → F.files folder.old ≡ Some all
        → (d : ℕ) × (is_among d domains.now ≡ true) × (all d ≢ None)) }
    ensures fault { IfErr result (λ e. (e ≡ SplitFault.Exists) ⊎ (e ≡ SplitFault.Write)) }
    ensures count { CountsWrite result (F.failures folder.old) (F.failures folder.new) }
{
    for domain in domains {
        match folder.has(*domain) {
            Ok(false) => {}
            Ok(true) => return Err(SplitFault::Exists),
            Err(_) => return Err(SplitFault::Write),
        }
    }
    Ok(())
}

// Makes an empty file of each domain.
pub(crate) fn create_all<F: Folder>(domains: &[u32], folder: &mut F) -> Result<(), SplitFault>
    ensures all { OnOk result (Creates domains.now (F.files folder.old) (F.files folder.new)) }
    ensures part { OnErr result (StartsMaking domains.now (F.files folder.old) (F.files folder.new)) }
    ensures fault { IfErr result (λ e. e ≡ SplitFault.Write) }
    ensures count { CountsWrite result (F.failures folder.old) (F.failures folder.new) }
{
    for domain in domains {
        if folder.create(*domain).is_err() {
            return Err(SplitFault::Write);
        }
    }
    Ok(())
}
