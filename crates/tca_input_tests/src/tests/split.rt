//! Splitting into a folder whose files are known.
ghost use Rattle.std.specs.Prelude.{◌≡◌, Some, OnOk, OnErr, IfOk, nat_eq};
ghost use Rattle.indexmap.specs.IndexMap.{get};
ghost use Rattle.tca_split.specs.Folders.{Lengthens};
ghost use Rattle.tca_split.specs.Splits.{IsSplit};
ghost use Rattle.tca_input_tests.specs.InMemory.{octets_of};

use indexmap::IndexMap;
use std::alloc::Global;
use std::io;
use tca_report::{Host, ReadFault};
use tca_split::{Folder, Parts, SplitFault, split};
use tca_wire::WireFault;

// Files in memory, which take three octets at a time.
#[derive(Drop)]
struct MemoryFolder {
    alloc: Global,
    files: IndexMap<u32, Vec<u8>>,
    failures: u64,
}

// Writes octets at the end of a file that is there.
fn write_behind(files: &mut IndexMap<u32, Vec<u8>>, domain: u32, octets: &[u8]) -> io::Result<()>
    ensures ok { OnOk result (Lengthens domain octets.now (Some (octets_of (get nat_eq files.old))) (Some (octets_of (get nat_eq files.new)))) }
    ensures err { OnErr result (Some (octets_of (get nat_eq files.new)) ≡ Some (octets_of (get nat_eq files.old))) }
{
    match files.get_mut(&domain) {
        Some(file) => match file.extend_from_slice(octets) {
            Ok(()) => Ok(()),
            Err(_) => Err(io::Error::from(io::ErrorKind::OutOfMemory)),
        },
        None => Err(io::Error::from(io::ErrorKind::NotFound)),
    }
}

impl Folder for MemoryFolder {
    ghost use Rattle.std.specs.Prelude.{Some, nat_eq};
    ghost use Rattle.indexmap.specs.IndexMap.{get};
    ghost use Rattle.tca_input_tests.specs.InMemory.{octets_of};

    ghost files = { λ f. Some (octets_of (get nat_eq f.files)) };

    ghost failures = { λ f. f.failures };

    fn has(&mut self, domain: u32) -> io::Result<bool> {
        Ok(self.files.contains_key(&domain))
    }

    fn create(&mut self, domain: u32) -> io::Result<()> {
        if self.files.contains_key(&domain) {
            self.failures = self.failures.saturating_add(1);
            return Err(io::Error::from(io::ErrorKind::AlreadyExists));
        }
        match self.files.insert(domain, Vec::new(self.alloc)) {
            Ok(_) => Ok(()),
            Err(_) => {
                self.failures = self.failures.saturating_add(1);
                Err(io::Error::from(io::ErrorKind::OutOfMemory))
            }
        }
    }

    fn append(&mut self, domain: u32, octets: &[u8]) -> io::Result<usize> {
        let n = octets.len().min(3);
        match write_behind(&mut self.files, domain, &octets[..n]) {
            Ok(()) => Ok(n),
            Err(error) => {
                self.failures = self.failures.saturating_add(1);
                Err(error)
            }
        }
    }
}

fn empty_folder(alloc: Global) -> MemoryFolder {
    MemoryFolder {
        alloc,
        files: IndexMap::new(alloc),
        failures: 0,
    }
}

// Splits octets, which both readings give.
fn split_octets(
    alloc: Global,
    octets: &[u8],
    folder: &mut MemoryFolder,
) -> Result<Parts, SplitFault>
    ensures { IfOk result (λ parts. IsSplit octets.now (octets_of (get nat_eq folder.old.files)) (Some (octets_of (get nat_eq folder.new.files))) parts) }
{
    let mut first = Host::new(octets);
    let mut second = Host::new(octets);
    split(alloc, &mut first, &mut second, folder)
}

// Whether the domain's file has these octets.
fn holds(folder: &MemoryFolder, domain: u32, octets: &[u8]) -> bool {
    match folder.files.get(&domain) {
        Some(file) => file.as_slice() == octets,
        None => false,
    }
}

// Two messages of domain 7, of 20 and 18 octets, and between them one of domain 9, of 16.
const CAPTURE: &[u8] = b"\x00\x0a\x00\x14\x65\x53\xf1\x00\x00\x00\x00\x05\x00\x00\x00\x07abcd\
\x00\x0a\x00\x10\x65\x53\xf1\x00\x00\x00\x00\x00\x00\x00\x00\x09\
\x00\x0a\x00\x12\x65\x53\xf1\x00\x00\x00\x00\x06\x00\x00\x00\x07ef";

const SEVEN: &[u8] = b"\x00\x0a\x00\x14\x65\x53\xf1\x00\x00\x00\x00\x05\x00\x00\x00\x07abcd\
\x00\x0a\x00\x12\x65\x53\xf1\x00\x00\x00\x00\x06\x00\x00\x00\x07ef";

fn is_split(alloc: Global) -> bool {
    let mut folder = empty_folder(alloc);
    let Ok(parts) = split_octets(alloc, CAPTURE, &mut folder) else {
        return false;
    };
    let nine = b"\x00\x0a\x00\x10\x65\x53\xf1\x00\x00\x00\x00\x00\x00\x00\x00\x09";
    let both = holds(&folder, 7, SEVEN) && holds(&folder, 9, nine) && folder.files.len() == 2;
    both && parts.domains == 2 && parts.messages == 3
}

fn is_refused(alloc: Global, octets: &[u8], folder: &mut MemoryFolder, fault: SplitFault) -> bool {
    match split_octets(alloc, octets, folder) {
        Ok(_) => false,
        Err(found) => found == fault,
    }
}

#[test]
fn each_domain_has_a_file_of_its_messages(rt: HostRuntime) {
    assert!(rt; is_split(rt.alloc()));
}

#[test]
fn a_file_that_is_there_stays(rt: HostRuntime) {
    let mut folder = empty_folder(rt.alloc());
    assert!(rt; folder.create(9).is_ok() && folder.append(9, b"xyz").is_ok());
    let there = is_refused(rt.alloc(), CAPTURE, &mut folder, SplitFault::Exists);
    assert!(rt; there && holds(&folder, 9, b"xyz") && folder.files.len() == 1);
}

#[test]
fn nothing_of_a_capture_that_is_cut_is_written(rt: HostRuntime) {
    let mut folder = empty_folder(rt.alloc());
    let cut = CAPTURE.get(..30).unwrap_or(b"");
    let short = SplitFault::Wire(WireFault::Short);
    assert!(rt; is_refused(rt.alloc(), cut, &mut folder, short) && folder.files.is_empty());
}

// The faults, each with its text; that of a framing is the text of what it has.
const FAULTS: [(SplitFault, &str); 8] = [
    (
        SplitFault::Read(ReadFault::Read),
        "the capture couldn't be read to its end",
    ),
    (
        SplitFault::Read(ReadFault::Turns),
        "the capture couldn't be read to its end",
    ),
    (
        SplitFault::Wire(WireFault::Short),
        "the octets end before the message does",
    ),
    (
        SplitFault::Limits,
        "the capture has more than 4096 observation domains",
    ),
    (
        SplitFault::Exists,
        "a file of an observation domain's name is there already",
    ),
    (
        SplitFault::Changed,
        "the capture changed between two readings",
    ),
    (SplitFault::Write, "a file couldn't be written"),
    (SplitFault::Memory, "out of memory"),
];

fn says(alloc: Global, fault: SplitFault, text: &str) -> bool {
    match format!(in alloc; "{fault}") {
        Ok(said) => said.as_str() == text,
        Err(_) => false,
    }
}

#[test]
fn faults_have_their_texts(rt: HostRuntime) {
    for (fault, text) in FAULTS {
        assert!(rt; says(rt.alloc(), fault, text));
    }
}
